ghost use Rattle.std.specs.Prelude.{◌≡◌};
ghost use Rattle.data_io.specs.declared.data.DataError.TheVariants.{Memory as memory};

use fl_base::{Memory, Name};
use std::alloc::{AllocError, AllocFailed};
use std::fmt;
use thiserror::Error;

/// Why a file of numbers was refused. `at` counts elements from 1, and is 0 for the whole of a name's value.
#[derive(Drop, Error)]
pub enum DataError {
    #[error("the bytes are no JSON")]
    NotJson,
    #[error("the value is no object")]
    NotObject,
    #[error("a name is missing")]
    Missing { name: Name },
    #[error("a key isn't asked for")]
    Extra { name: Name },
    #[error("a number isn't whole")]
    NotWhole { name: Name, at: u64 },
    #[error("a list has another length")]
    Shape { name: Name, want: u64, got: u64 },
    #[error("a number is out of its range")]
    IndexRange { name: Name, at: u64 },
    #[error("too many steps")]
    TooManySteps,
    #[error("memory was wanting")]
    Memory,
}

impl fmt::Debug for DataError {
    fn fmt<W: fmt::Write>(&self, f: &mut fmt::Formatter<W>) -> fmt::Result {
        write!(f, "{self}")
    }
}

impl From<AllocError> for DataError {
    ghost from_gives = { λ _ e. e ≡ memory };

    fn from(_e: AllocError) -> DataError {
        DataError::Memory
    }
}

impl<T: Drop> From<AllocFailed<T>> for DataError {
    ghost from_gives = { λ _ e. e ≡ memory };

    fn from(_e: AllocFailed<T>) -> DataError {
        DataError::Memory
    }
}

impl From<Memory> for DataError {
    ghost from_gives = { λ _ e. e ≡ memory };

    fn from(_e: Memory) -> DataError {
        DataError::Memory
    }
}
