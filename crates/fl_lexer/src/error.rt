//! What is refused, and where.

use fl_base::Memory;
use std::alloc::{AllocError, AllocFailed};
use thiserror::Error;

/// Why a text has no tokens. Lines and columns count from 1, columns in bytes.
#[derive(Debug, Drop, PartialEq, Eq, Error)]
pub enum LexError {
    /// A byte that stands in no token and no comment.
    #[error("bad byte")]
    BadByte { line: u32, col: u32 },
    /// A name of more than 63 bytes.
    #[error("long name")]
    LongName { line: u32 },
    /// A line of more than 1,024 bytes, its end not counted.
    #[error("long line")]
    LongLine { line: u32 },
    /// A line that ends in `&`, and that no line of its kind continues (Fortran 2018, 6.3.2.4; OpenMP 5.2, 3.1.2).
    #[error("open continuation")]
    OpenContinuation { line: u32 },
    /// A number above 2^63-1.
    #[error("wide literal")]
    WideLiteral { line: u32 },
    #[error("no memory")]
    Memory,
}

/// What is refused at a byte of the text.
#[derive(Debug, Drop)]
pub struct Refusal {
    pub at: usize,
    pub error: LexError,
}

/// Why reading stops.
#[derive(Debug, Drop)]
pub enum Halt {
    Memory,
    Refused(Refusal),
}

impl From<AllocError> for Halt {
    ghost use Rattle.std.specs.Prelude.{◌≡◌};
    ghost use Rattle.fl_lexer.specs.declared.error.Halt.TheVariants.{Memory};

    ghost from_gives = { λ _ e. e ≡ Memory };

    fn from(_: AllocError) -> Halt {
        Halt::Memory
    }
}

impl<T: Drop> From<AllocFailed<T>> for Halt {
    ghost use Rattle.std.specs.Prelude.{◌≡◌};
    ghost use Rattle.fl_lexer.specs.declared.error.Halt.TheVariants.{Memory};

    ghost from_gives = { λ _ e. e ≡ Memory };

    fn from(_: AllocFailed<T>) -> Halt {
        Halt::Memory
    }
}
