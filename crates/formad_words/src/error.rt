ghost use Rattle.std.specs.Prelude.{◌≡◌};
ghost use Rattle.formad_words.specs.declared.error.WordsError.TheVariants.{Memory as memory};

use fl_base::Memory;
use std::alloc::AllocError;
use thiserror::Error;

/// Why words are none of a command.
#[derive(Debug, Drop, Error)]
pub enum WordsError {
    #[error("the words aren't in the grammar")]
    Bad,
    #[error("memory was wanting")]
    Memory,
}

impl From<AllocError> for WordsError {
    ghost from_gives = { λ _ e. e ≡ memory };

    fn from(_: AllocError) -> WordsError {
        WordsError::Memory
    }
}

impl From<Memory> for WordsError {
    ghost from_gives = { λ _ e. e ≡ memory };

    fn from(_: Memory) -> WordsError {
        WordsError::Memory
    }
}
