ghost use Rattle.std.specs.Prelude.{◌≡◌};
ghost use Rattle.certificate.specs.declared.error.CertError.TheVariants.{Memory as memory};

use fl_base::Memory;
use std::alloc::AllocError;
use thiserror::Error;

/// Why a text is no certificate.
#[derive(Debug, Drop, Error)]
pub enum CertError {
    /// The first line with which no certificate goes on, counted from 1.
    #[error("no line of a certificate")]
    Syntax { line: usize },
    #[error("memory was wanting")]
    Memory,
}

impl From<AllocError> for CertError {
    ghost from_gives = { λ _ e. e ≡ memory };

    fn from(_: AllocError) -> CertError {
        CertError::Memory
    }
}

impl From<Memory> for CertError {
    ghost from_gives = { λ _ e. e ≡ memory };

    fn from(_: Memory) -> CertError {
        CertError::Memory
    }
}
