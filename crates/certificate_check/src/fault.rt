//! Why a text is no certificate for a program.

use crate::flaw::Flaw;
use thiserror::Error;

#[derive(Debug, Drop, Error)]
pub enum CheckError {
    /// The first line with which no certificate goes on, counted from 1.
    #[error("no line of a certificate")]
    Syntax { line: usize },
    /// The first derivation that is for no pair of the program, or isn't accepted.
    #[error("a derivation that isn't accepted")]
    Flawed(Flaw),
    #[error("memory was wanting")]
    Memory,
}
