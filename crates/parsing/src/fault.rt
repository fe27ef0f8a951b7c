use fl_base::{Memory, Name};
use thiserror::Error;

/// Why a token is refused.
#[derive(Clone, Copy, Debug, PartialEq, Eq)]
pub enum Cause {
    /// Nothing goes on so.
    Expected,
    /// What goes on so is too deep.
    Deep,
    /// What goes on so are too many.
    Many,
    /// A statement begins there with a word of a construct outside the language.
    Construct,
    /// A word of a directive that begins no clause. Readers give `Expected` there; it is told apart afterwards.
    Unknown,
    /// A name or a clause of a directive that stands twice.
    Twice,
    /// A token of a directive at which none goes on. Readers give `Expected` there; it is told apart afterwards.
    Form,
}

/// A refused token. `left` counts the tokens from it on; it is 0 at the end of input.
#[derive(Clone, Copy, Debug, PartialEq, Eq)]
pub struct Fault {
    pub cause: Cause,
    pub left: usize,
}

/// Why a reader gives nothing.
#[derive(Debug, Drop, Error)]
pub enum Failure {
    #[error("no memory")]
    Memory,
    #[error("refused")]
    Refused(Fault),
}

impl From<Memory> for Failure {
    ghost use Rattle.std.specs.Prelude.{◌≡◌};
    ghost use Rattle.parsing.specs.declared.fault.Failure.TheVariants.{Memory as wanting};

    ghost from_gives = { λ _ e. e ≡ wanting };

    fn from(_: Memory) -> Failure {
        Failure::Memory
    }
}

/// Why the clauses of a directive aren't read.
#[derive(Debug, Drop, Error)]
pub enum ClauseError {
    /// A word outside brackets that is no word of a directive and begins no clause.
    #[error("unknown clause")]
    Unknown { line: u32, word: Name },
    /// A name in two clauses of its sharing or twice in one, or a clause that stands twice.
    #[error("clause twice")]
    Twice { line: u32, name: Name },
    /// The first token at which no directive goes on.
    #[error("clause form")]
    Form { line: u32 },
    #[error("no memory")]
    Memory,
}

impl From<Memory> for ClauseError {
    ghost use Rattle.std.specs.Prelude.{◌≡◌};
    ghost use Rattle.parsing.specs.declared.fault.ClauseError.TheVariants.{Memory as wanting};

    ghost from_gives = { λ _ e. e ≡ wanting };

    fn from(_: Memory) -> ClauseError {
        ClauseError::Memory
    }
}
