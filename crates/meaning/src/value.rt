use fl_ast::Name;
use ring_core::{Index, Ring};
use thiserror::Error;

/// A ring value with its tangent.
#[derive(Clone, Copy, Debug)]
pub struct Dual {
    pub value: Ring,
    pub tangent: Ring,
}

/// A value of one of the two kinds.
#[derive(Clone, Copy, Debug)]
pub enum Value {
    Index(Index),
    Ring(Dual),
}

/// Why an evaluation has no result.
#[derive(Debug, Drop, Error)]
pub enum Cause {
    #[error("an exact whole number outside -2^31 .. 2^31-1")]
    Range,
    #[error("a divisor of 0")]
    ZeroDivisor,
    #[error("a subscript outside the bounds of its name")]
    Bounds { name: Name },
    #[error("a read of a name before it was set")]
    Unset { name: Name },
}

/// A trap, at the line of its statement.
#[derive(Debug, Drop)]
pub struct TrapAt {
    pub line: u32,
    pub cause: Cause,
}

/// The bounds of a loop, and how often its body runs (Fortran 2018, 11.1.7.4.1).
#[derive(Clone, Copy, Debug)]
pub struct IterationCount {
    pub first: i32,
    pub last: i32,
    pub step: i32,
    pub count: u64,
}
