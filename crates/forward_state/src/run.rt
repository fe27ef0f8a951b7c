use dual_evaluation::Halt;
use meaning::Value;
use store_core::{IterationTapes, Tape};
use touches::Conflict;

/// Why a forward sweep stopped, names being told by their slots.
#[derive(Clone, Copy, Debug)]
pub enum SweepStop {
    /// A trap in the statement at a line.
    Trap { line: u32, halt: Halt },
    /// One statement instance more than there may be would begin.
    Statements,
    /// One touch more than there may be would be made.
    Touches,
    /// One word more than there may be would go to the tape.
    Words,
    Conflict(Conflict),
}

/// A forward sweep without what watches its touches.
#[derive(Drop)]
pub struct Run {
    pub cells: Vec<Option<Value>>,
    /// The line of the statement that runs.
    pub line: u32,
    /// The line of the `do` of the parallel loop around it, and the iteration's number, 0 outside.
    pub around: Option<u32>,
    pub iteration: u64,
    /// How many statement instances have begun, touches were made, and words went to the tape.
    pub statements: u32,
    pub touches: u32,
    pub words: u32,
    pub stop: Option<SweepStop>,
    /// Memory was wanting.
    pub lost: bool,
    pub tape: Tape,
    /// In a parallel loop the tapes of its iterations so far.
    pub running: Option<IterationTapes>,
}
