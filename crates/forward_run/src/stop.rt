ghost use Rattle.std.specs.Prelude.{◌≡◌, IfOk};
ghost use Rattle.meaning.specs.Stops.{trapped};
ghost use Rattle.dual_evaluation.specs.Answers.{halt_cause};
ghost use Rattle.forward_state.specs.Holding.{stop_back};
ghost use Rattle.forward_run.specs.Swept.{IsStop};
ghost use Rattle.forward_run.specs.declared.stop.ForwardStop.TheVariants.{Memory as memory};

use dual_evaluation::{Halt, cause_of};
use fl_base::Memory;
use forward_state::SweepStop;
use meaning::TrapAt;
use resolved::SlotTable;
use std::alloc::Global;
use thiserror::Error;
use touches::Conflict;

/// Why a forward sweep ended early: its first stop.
#[derive(Debug, Drop, Error)]
pub enum ForwardStop {
    #[error("line {}: {}", .0.line, .0.cause)]
    Trap(TrapAt),
    /// One statement instance more than there may be would begin.
    #[error("more than 2^24 statement instances")]
    Statements,
    /// One touch more would be made in parallel loops.
    #[error("more than 2^24 touches")]
    Touches,
    /// One word more would go to the tape.
    #[error("more than 2^23 words on the tape")]
    Words,
    /// Two iterations of a parallel loop clash, which is told at the loop's end.
    #[error("line {}: two iterations clash", .0.line)]
    Conflict(Conflict),
    #[error("not enough memory")]
    Memory,
}

impl From<Memory> for ForwardStop {
    ghost from_gives = { λ _ e. e ≡ memory };

    fn from(_: Memory) -> ForwardStop {
        ForwardStop::Memory
    }
}

fn trap_at(alloc: Global, table: &SlotTable, line: u32, halt: Halt) -> ForwardStop
    ensures { IsStop result (trapped (record { line = line; cause = halt_cause table.now.0 halt })) }
{
    match cause_of(alloc, table, halt) {
        Ok(cause) => ForwardStop::Trap(TrapAt { line, cause }),
        Err(_) => ForwardStop::Memory,
    }
}

/// A stop with the names of a table for its slots.
pub(crate) fn named(alloc: Global, table: &SlotTable, stop: SweepStop) -> ForwardStop
    ensures { IsStop result (stop_back table.now stop) }
{
    match stop {
        SweepStop::Trap { line, halt } => trap_at(alloc, table, line, halt),
        SweepStop::Statements => ForwardStop::Statements,
        SweepStop::Touches => ForwardStop::Touches,
        SweepStop::Words => ForwardStop::Words,
        SweepStop::Conflict(conflict) => ForwardStop::Conflict(conflict),
    }
}
