ghost use Rattle.std.specs.Prelude.{◌≡◌, true, IfOk};
ghost use Rattle.resolved.specs.ResolvedExprs.{slot_name};
ghost use Rattle.dual_evaluation.specs.Answers.{Answers, halt_cause, is_numeric, is_numeric_result};
ghost use Rattle.dual_evaluation.specs.declared.stop.EvalStop.TheVariants.{Memory as memory};

use fl_ast::{Memory, Name};
use meaning::{Cause, Value};
use resolved::SlotTable;
use std::alloc::{AllocError, AllocFailed, Global};

/// Why a value or a place isn't there, a name being told by its slot.
#[derive(Clone, Copy, Debug)]
pub enum Halt {
    Range,
    ZeroDivisor,
    Bounds { slot: usize },
    Unset { slot: usize },
}

/// Why an evaluation gave no value. It is small, and nothing has to be let go of, since each operation hands it on.
#[derive(Clone, Copy, Debug)]
pub enum EvalStop {
    Trap(Halt),
    Memory,
}

impl From<Memory> for EvalStop {
    ghost from_gives = { λ _ e. e ≡ memory };

    fn from(_: Memory) -> EvalStop {
        EvalStop::Memory
    }
}

impl From<AllocError> for EvalStop {
    ghost from_gives = { λ _ e. e ≡ memory };

    fn from(_: AllocError) -> EvalStop {
        EvalStop::Memory
    }
}

impl<T: Drop> From<AllocFailed<T>> for EvalStop {
    ghost from_gives = { λ _ e. e ≡ memory };

    fn from(_: AllocFailed<T>) -> EvalStop {
        EvalStop::Memory
    }
}

/// A cause that tells no name. The table is that by whose slots stops are told.
fn numeric(table: &SlotTable, cause: Cause) -> Halt
    requires { is_numeric cause ≡ true }
    ensures { halt_cause table.now.0 result ≡ cause }
{
    match cause {
        Cause::Range => Halt::Range,
        Cause::ZeroDivisor => Halt::ZeroDivisor,
        Cause::Bounds { .. } => unreachable!(),
        Cause::Unset { .. } => unreachable!(),
    }
}

/// What an operation on values found, whose causes tell no names.
pub(crate) fn found(table: &SlotTable, given: Result<Value, Cause>) -> Result<Value, EvalStop>
    requires { is_numeric_result given ≡ true }
    ensures { Answers table.now.0 result given }
{
    match given {
        Ok(value) => Ok(value),
        Err(cause) => Err(EvalStop::Trap(numeric(table, cause))),
    }
}

fn name_of(alloc: Global, table: &SlotTable, slot: usize) -> Result<Name, Memory>
    ensures { IfOk result (λ name. name ≡ slot_name table.now.0 slot) }
{
    match table.layout().shapes().get(slot) {
        Some(shape) => shape.name.clone(alloc),
        None => Name::of(alloc, &[]),
    }
}

/// The cause of a trap, with its name.
pub fn cause_of(alloc: Global, table: &SlotTable, halt: Halt) -> Result<Cause, Memory>
    ensures { IfOk result (λ cause. cause ≡ halt_cause table.now.0 halt) }
{
    match halt {
        Halt::Range => Ok(Cause::Range),
        Halt::ZeroDivisor => Ok(Cause::ZeroDivisor),
        Halt::Bounds { slot } => Ok(Cause::Bounds {
            name: name_of(alloc, table, slot)?,
        }),
        Halt::Unset { slot } => Ok(Cause::Unset {
            name: name_of(alloc, table, slot)?,
        }),
    }
}
