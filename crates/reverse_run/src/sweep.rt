ghost use Rattle.std.specs.Prelude.{◌≡◌, ◌≤◌, ◌+◌, ◌%◌, ◌^◌, length, None, true, false, IfOk};
ghost use Rattle.forward_law.specs.Forward.{tape_back};
ghost use Rattle.undo_steps.specs.UndoSteps.{undo_trees};
ghost use Rattle.reverse_run.specs.Undoing.{are_flat, swept_back, swept_adds};

use crate::statements::undo_all;
use fl_base::Memory;
use operations::Cells;
use resolved::SlotTable;
use reverse_state::Reverse;
use std::alloc::Global;
use store_core::Tape;
use undo_steps::UndoStep;

/// What a reverse sweep leaves: the cells, and how many atomic additions to adjoints there were, modulo 2^64.
#[derive(Drop)]
pub struct SweptBack<C> {
    pub cells: C,
    pub adds: u64,
}

/// What is left when all statements of a program are undone, from the tape that a forward sweep left and the cells after it: for each
/// of the `shared` places its value, and then for each its adjoint. `own` is the number of further places.
pub fn sweep_back<C: Cells + Drop>(
    alloc: Global,
    table: &SlotTable,
    steps: &[UndoStep],
    cells: C,
    shared: u32,
    own: usize,
    tape: Tape,
) -> Result<SweptBack<C>, Memory>
    requires few { shared ≤ 1048576 }
    requires doubled { length (C.cells cells) ≡ shared + shared }
    requires alone { C.due cells ≡ None }
    requires flat { are_flat shared false (undo_trees steps.now) ≡ true }
    ensures cells { IfOk result (λ after. C.cells after.cells ≡ swept_back table.now shared (undo_trees steps.now) (tape_back tape) own (C.cells cells)) }
    ensures doubled { IfOk result (λ after. length (C.cells after.cells) ≡ shared + shared) }
    ensures adds { IfOk result (λ after. after.adds ≡ swept_adds table.now shared (undo_trees steps.now) (tape_back tape) own (C.cells cells) % 2 ^ 64) }
{
    let mut run = Reverse::new(alloc, cells, shared, own, tape)?;
    undo_all(&mut run, table, steps);
    if run.is_lost() {
        return Err(Memory);
    }
    let adds = run.adds();
    let cells = run.into_cells();
    Ok(SweptBack { cells, adds })
}
