ghost use Rattle.std.specs.Prelude.{◌≡◌, ◌<◌, ◌&&◌, false, true};
ghost use Rattle.undo_steps.specs.UndoSteps.{undo_tree, undo_trees, undo_arm_trees, variable_places};
ghost use Rattle.forward_sweep.specs.Machine.{HasNumbers};
ghost use Rattle.reverse_sweep.specs.Machine.{undo_run, undos_run, loop_undone, turns_undone, turn_undone, parallel_undone, iterations_undone, iteration_undone, count_of};
ghost use Rattle.reverse_state.specs.Holding.{Leaves};
ghost use Rattle.reverse_run.specs.Undoing.{are_below, is_flat, are_flat, is_within, counts_back, HaveNumbers, Works};

use crate::bounds::{Rounds, bounds, count, rounds_of, set_variable};
use crate::iterations::{close_sums, prepare};
use crate::stores::undo_store;
use meaning::IterationCount;
use operations::Cells;
use resolved::SlotTable;
use reverse_state::Reverse;
use sweep_steps::{Flow, PrivateScalar};
use undo_steps::{UndoAround, UndoStep, Variables};

/// Undoes a statement.
#[cycle(undoing)]
fn undo_step<C: Cells>(run: &mut Reverse<C>, table: &SlotTable, step: &UndoStep)
    requires flat { run.old.lost ≡ false → is_flat run.old.shared (is_within run.old) (undo_tree step.now) ≡ true }
    ensures { Leaves run.old run.new (undo_run table.now run.old.shared (undo_tree step.now)) }
{
    match step {
        Flow::Store(undo) => undo_store(run, table, undo),
        Flow::If { arms, other, .. } => {
            let number = run.pop();
            let arms = arms.as_slice();
            if number < arms.len() as u64 {
                let arm = &arms[number as usize];
                undo_all(run, table, arm.body.as_slice());
            } else {
                undo_all(run, table, other.as_slice());
            }
        }
        Flow::Loop { head, body, .. } => match head {
            UndoAround::Turns { place } => undo_turns(run, table, *place, body.as_slice()),
            UndoAround::Iterations {
                variables,
                privates,
                reductions,
            } => undo_parallel(
                run,
                table,
                *variables,
                privates.as_slice(),
                reductions.as_slice(),
                body.as_slice(),
            ),
        },
    }
}

/// Undoes the turns of a sequential loop, the last one first.
#[cycle(undoing)]
fn undo_turns<C: Cells>(
    run: &mut Reverse<C>,
    table: &SlotTable,
    place: Option<u32>,
    body: &[UndoStep],
)
    requires flat { run.old.lost ≡ false → are_flat run.old.shared (is_within run.old) (undo_trees body.now) ≡ true }
    ensures { Leaves run.old run.new (loop_undone run.old.shared place (undos_run table.now run.old.shared (undo_trees body.now))) }
{
    let turns = bounds(run);
    undo_each_turn(run, table, place, &turns, body);
}

#[cycle(undoing)]
fn undo_each_turn<C: Cells>(
    run: &mut Reverse<C>,
    table: &SlotTable,
    place: Option<u32>,
    turns: &IterationCount,
    body: &[UndoStep],
)
    requires numbers { HasNumbers turns.now }
    requires flat { run.old.lost ≡ false → are_flat run.old.shared (is_within run.old) (undo_trees body.now) ≡ true }
    ensures { Leaves run.old run.new (turns_undone turns.now.count (turn_undone run.old.shared place turns.now (undos_run table.now run.old.shared (undo_trees body.now)))) }
{
    for k in (0..turns.count).rev() {
        if run.is_lost() {
            return;
        }
        set_variable(run, place, turns, k);
        undo_all(run, table, body);
    }
}

/// Undoes a parallel loop.
#[cycle(undoing)]
fn undo_parallel<C: Cells>(
    run: &mut Reverse<C>,
    table: &SlotTable,
    variables: Variables,
    privates: &[PrivateScalar],
    reductions: &[u32],
    body: &[UndoStep],
)
    requires outside { run.old.lost ≡ false → is_within run.old ≡ false }
    requires places { run.old.lost ≡ false → are_below run.old.shared reductions.now ≡ true }
    requires flat { run.old.lost ≡ false → are_flat run.old.shared true (undo_trees body.now) ≡ true }
    ensures { Leaves run.old run.new (parallel_undone run.old.shared (variable_places variables) privates.now reductions.now (undos_run table.now run.old.shared (undo_trees body.now))) }
{
    let rounds = rounds_of(run, variables);
    if run.is_lost() {
        return;
    }
    run.enter();
    undo_iterations(run, table, &rounds, privates, reductions, body);
    run.quit();
}

/// Undoes the iterations of a parallel loop in ascending order.
#[cycle(undoing)]
fn undo_iterations<C: Cells>(
    run: &mut Reverse<C>,
    table: &SlotTable,
    rounds: &Rounds,
    privates: &[PrivateScalar],
    reductions: &[u32],
    body: &[UndoStep],
)
    requires numbers { HaveNumbers rounds.now }
    requires inside { run.old.lost ≡ false → is_within run.old ≡ true }
    requires places { run.old.lost ≡ false → are_below run.old.shared reductions.now ≡ true }
    requires flat { run.old.lost ≡ false → are_flat run.old.shared true (undo_trees body.now) ≡ true }
    ensures { Works run.old run.new (λ m. iterations_undone (count_of (counts_back rounds.now)) (iteration_undone run.old.shared privates.now reductions.now (counts_back rounds.now) m.tapes
        (undos_run table.now run.old.shared (undo_trees body.now)) m.entry)) }
{
    for k in 0..count(rounds) {
        if run.is_lost() {
            return;
        }
        undo_iteration(run, table, rounds, k, privates, reductions, body);
    }
}

#[cycle(undoing)]
fn undo_iteration<C: Cells>(
    run: &mut Reverse<C>,
    table: &SlotTable,
    rounds: &Rounds,
    k: u128,
    privates: &[PrivateScalar],
    reductions: &[u32],
    body: &[UndoStep],
)
    requires numbers { HaveNumbers rounds.now }
    requires within { k < count_of (counts_back rounds.now) }
    requires inside { run.old.lost ≡ false → is_within run.old ≡ true }
    requires places { run.old.lost ≡ false → are_below run.old.shared reductions.now ≡ true }
    requires flat { run.old.lost ≡ false → are_flat run.old.shared true (undo_trees body.now) ≡ true }
    ensures { Works run.old run.new (λ m g. (iteration_undone run.old.shared privates.now reductions.now (counts_back rounds.now) m.tapes
        (undos_run table.now run.old.shared (undo_trees body.now)) m.entry k g).stage) }
{
    run.begin(k);
    prepare(run, rounds, k, privates, reductions);
    undo_all(run, table, body);
    close_sums(run, reductions);
}

/// Undoes statements, the last one first. The tape is that of a forward sweep over the statements that they undo. Where memory was wanting
/// nothing is known of the cells.
#[cycle(undoing)]
pub fn undo_all<C: Cells>(run: &mut Reverse<C>, table: &SlotTable, steps: &[UndoStep])
    requires flat { run.old.lost ≡ false → are_flat run.old.shared (is_within run.old) (undo_trees steps.now) ≡ true }
    ensures { Leaves run.old run.new (undos_run table.now run.old.shared (undo_trees steps.now)) }
{
    for i in (0..steps.len()).rev() {
        let step = &steps[i];
        undo_step(run, table, step);
    }
}
