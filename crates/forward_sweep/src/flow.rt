ghost use Rattle.std.specs.Prelude.{◌≡◌, ◌+◌, ◌<◌};
ghost use Rattle.sweep_steps.specs.Steps.{around_tree, step_tree, step_trees, step_arm_trees};
ghost use Rattle.sweep_evaluation.specs.Machine.{Does};
ghost use Rattle.forward_state.specs.Holding.{Holds, Leaves, ticks_of};
ghost use Rattle.forward_sweep.specs.Machine.{HasNumbers, FurtherHasNumbers, turns_run, one_turn, one_iteration, iteration_count as iteration_count_lem, loop_run, arm_run, step_run, steps_run, arm_chosen};

use crate::heads::{Further, head_run, inner_run};
use crate::rounds::{
    enter, iteration_count, push_bounds, push_further, push_privates, set_variable, set_variables,
    unset_privates,
};
use crate::stores::run_store;
use forward_state::Forward;
use meaning::IterationCount;
use resolved::SlotTable;
use ring_core::Steps;
use std::sync::ledger::Ledger;
use sweep_evaluation::holds;
use sweep_steps::{Around, Flow, PrivateScalar, Step, StepArm};
use touches::Watch;

/// The number of the first arm whose condition holds, or of all arms where none does.
fn chosen_arm<W: Watch>(run: &mut Forward<W>, table: &SlotTable, arms: &[StepArm]) -> usize
    ensures does { Does (λ f s. Holds f.run (W.stands_for f.watch) (W.places f.watch) W.judge s) (λ f. f.run.lost) run.old run.new result
        (arm_chosen table.now (step_arm_trees arms.now)) }
    ensures ticks { ticks_of run.new.run ≡ ticks_of run.old.run }
{
    for (number, arm) in arms.iter().enumerate() {
        if holds(run, table, &arm.test) {
            return number;
        }
    }
    arms.len()
}

/// Runs the statements of an arm, whose number goes to the tape.
#[cycle(run)]
fn run_arm<W: Watch, L: Ledger>(
    run: &mut Forward<W>,
    table: &SlotTable,
    steps: &mut Steps<L>,
    number: u64,
    body: &[Step],
)
    ensures left { Leaves run.old.run run.new.run (W.stands_for run.old.watch) (W.stands_for run.new.watch)
        (W.places run.old.watch) (W.places run.new.watch) W.judge (arm_run number (steps_run table.now (step_trees body.now))) }
    ensures ticks { steps.new + ticks_of run.old.run ≡ steps.old + ticks_of run.new.run }
{
    run_steps(run, table, steps, body);
    run.push_number(number);
}

/// Runs the turns of a sequential loop, up to a stop.
#[cycle(run)]
fn run_turns<W: Watch, L: Ledger>(
    run: &mut Forward<W>,
    table: &SlotTable,
    steps: &mut Steps<L>,
    place: Option<u32>,
    turns: IterationCount,
    body: &[Step],
)
    requires numbers { HasNumbers turns }
    ensures left { Leaves run.old.run run.new.run (W.stands_for run.old.watch) (W.stands_for run.new.watch)
        (W.places run.old.watch) (W.places run.new.watch) W.judge
        (turns_run turns.count 0 (one_turn (steps_run table.now (step_trees body.now)) place turns)) }
    ensures ticks { steps.new + ticks_of run.old.run ≡ steps.old + ticks_of run.new.run }
{
    for turn in 0..turns.count {
        if run.is_over() {
            return;
        }
        run.begin(steps);
        set_variable(run, place, turns, turn);
        run_steps(run, table, steps, body);
    }
}

/// Runs the iterations of a parallel loop in order, up to a stop.
#[cycle(run)]
fn run_iterations<W: Watch, L: Ledger>(
    run: &mut Forward<W>,
    table: &SlotTable,
    steps: &mut Steps<L>,
    place: Option<u32>,
    turns: IterationCount,
    more: Further,
    privates: &[PrivateScalar],
    body: &[Step],
)
    requires outer { HasNumbers turns }
    requires inner { FurtherHasNumbers more }
    ensures left { Leaves run.old.run run.new.run (W.stands_for run.old.watch) (W.stands_for run.new.watch)
        (W.places run.old.watch) (W.places run.new.watch) W.judge
        (turns_run (iteration_count_lem turns more) 0 (one_iteration (steps_run table.now (step_trees body.now)) place turns more privates.now)) }
    ensures ticks { steps.new + ticks_of run.old.run ≡ steps.old + ticks_of run.new.run }
{
    for iteration in 0..iteration_count(turns, more) {
        if run.is_over() {
            return;
        }
        run.iterate(iteration, steps);
        unset_privates(run, privates);
        set_variables(run, place, turns, more, iteration);
        run_steps(run, table, steps, body);
        push_privates(run, privates);
    }
}

/// Runs a loop whose instance has begun.
#[cycle(run)]
fn run_loop<W: Watch, L: Ledger>(
    run: &mut Forward<W>,
    table: &SlotTable,
    steps: &mut Steps<L>,
    around: &Around,
    body: &[Step],
)
    ensures left { Leaves run.old.run run.new.run (W.stands_for run.old.watch) (W.stands_for run.new.watch)
        (W.places run.old.watch) (W.places run.new.watch) W.judge (loop_run table.now (around_tree around.now) (steps_run table.now (step_trees body.now))) }
    ensures ticks { steps.new + ticks_of run.old.run ≡ steps.old + ticks_of run.new.run }
{
    match around {
        Around::Turns { head } => {
            let turns = head_run(run, table, head);
            run_turns(run, table, steps, head.place, turns, body);
            push_bounds(run, turns);
        }
        Around::Iterations {
            head,
            inner,
            privates,
        } => {
            let turns = head_run(run, table, head);
            let more = inner_run(run, table, inner);
            let privates = privates.as_slice();
            enter(run, head.line, turns, more);
            run_iterations(run, table, steps, head.place, turns, more, privates, body);
            run.leave();
            push_bounds(run, turns);
            push_further(run, more);
        }
    }
}

/// Runs a statement.
#[cycle(run)]
fn run_step<W: Watch, L: Ledger>(
    run: &mut Forward<W>,
    table: &SlotTable,
    steps: &mut Steps<L>,
    step: &Step,
)
    ensures left { Leaves run.old.run run.new.run (W.stands_for run.old.watch) (W.stands_for run.new.watch)
        (W.places run.old.watch) (W.places run.new.watch) W.judge (step_run table.now (step_tree step.now)) }
    ensures ticks { steps.new + ticks_of run.old.run ≡ steps.old + ticks_of run.new.run }
{
    run.begin(steps);
    match step {
        Flow::Store(store) => run_store(run, table, store),
        Flow::If { line, arms, other } => {
            run.at_line(*line);
            let arms = arms.as_slice();
            let number = chosen_arm(run, table, arms);
            if number < arms.len() {
                let body = arms[number].body.as_slice();
                run_arm(run, table, steps, number as u64, body);
            } else {
                let body = other.as_slice();
                run_arm(run, table, steps, number as u64, body);
            }
        }
        Flow::Loop { head, body, .. } => run_loop(run, table, steps, head, body.as_slice()),
    }
}

/// Runs statements in order, up to a stop. It ticks once for each statement instance.
#[cycle(run)]
pub fn run_steps<W: Watch, L: Ledger>(
    run: &mut Forward<W>,
    table: &SlotTable,
    steps: &mut Steps<L>,
    body: &[Step],
)
    ensures left { Leaves run.old.run run.new.run (W.stands_for run.old.watch) (W.stands_for run.new.watch)
        (W.places run.old.watch) (W.places run.new.watch) W.judge (steps_run table.now (step_trees body.now)) }
    ensures ticks { steps.new + ticks_of run.old.run ≡ steps.old + ticks_of run.new.run }
{
    for step in body {
        if run.is_over() {
            return;
        }
        run_step(run, table, steps, step);
    }
}
