ghost use Rattle.std.specs.Prelude.{◌≡◌, ◌≢◌, pos, ◌+ℤ◌, ◌-ℤ◌, int_div};
ghost use Rattle.std.specs.Ordering.{int_eq};
ghost use Rattle.ring_core.specs.Index.{IsIndex};
ghost use Rattle.store_core.specs.Bounds.{clipped};
ghost use Rattle.sweep_evaluation.specs.Machine.{Does};
ghost use Rattle.sweep_steps.specs.Steps.{option_tree, head_tree, inner_tree};
ghost use Rattle.forward_state.specs.Holding.{Holds, ticks_of};
ghost use Rattle.forward_sweep.specs.Machine.{step_number as step_number_lem, counted as counted_lem, head_run as head_run_lem, inner_run as inner_run_lem, HasNumbers, FurtherHasNumbers};

use dual_evaluation::{Halt, turn_count};
use forward_state::Forward;
use meaning::IterationCount;
use resolved::SlotTable;
use ring_core::Index;
use sweep_evaluation::{Access, index};
use sweep_steps::StepHead;
use sweep_trees::IndexCode;
use touches::Watch;

/// The place of the variable and the turns of the loop that is collapsed with a parallel one.
pub type Further = Option<(Option<u32>, IterationCount)>;

fn step_number<W: Watch>(run: &mut Forward<W>, table: &SlotTable, step: &Option<IndexCode>) -> Index
    ensures does { Does (λ f s. Holds f.run (W.stands_for f.watch) (W.places f.watch) W.judge s) (λ f. f.run.lost) run.old run.new result
        (step_number_lem table.now (option_tree step.now)) }
    ensures ticks { ticks_of run.new.run ≡ ticks_of run.old.run }
{
    match step {
        None => Index::of(1),
        Some(step) => index(run, table, step),
    }
}

/// How many steps go from one bound past the other.
fn steps_between(first: i32, last: i32, step: i32) -> u64
    requires { step ≢ pos 0 }
    ensures { result ≡ clipped (int_div ((last -ℤ first) +ℤ step) step) }
{
    let distance = i64::from(last) - i64::from(first) + i64::from(step);
    turn_count(distance, i64::from(step))
}

/// The same of numbers of the index kind.
fn count_between(first: Index, last: Index, step: Index) -> u64
    requires { step ≢ pos 0 }
    ensures { result ≡ clipped (int_div ((last -ℤ first) +ℤ step) step) }
{
    steps_between(first.value(), last.value(), step.value())
}

fn turns(first: Index, last: Index, step: Index, count: u64) -> IterationCount
    ensures value { result ≡ record { first = first; last = last; step = step; count = count } }
    ensures first { IsIndex first }
    ensures last { IsIndex last }
    ensures step { IsIndex step }
{
    IterationCount {
        first: first.value(),
        last: last.value(),
        step: step.value(),
        count,
    }
}

fn is_zero(number: Index) -> bool
    ensures { result ≡ int_eq number (pos 0) }
{
    number.value() == 0
}

fn counted<W: Watch>(run: &mut Forward<W>, first: Index, last: Index, step: Index) -> IterationCount
    ensures does { Does (λ f s. Holds f.run (W.stands_for f.watch) (W.places f.watch) W.judge s) (λ f. f.run.lost) run.old run.new result
        (counted_lem first last step) }
    ensures ticks { ticks_of run.new.run ≡ ticks_of run.old.run }
    ensures fits { HasNumbers result }
{
    if is_zero(step) {
        run.stop(Halt::ZeroDivisor);
        return turns(first, last, step, 0);
    }
    let count = count_between(first, last, step);
    turns(first, last, step, count)
}

/// The turns of a loop.
pub fn head_run<W: Watch>(
    run: &mut Forward<W>,
    table: &SlotTable,
    head: &StepHead,
) -> IterationCount
    ensures does { Does (λ f s. Holds f.run (W.stands_for f.watch) (W.places f.watch) W.judge s) (λ f. f.run.lost) run.old run.new result
        (head_run_lem table.now (head_tree head.now)) }
    ensures ticks { ticks_of run.new.run ≡ ticks_of run.old.run }
    ensures fits { HasNumbers result }
{
    run.at_line(head.line);
    let first = index(run, table, &head.first);
    let last = index(run, table, &head.last);
    let step = step_number(run, table, &head.step);
    counted(run, first, last, step)
}

/// The same of the loop that is collapsed, where there is one.
pub fn inner_run<W: Watch>(
    run: &mut Forward<W>,
    table: &SlotTable,
    inner: &Option<StepHead>,
) -> Further
    ensures does { Does (λ f s. Holds f.run (W.stands_for f.watch) (W.places f.watch) W.judge s) (λ f. f.run.lost) run.old run.new result
        (inner_run_lem table.now (inner_tree inner.now)) }
    ensures ticks { ticks_of run.new.run ≡ ticks_of run.old.run }
    ensures fits { FurtherHasNumbers result }
{
    match inner {
        None => None,
        Some(head) => {
            let turns = head_run(run, table, head);
            Some((head.place, turns))
        }
    }
}
