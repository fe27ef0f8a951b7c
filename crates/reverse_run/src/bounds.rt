ghost use Rattle.std.specs.Prelude.{◌≡◌, ◌≢◌, ◌<◌, ◌*◌, ◌/◌, ◌%◌, pos, ◌+ℤ◌, ◌-ℤ◌, int_div};
ghost use Rattle.std.specs.Int.{w64, cast_unsigned};
ghost use Rattle.store_core.specs.Bounds.{clipped};
ghost use Rattle.ring_core.specs.Index.{IsIndex};
ghost use Rattle.meaning.specs.Statements.{value_at};
ghost use Rattle.forward_sweep.specs.Machine.{HasNumbers};
ghost use Rattle.undo_steps.specs.UndoSteps.{variable_places};
ghost use Rattle.sweep_evaluation.specs.Machine.{narrow as narrow_lem, ran};
ghost use Rattle.reverse_sweep.specs.Reversing.{Reversing};
ghost use Rattle.reverse_sweep.specs.Machine.{bounds_on, variable_set, variables_set, count_of};
ghost use Rattle.reverse_state.specs.Holding.{Gives, Leaves, on_local};
ghost use Rattle.reverse_run.specs.Undoing.{bounds_taken, counts_back, counts_taken, HaveNumbers};

use dual_evaluation::{turn_count, value_in};
use meaning::IterationCount;
use operations::Cells;
use reverse_state::Reverse;
use ring_core::Index;
use undo_steps::Variables;

/// A loop: the place of its variable, and its turns.
#[derive(Clone, Copy, Debug)]
pub(crate) struct Round {
    pub place: Option<u32>,
    pub turns: IterationCount,
}

/// The loops whose iterations are those of a parallel loop.
#[derive(Clone, Copy, Debug)]
pub(crate) enum Rounds {
    One(Round),
    Two(Round, Round),
}

/// The number of the index kind that a word holds.
fn narrow(word: u64) -> Index
    ensures { result ≡ narrow_lem word }
{
    Index::of(((word % 0x1_0000_0000) as u32).cast_signed())
}

/// How many steps go from one bound past the other.
fn steps_between(first: i32, last: i32, step: i32) -> u64
    requires { step ≢ pos 0 }
    ensures { result ≡ clipped (int_div ((last -ℤ first) +ℤ step) step) }
{
    let distance = i64::from(last) - i64::from(first) + i64::from(step);
    turn_count(distance, i64::from(step))
}

/// How many turns there are between bounds, none where the step is 0.
fn turns_between(first: i32, last: i32, step: i32) -> u64
    ensures { result ≡ clipped (int_div ((last -ℤ first) +ℤ step) step) }
{
    if step == 0 {
        return 0;
    }
    steps_between(first, last, step)
}

/// The same between numbers of the index kind.
fn turns_of(first: Index, last: Index, step: Index) -> IterationCount
    ensures turns { result ≡ record { first = first; last = last; step = step; count = clipped (int_div ((last -ℤ first) +ℤ step) step) } }
    ensures first { IsIndex first }
    ensures last { IsIndex last }
    ensures step { IsIndex step }
{
    let count = turns_between(first.value(), last.value(), step.value());
    IterationCount {
        first: first.value(),
        last: last.value(),
        step: step.value(),
        count,
    }
}

/// The turns of a loop, whose bounds are on top of the tape, the step's word first.
pub(crate) fn bounds<C: Cells>(run: &mut Reverse<C>) -> IterationCount
    ensures gives { Gives run.old run.new result bounds_taken }
    ensures fits { HasNumbers result }
{
    let step = narrow(run.pop());
    let last = narrow(run.pop());
    let first = narrow(run.pop());
    turns_of(first, last, step)
}

/// The word of a loop's variable in a turn.
fn variable_word(turns: &IterationCount, turn: u64) -> u64
    requires numbers { HasNumbers turns.now }
    requires within { turn < turns.now.count }
    ensures { result ≡ cast_unsigned w64 (value_at turns.now turn) }
{
    i64::from(value_in(turns.first, turns.step, turn)).cast_unsigned()
}

/// Sets a loop's variable for a turn, where it has a place of an iteration's own.
pub(crate) fn set_variable<C: Cells>(
    run: &mut Reverse<C>,
    place: Option<u32>,
    turns: &IterationCount,
    turn: u64,
)
    requires numbers { HasNumbers turns.now }
    requires within { turn < turns.now.count }
    ensures { Leaves run.old run.new (on_local (variable_set run.old.shared place turns.now turn)) }
{
    run.set_own_value(place, variable_word(turns, turn));
}

/// The loops whose bounds are on top of the tape, those of the inner one first.
pub(crate) fn rounds_of<C: Cells>(run: &mut Reverse<C>, variables: Variables) -> Rounds
    ensures gives { Gives run.old run.new (counts_back result) (counts_taken (variable_places variables)) }
    ensures fit { HaveNumbers result }
{
    match variables {
        Variables::One { place } => {
            let turns = bounds(run);
            Rounds::One(Round { place, turns })
        }
        Variables::Two { outer, inner } => {
            let further = bounds(run);
            let turns = bounds(run);
            Rounds::Two(
                Round {
                    place: outer,
                    turns,
                },
                Round {
                    place: inner,
                    turns: further,
                },
            )
        }
    }
}

/// How many iterations there are.
pub(crate) fn count(rounds: &Rounds) -> u128
    ensures { result ≡ count_of (counts_back rounds.now) }
{
    match rounds {
        Rounds::One(only) => u128::from(only.turns.count),
        Rounds::Two(outer, inner) => u128::from(outer.turns.count) * u128::from(inner.turns.count),
    }
}

/// The turn of one loop in iteration k.
fn only_turn(k: u128, count: u64) -> u64
    requires { k < count }
    ensures value { result ≡ k }
    ensures below { result < count }
{
    k as u64
}

/// The turn of the outer loop in iteration k, where the inner one has `count` turns.
#[tactic(auto, using(crate::proofs::Quotients::quotients))]
fn row(k: u128, rows: u64, count: u64) -> u64
    requires { k < rows * count }
    ensures value { result ≡ k / count }
    ensures below { result < rows }
{
    (k / u128::from(count)) as u64
}

/// And that of the inner loop.
fn column(k: u128, count: u64) -> u64
    requires { 0 < count }
    ensures value { result ≡ k % count }
    ensures below { result < count }
{
    (k % u128::from(count)) as u64
}

/// Sets the variables of the loops for an iteration.
#[tactic(auto, using(crate::proofs::Quotients::quotients))]
pub(crate) fn set_variables<C: Cells>(run: &mut Reverse<C>, rounds: &Rounds, k: u128)
    requires numbers { HaveNumbers rounds.now }
    requires within { k < count_of (counts_back rounds.now) }
    ensures { Leaves run.old run.new (on_local (variables_set run.old.shared (counts_back rounds.now) k)) }
{
    match rounds {
        Rounds::One(only) => {
            let turn = only_turn(k, only.turns.count);
            set_variable(run, only.place, &only.turns, turn);
        }
        Rounds::Two(outer, inner) => {
            let count = inner.turns.count;
            let row = row(k, outer.turns.count, count);
            let column = column(k, count);
            set_variable(run, outer.place, &outer.turns, row);
            set_variable(run, inner.place, &inner.turns, column);
        }
    }
}
