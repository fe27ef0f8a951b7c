ghost use Rattle.std.specs.Prelude.{◌≡◌, ◌<◌, ◌++◌, ◌∷◌, [], pos, ◌+ℤ◌, ◌*ℤ◌, Some, IfOk, OnOk};
ghost use Rattle.ring_core.specs.Index.{IsIndex};
ghost use Rattle.meaning.specs.declared.value.Value.TheVariants.{Index as index_value};
ghost use Rattle.forward_state.specs.Steps.{number_set, pushed, entered};
ghost use Rattle.forward_state.specs.Holding.{Holds, Leaves, ticks_of};
ghost use Rattle.forward_sweep.specs.Machine.{HasNumbers, FurtherHasNumbers, variable_run, words_run, unset_all, privates_run, iteration_count as iteration_count_lem, variables_run, bounds_of, further_bounds, further_words};

use crate::heads::Further;
use dual_evaluation::value_in;
use fl_base::{Items, Memory};
use forward_state::Forward;
use meaning::{IterationCount, Value};
use ring_core::Index;
use std::alloc::Global;
use sweep_evaluation::Access;
use sweep_steps::PrivateScalar;
use touches::Watch;

#[inline(always)]
fn set_turn<W: Watch>(run: &mut Forward<W>, place: Option<u32>, first: i32, step: i32, turn: u64)
    requires { IsIndex (first +ℤ (pos turn *ℤ step)) }
    ensures left { Leaves run.old.run run.new.run (W.stands_for run.old.watch) (W.stands_for run.new.watch)
        (W.places run.old.watch) (W.places run.new.watch) W.judge (number_set place (first +ℤ (pos turn *ℤ step))) }
    ensures ticks { ticks_of run.new.run ≡ ticks_of run.old.run }
{
    let number = value_in(first, step, turn);
    run.set_number(place, number);
}

/// A loop's variable is set for a turn.
#[inline(always)]
pub(crate) fn set_variable<W: Watch>(
    run: &mut Forward<W>,
    place: Option<u32>,
    turns: IterationCount,
    turn: u64,
)
    requires numbers { HasNumbers turns }
    requires within { turn < turns.count }
    ensures left { Leaves run.old.run run.new.run (W.stands_for run.old.watch) (W.stands_for run.new.watch)
        (W.places run.old.watch) (W.places run.new.watch) W.judge (variable_run place turns turn) }
    ensures ticks { ticks_of run.new.run ≡ ticks_of run.old.run }
{
    set_turn(run, place, turns.first, turns.step, turn);
}

fn push_number<W: Watch>(run: &mut Forward<W>, number: i32)
    ensures left { Leaves run.old.run run.new.run (W.stands_for run.old.watch) (W.stands_for run.new.watch)
        (W.places run.old.watch) (W.places run.new.watch) W.judge (λ s. pushed s (Some (index_value number))) }
    ensures ticks { ticks_of run.new.run ≡ ticks_of run.old.run }
{
    run.push(Some(Value::Index(Index::of(number))));
}

/// A loop's bounds go to the tape.
pub(crate) fn push_bounds<W: Watch>(run: &mut Forward<W>, turns: IterationCount)
    requires numbers { HasNumbers turns }
    ensures left { Leaves run.old.run run.new.run (W.stands_for run.old.watch) (W.stands_for run.new.watch)
        (W.places run.old.watch) (W.places run.new.watch) W.judge (words_run turns) }
    ensures ticks { ticks_of run.new.run ≡ ticks_of run.old.run }
{
    push_number(run, turns.first);
    push_number(run, turns.last);
    push_number(run, turns.step);
}

/// So do those of the loop that is collapsed.
pub(crate) fn push_further<W: Watch>(run: &mut Forward<W>, more: Further)
    requires numbers { FurtherHasNumbers more }
    ensures left { Leaves run.old.run run.new.run (W.stands_for run.old.watch) (W.stands_for run.new.watch)
        (W.places run.old.watch) (W.places run.new.watch) W.judge (further_words more) }
    ensures ticks { ticks_of run.new.run ≡ ticks_of run.old.run }
{
    if let Some((_, turns)) = more {
        push_bounds(run, turns);
    }
}

/// Private scalars are unset at the beginning of an iteration.
#[inline(always)]
pub(crate) fn unset_privates<W: Watch>(run: &mut Forward<W>, privates: &[PrivateScalar])
    ensures left { Leaves run.old.run run.new.run (W.stands_for run.old.watch) (W.stands_for run.new.watch)
        (W.places run.old.watch) (W.places run.new.watch) W.judge (unset_all privates.now) }
    ensures ticks { ticks_of run.new.run ≡ ticks_of run.old.run }
{
    for private in privates {
        run.unset(private.place);
    }
}

/// The words of those that are pushed go to the tape at its end.
#[inline(always)]
pub(crate) fn push_privates<W: Watch>(run: &mut Forward<W>, privates: &[PrivateScalar])
    ensures left { Leaves run.old.run run.new.run (W.stands_for run.old.watch) (W.stands_for run.new.watch)
        (W.places run.old.watch) (W.places run.new.watch) W.judge (privates_run privates.now) }
    ensures ticks { ticks_of run.new.run ≡ ticks_of run.old.run }
{
    for private in privates {
        run.push_scalar(private.pushes, private.place);
    }
}

/// The number of iterations of one loop, or of two that are collapsed.
#[tactic(auto, using(crate::proofs::Iterating::counts))]
pub(crate) fn iteration_count(turns: IterationCount, more: Further) -> u64
    ensures { result ≡ iteration_count_lem turns more }
{
    match more {
        None => turns.count,
        Some((_, inner)) => turns.count.saturating_mul(inner.count),
    }
}

/// The variables of one loop, or of two that are collapsed, are set for an iteration. That of the inner one runs faster
/// (OpenMP 5.2, 4.4.3).
#[inline(always)]
pub(crate) fn set_variables<W: Watch>(
    run: &mut Forward<W>,
    place: Option<u32>,
    turns: IterationCount,
    more: Further,
    iteration: u64,
)
    requires outer { HasNumbers turns }
    requires inner { FurtherHasNumbers more }
    requires within { iteration < iteration_count_lem turns more }
    ensures left { Leaves run.old.run run.new.run (W.stands_for run.old.watch) (W.stands_for run.new.watch)
        (W.places run.old.watch) (W.places run.new.watch) W.judge (variables_run place turns more iteration) }
    ensures ticks { ticks_of run.new.run ≡ ticks_of run.old.run }
{
    match more {
        None => set_variable(run, place, turns, iteration),
        Some((inner_place, inner)) => {
            set_variable(run, place, turns, iteration / inner.count);
            set_variable(run, inner_place, inner, iteration % inner.count);
        }
    }
}

fn add_bound(bounds: &mut Items<i64>, bound: i32) -> Result<(), Memory>
    ensures { OnOk result (bounds.new ≡ bounds.old ++ bound ∷ []) }
{
    bounds.push(i64::from(bound))?;
    Ok(())
}

fn add_bounds(bounds: &mut Items<i64>, turns: IterationCount) -> Result<(), Memory>
    requires numbers { HasNumbers turns }
    ensures { OnOk result (bounds.new ≡ bounds.old ++ bounds_of turns) }
{
    add_bound(bounds, turns.first)?;
    add_bound(bounds, turns.last)?;
    add_bound(bounds, turns.step)?;
    Ok(())
}

fn add_further(bounds: &mut Items<i64>, more: Further) -> Result<(), Memory>
    requires numbers { FurtherHasNumbers more }
    ensures { OnOk result (bounds.new ≡ bounds.old ++ further_bounds more) }
{
    match more {
        None => Ok(()),
        Some((_, turns)) => add_bounds(bounds, turns),
    }
}

/// The bounds of one loop, or of two that are collapsed.
fn all_bounds(alloc: Global, turns: IterationCount, more: Further) -> Result<Items<i64>, Memory>
    requires outer { HasNumbers turns }
    requires inner { FurtherHasNumbers more }
    ensures { IfOk result (λ bounds. bounds ≡ bounds_of turns ++ further_bounds more) }
{
    let mut bounds = Items::new(alloc);
    add_bounds(&mut bounds, turns)?;
    add_further(&mut bounds, more)?;
    Ok(bounds)
}

/// The iterations of a parallel loop come.
pub(crate) fn enter<W: Watch>(run: &mut Forward<W>, line: u32, turns: IterationCount, more: Further)
    requires outer { HasNumbers turns }
    requires inner { FurtherHasNumbers more }
    ensures left { Leaves run.old.run run.new.run (W.stands_for run.old.watch) (W.stands_for run.new.watch)
        (W.places run.old.watch) (W.places run.new.watch) W.judge (entered line (bounds_of turns ++ further_bounds more) []) }
    ensures ticks { ticks_of run.new.run ≡ ticks_of run.old.run }
{
    match all_bounds(run.alloc, turns, more) {
        Ok(bounds) => {
            let outer = Items::new(run.alloc);
            run.enter(line, bounds, outer);
        }
        Err(_) => run.lose(),
    }
}
