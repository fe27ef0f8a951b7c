ghost use Rattle.std.specs.Prelude.{◌≡◌, ◌≢◌, true, Some, length, pos, neg_ℤ, ◌+ℤ◌, ◌*ℤ◌, ◌≤ℤ◌, ◌^◌, int_div, IfOk};
ghost use Rattle.ring_core.specs.Index.{IsIndex};
ghost use Rattle.store_core.specs.Bounds.{clipped};
ghost use Rattle.meaning.specs.Statements.{turns_by, turns_of as turns_of_lem, step_value, set_at};
ghost use Rattle.resolved.specs.SlotTables.{table_site};
ghost use Rattle.resolved.specs.ResolvedExprs.{expression_back, is_within};
ghost use Rattle.resolved.specs.ResolvedStmts.{option_back, is_option_within};
ghost use Rattle.dual_evaluation.specs.Answers.{Answers};
ghost use Rattle.dual_evaluation.specs.Assignments.{IsCounted};
ghost use Rattle.meaning.specs.declared.value.Value.TheVariants.{Index as index_value};

use crate::assignment::set;
use crate::evaluator::evaluate;
use crate::stop::{EvalStop, Halt};
use meaning::{IterationCount, Value};
use resolved::{ResolvedExpr, ResolvedHead, SlotTable};
use ring_core::Index;
use std::alloc::Global;

/// How many steps go into a distance, none where they lead away from it.
#[tactic(auto, using(crate::proofs::Counts::counts))]
pub fn turn_count(distance: i64, step: i64) -> u64
    requires { step ≢ pos 0 }
    ensures { result ≡ clipped (int_div distance step) }
{
    if step < 0 {
        if distance < 0 {
            distance.unsigned_abs() / step.unsigned_abs()
        } else {
            0
        }
    } else {
        if distance < 0 {
            0
        } else {
            distance.unsigned_abs() / step.unsigned_abs()
        }
    }
}

/// How often a loop with these bounds runs.
fn turns_between(
    table: &SlotTable,
    first: i32,
    last: i32,
    step: i32,
) -> Result<IterationCount, EvalStop>
    ensures value { Answers table.now.0 result (turns_by first last step).out }
    ensures counted { IfOk result IsCounted }
{
    if step == 0 {
        return Err(EvalStop::Trap(Halt::ZeroDivisor));
    }
    let distance = i64::from(last) - i64::from(first) + i64::from(step);
    let count = turn_count(distance, i64::from(step));
    Ok(IterationCount {
        first,
        last,
        step,
        count,
    })
}

fn step_of(
    alloc: Global,
    table: &SlotTable,
    cells: &[Option<Value>],
    step: &Option<ResolvedExpr>,
) -> Result<Value, EvalStop>
    requires { is_option_within (length table.now.0) step.now ≡ true }
    ensures { Answers table.now.0 result (step_value (option_back table.now.0 step.now) (table_site table.now) cells.now).out }
{
    match step {
        None => Ok(Value::Index(Index::of(1))),
        Some(step) => evaluate(alloc, table, cells, step),
    }
}

/// The turns of a loop.
pub fn turns_of(
    alloc: Global,
    table: &SlotTable,
    cells: &[Option<Value>],
    head: &ResolvedHead,
) -> Result<IterationCount, EvalStop>
    requires first { is_within (length table.now.0) head.now.first ≡ true }
    requires last { is_within (length table.now.0) head.now.last ≡ true }
    requires step { is_option_within (length table.now.0) head.now.step ≡ true }
    ensures value { Answers table.now.0 result (turns_of_lem (expression_back table.now.0 head.now.first) (expression_back table.now.0 head.now.last)
        (option_back table.now.0 head.now.step) (table_site table.now) cells.now).out }
    ensures counted { IfOk result IsCounted }
{
    let first = evaluate(alloc, table, cells, &head.first)?;
    let last = evaluate(alloc, table, cells, &head.last)?;
    let step = step_of(alloc, table, cells, &head.step)?;
    Ok(turns_between(
        table,
        first.whole_number(),
        last.whole_number(),
        step.whole_number(),
    )?)
}

fn product(turn: i128, step: i128) -> i128
    requires turn_low { pos 0 ≤ℤ turn }
    requires turn_high { turn ≤ℤ pos (2 ^ 64) }
    requires step_low { neg_ℤ (pos (2 ^ 31)) ≤ℤ step }
    requires step_high { step ≤ℤ pos (2 ^ 31) }
    ensures value { result ≡ turn *ℤ step }
    ensures low { neg_ℤ (pos (2 ^ 95)) ≤ℤ result }
    ensures high { result ≤ℤ pos (2 ^ 95) }
{
    turn * step
}

#[tactic(auto, using(crate::proofs::Counts::from_range))]
fn narrow(value: i128) -> i32
    requires { IsIndex value }
    ensures { result ≡ value }
{
    value as i32
}

/// The value of a loop's variable in a turn, from 0.
pub fn value_in(first: i32, step: i32, turn: u64) -> i32
    requires { IsIndex (first +ℤ (pos turn *ℤ step)) }
    ensures { result ≡ first +ℤ (pos turn *ℤ step) }
{
    narrow(i128::from(first) + product(i128::from(turn), i128::from(step)))
}

/// Sets a loop's variable for a turn, where it has a place.
pub fn begin_turn(
    cells: &mut Vec<Option<Value>>,
    place: Option<u32>,
    first: i32,
    step: i32,
    turn: u64,
)
    requires { IsIndex (first +ℤ (pos turn *ℤ step)) }
    ensures { cells.new.items ≡ set_at place (Some (index_value (first +ℤ (pos turn *ℤ step)))) cells.old.items }
{
    if let Some(place) = place {
        set(
            cells,
            place,
            Value::Index(Index::of(value_in(first, step, turn))),
        );
    }
}
