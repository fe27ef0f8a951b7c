ghost use Rattle.std.specs.Prelude.{◌≡◌, true, Some, None, length, slice_set};
ghost use Rattle.fl_types.specs.declared.increment.IncrementForm.TheVariants.{Chain, Sum};
ghost use Rattle.meaning.specs.Expressions.{value_of};
ghost use Rattle.resolved.specs.SlotTables.{table_site};
ghost use Rattle.resolved.specs.ResolvedExprs.{expression_back, place_back, is_within, is_place_within};
ghost use Rattle.dual_evaluation.specs.Answers.{Answers, Sets};
ghost use Rattle.dual_evaluation.specs.Assignments.{put_by, increment_by, chain_sum, sum_with as sum_with_lem, front as front_lem, by_form};

use crate::evaluator::{cell, evaluate, locate};
use crate::stop::{EvalStop, Halt};
use fl_ast::BinOp;
use fl_types::IncrementForm;
use meaning::{Dual, Value};
use resolved::{ResolvedExpr, ResolvedPlace, SlotTable};
use ring_core::Ring;
use std::alloc::Global;

/// Sets a cell, where there is one at the place.
pub(crate) fn set(cells: &mut Vec<Option<Value>>, place: u32, value: Value)
    ensures { cells.new.items ≡ slice_set cells.old.items place (Some value) }
{
    if (place as usize) < cells.len() {
        cells[place as usize] = Some(value);
    }
}

/// Sets a place to a value, converted to the kind of its name.
fn put(
    alloc: Global,
    table: &SlotTable,
    cells: &mut Vec<Option<Value>>,
    target: &ResolvedPlace,
    value: Value,
) -> Result<(), EvalStop>
    requires { is_place_within (length table.now.0) target.now ≡ true }
    ensures { Sets table.now.0 result cells.new.items
        (put_by (table_site table.now) cells.old.items (place_back table.now.0 target.now) value).out }
{
    match locate(alloc, table, cells, target)? {
        None => Err(EvalStop::Trap(Halt::Bounds { slot: target.slot })),
        Some(place) => {
            set(cells, place, value.as_kind(table.kind(target.slot)));
            Ok(())
        }
    }
}

/// Adds to a place, which has to be set.
fn increment_place(
    alloc: Global,
    table: &SlotTable,
    cells: &mut Vec<Option<Value>>,
    target: &ResolvedPlace,
    more: Dual,
) -> Result<(), EvalStop>
    requires { is_place_within (length table.now.0) target.now ≡ true }
    ensures { Sets table.now.0 result cells.new.items
        (increment_by (table_site table.now) cells.old.items (place_back table.now.0 target.now) more).out }
{
    match locate(alloc, table, cells, target)? {
        None => Err(EvalStop::Trap(Halt::Bounds { slot: target.slot })),
        Some(place) => match cell(cells, place) {
            None => Err(EvalStop::Trap(Halt::Unset { slot: target.slot })),
            Some(value) => {
                set(cells, place, Value::Ring(value.as_dual().add(more)));
                Ok(())
            }
        },
    }
}

fn sum_with(op: BinOp, sum: Dual, term: Dual) -> Dual
    ensures { result ≡ sum_with_lem op sum term }
{
    match op {
        BinOp::Sub => sum.sub(term),
        _ => sum.add(term),
    }
}

/// The sum of a chain's terms after its first operand.
fn sum_of_chain(
    alloc: Global,
    table: &SlotTable,
    cells: &[Option<Value>],
    value: &ResolvedExpr,
) -> Result<Dual, EvalStop>
    requires { is_within (length table.now.0) value.now ≡ true }
    ensures { Answers table.now.0 result (chain_sum (expression_back table.now.0 value.now) (table_site table.now) cells.now).out }
{
    match value {
        ResolvedExpr::Bin { op, left, right } => {
            let sum = sum_of_chain(alloc, table, cells, left.get())?;
            let term = evaluate(alloc, table, cells, right.get())?;
            Ok(sum_with(*op, sum, term.as_dual()))
        }
        _ => Ok(Dual::constant(Ring::of_word(0))),
    }
}

/// The value of an operation's first operand.
fn front(
    alloc: Global,
    table: &SlotTable,
    cells: &[Option<Value>],
    value: &ResolvedExpr,
) -> Result<Value, EvalStop>
    requires { is_within (length table.now.0) value.now ≡ true }
    ensures { Answers table.now.0 result (value_of (front_lem (expression_back table.now.0 value.now)) (table_site table.now) cells.now).out }
{
    match value {
        ResolvedExpr::Bin { left, .. } => evaluate(alloc, table, cells, left.get()),
        _ => evaluate(alloc, table, cells, value),
    }
}

/// Stores an expression's value.
fn store_value(
    alloc: Global,
    table: &SlotTable,
    cells: &mut Vec<Option<Value>>,
    target: &ResolvedPlace,
    value: &ResolvedExpr,
) -> Result<(), EvalStop>
    requires target { is_place_within (length table.now.0) target.now ≡ true }
    requires value { is_within (length table.now.0) value.now ≡ true }
    ensures { Sets table.now.0 result cells.new.items
        (by_form None (table_site table.now) cells.old.items (place_back table.now.0 target.now) (expression_back table.now.0 value.now)).out }
{
    let value = evaluate(alloc, table, cells, value)?;
    put(alloc, table, cells, target, value)
}

/// Adds a chain's terms after its first operand to the target.
fn add_chain(
    alloc: Global,
    table: &SlotTable,
    cells: &mut Vec<Option<Value>>,
    target: &ResolvedPlace,
    value: &ResolvedExpr,
) -> Result<(), EvalStop>
    requires target { is_place_within (length table.now.0) target.now ≡ true }
    requires value { is_within (length table.now.0) value.now ≡ true }
    ensures { Sets table.now.0 result cells.new.items
        (by_form (Some Chain) (table_site table.now) cells.old.items (place_back table.now.0 target.now) (expression_back table.now.0 value.now)).out }
{
    let more = sum_of_chain(alloc, table, cells, value)?;
    increment_place(alloc, table, cells, target, more)
}

/// Adds an operation's first operand to the target.
fn add_front(
    alloc: Global,
    table: &SlotTable,
    cells: &mut Vec<Option<Value>>,
    target: &ResolvedPlace,
    value: &ResolvedExpr,
) -> Result<(), EvalStop>
    requires target { is_place_within (length table.now.0) target.now ≡ true }
    requires value { is_within (length table.now.0) value.now ≡ true }
    ensures { Sets table.now.0 result cells.new.items
        (by_form (Some Sum) (table_site table.now) cells.old.items (place_back table.now.0 target.now) (expression_back table.now.0 value.now)).out }
{
    let more = front(alloc, table, cells, value)?;
    increment_place(alloc, table, cells, target, more.as_dual())
}

/// Runs an assignment, by its form where it is an increment. A call clears all locals of its function, so each form has
/// a function of its own.
pub fn assign(
    alloc: Global,
    table: &SlotTable,
    cells: &mut Vec<Option<Value>>,
    target: &ResolvedPlace,
    value: &ResolvedExpr,
    form: Option<IncrementForm>,
) -> Result<(), EvalStop>
    requires target { is_place_within (length table.now.0) target.now ≡ true }
    requires value { is_within (length table.now.0) value.now ≡ true }
    ensures { Sets table.now.0 result cells.new.items
        (by_form form (table_site table.now) cells.old.items (place_back table.now.0 target.now) (expression_back table.now.0 value.now)).out }
{
    match form {
        None => store_value(alloc, table, cells, target, value),
        Some(IncrementForm::Chain) => add_chain(alloc, table, cells, target, value),
        Some(IncrementForm::Sum) => add_front(alloc, table, cells, target, value),
    }
}
