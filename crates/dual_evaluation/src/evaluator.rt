ghost use Rattle.std.specs.Prelude.{◌≡◌, true, length};
ghost use Rattle.fl_ast.specs.Tree.{minus, power as power_tree, call as call_tree};
ghost use Rattle.meaning.specs.Values.{literal_value, binary_result};
ghost use Rattle.meaning.specs.Expressions.{value_of, values_of, content, read_place, holds as holds_lem};
ghost use Rattle.resolved.specs.SlotTables.{table_site};
ghost use Rattle.resolved.specs.ResolvedExprs.{expression_back, expressions_back, place_back, condition_back, slot_name, is_within, are_within, is_place_within, is_condition_within};
ghost use Rattle.dual_evaluation.specs.Answers.{Answers, AnswersBy, numbers_of, location_of, read_occurrence};

use crate::stop::{EvalStop, Halt, found};
use fl_ast::{BinOp, Fun, Kind};
use fl_base::Items;
use meaning::{Value, binary, intrinsic, literal, relates};
use resolved::{ResolvedCond, ResolvedExpr, ResolvedPlace, SlotTable};
use smallvec::SmallVec;
use std::alloc::Global;

/// The value of an expression outside of parallel loops, over the cells of a table. A call clears all
/// locals of its function, so what has no operands, as most expressions, doesn't go through the recursion.
#[cycle(evaluate)]
#[inline(always)]
pub fn evaluate(
    alloc: Global,
    table: &SlotTable,
    cells: &[Option<Value>],
    expr: &ResolvedExpr,
) -> Result<Value, EvalStop>
    requires { is_within (length table.now.0) expr.now ≡ true }
    ensures { Answers table.now.0 result (value_of (expression_back table.now.0 expr.now) (table_site table.now) cells.now).out }
{
    match expr {
        ResolvedExpr::Lit { word, kind } => constant(table, *word, *kind),
        ResolvedExpr::Get(occurrence) => content_of(alloc, table, cells, occurrence),
        _ => evaluate_form(alloc, table, cells, expr),
    }
}

/// The same, whatever the expression's form. Most forms have functions of their own; both operands of an operation stay
/// here, where they are parts of one expression.
#[cycle(evaluate)]
fn evaluate_form(
    alloc: Global,
    table: &SlotTable,
    cells: &[Option<Value>],
    expr: &ResolvedExpr,
) -> Result<Value, EvalStop>
    requires { is_within (length table.now.0) expr.now ≡ true }
    ensures { Answers table.now.0 result (value_of (expression_back table.now.0 expr.now) (table_site table.now) cells.now).out }
{
    match expr {
        ResolvedExpr::Lit { word, kind } => constant(table, *word, *kind),
        ResolvedExpr::Get(occurrence) => content_of(alloc, table, cells, occurrence),
        ResolvedExpr::Neg(inner) => negation(alloc, table, cells, inner.get()),
        ResolvedExpr::Bin { op, left, right } => {
            let first = evaluate(alloc, table, cells, left.get())?;
            let second = evaluate(alloc, table, cells, right.get())?;
            operation(table, *op, first, second)
        }
        ResolvedExpr::Pow { base, exponent } => power(alloc, table, cells, base.get(), *exponent),
        ResolvedExpr::Call { fun, args } => call(alloc, table, cells, *fun, args.as_slice()),
    }
}

#[tactic(auto, using(crate::proofs::Numeric::numeric))]
fn constant(table: &SlotTable, word: u64, kind: Kind) -> Result<Value, EvalStop>
    ensures { Answers table.now.0 result (literal_value word kind) }
{
    found(table, literal(word, kind))
}

#[cycle(evaluate)]
fn content_of(
    alloc: Global,
    table: &SlotTable,
    cells: &[Option<Value>],
    occurrence: &ResolvedPlace,
) -> Result<Value, EvalStop>
    requires { is_place_within (length table.now.0) occurrence.now ≡ true }
    ensures { Answers table.now.0 result (read_occurrence (table_site table.now) cells.now (place_back table.now.0 occurrence.now)).out }
{
    let place = locate(alloc, table, cells, occurrence)?;
    read(table, cells, occurrence.slot, place)
}

#[cycle(evaluate)]
#[tactic(auto, using(crate::proofs::Numeric::numeric))]
fn negation(
    alloc: Global,
    table: &SlotTable,
    cells: &[Option<Value>],
    inner: &ResolvedExpr,
) -> Result<Value, EvalStop>
    requires { is_within (length table.now.0) inner.now ≡ true }
    ensures { Answers table.now.0 result (value_of (minus (expression_back table.now.0 inner.now)) (table_site table.now) cells.now).out }
{
    let value = evaluate(alloc, table, cells, inner)?;
    found(table, value.neg())
}

#[tactic(auto, using(crate::proofs::Numeric::numeric))]
fn operation(table: &SlotTable, op: BinOp, first: Value, second: Value) -> Result<Value, EvalStop>
    ensures { Answers table.now.0 result (binary_result op first second) }
{
    found(table, binary(op, first, second))
}

#[cycle(evaluate)]
#[tactic(auto, using(crate::proofs::Numeric::numeric))]
fn power(
    alloc: Global,
    table: &SlotTable,
    cells: &[Option<Value>],
    base: &ResolvedExpr,
    exponent: u32,
) -> Result<Value, EvalStop>
    requires { is_within (length table.now.0) base.now ≡ true }
    ensures { Answers table.now.0 result (value_of (power_tree (expression_back table.now.0 base.now) exponent) (table_site table.now) cells.now).out }
{
    let value = evaluate(alloc, table, cells, base)?;
    found(table, value.pow(exponent))
}

#[cycle(evaluate)]
#[tactic(auto, using(crate::proofs::Numeric::numeric))]
fn call(
    alloc: Global,
    table: &SlotTable,
    cells: &[Option<Value>],
    fun: Fun,
    args: &[ResolvedExpr],
) -> Result<Value, EvalStop>
    requires { are_within (length table.now.0) args.now ≡ true }
    ensures { Answers table.now.0 result (value_of (call_tree fun (expressions_back table.now.0 args.now)) (table_site table.now) cells.now).out }
{
    match args {
        [only] => {
            let value = evaluate(alloc, table, cells, only)?;
            found(table, intrinsic(table.width(), fun, &[value]))
        }
        [left, right] => {
            let first = evaluate(alloc, table, cells, left)?;
            let second = evaluate(alloc, table, cells, right)?;
            found(table, intrinsic(table.width(), fun, &[first, second]))
        }
        others => {
            let values = evaluate_all(alloc, table, cells, others)?;
            found(table, intrinsic(table.width(), fun, values.as_slice()))
        }
    }
}

#[cycle(evaluate)]
fn evaluate_all(
    alloc: Global,
    table: &SlotTable,
    cells: &[Option<Value>],
    exprs: &[ResolvedExpr],
) -> Result<Items<Value>, EvalStop>
    requires { are_within (length table.now.0) exprs.now ≡ true }
    ensures { Answers table.now.0 result (values_of (expressions_back table.now.0 exprs.now) (table_site table.now) cells.now).out }
{
    let mut all = Items::new(alloc);
    for expr in exprs {
        let value = evaluate(alloc, table, cells, expr)?;
        all.push(value)?;
    }
    Ok(all)
}

/// The numbers of subscripts. They take no memory, since an array has seven axes at most.
#[cycle(evaluate)]
fn evaluate_subscripts(
    alloc: Global,
    table: &SlotTable,
    cells: &[Option<Value>],
    exprs: &[ResolvedExpr],
) -> Result<SmallVec<i64, 7>, EvalStop>
    requires { are_within (length table.now.0) exprs.now ≡ true }
    ensures { AnswersBy (λ numbers. numbers.items) table.now.0 result
        (numbers_of (values_of (expressions_back table.now.0 exprs.now) (table_site table.now) cells.now).out) }
{
    let mut numbers = SmallVec::new(alloc);
    for expr in exprs {
        let value = evaluate(alloc, table, cells, expr)?;
        numbers.push(i64::from(value.whole_number()))?;
    }
    Ok(numbers)
}

/// The place of an occurrence of a name, `None` outside its bounds. Scalars and elements of one subscript have ways of
/// their own, as most occurrences are such.
#[cycle(evaluate)]
pub(crate) fn locate(
    alloc: Global,
    table: &SlotTable,
    cells: &[Option<Value>],
    occurrence: &ResolvedPlace,
) -> Result<Option<u32>, EvalStop>
    requires { is_place_within (length table.now.0) occurrence.now ≡ true }
    ensures { Answers table.now.0 result (location_of (table_site table.now) cells.now (place_back table.now.0 occurrence.now)).out }
{
    match occurrence.subscripts.as_slice() {
        [] => Ok(table.layout().place_in(occurrence.slot, &[])),
        [only] => {
            let value = evaluate(alloc, table, cells, only)?;
            let number = i64::from(value.whole_number());
            Ok(table.layout().place_in(occurrence.slot, &[number]))
        }
        _ => locate_element(alloc, table, cells, occurrence),
    }
}

/// The same, however many subscripts there are.
#[cycle(evaluate)]
fn locate_element(
    alloc: Global,
    table: &SlotTable,
    cells: &[Option<Value>],
    occurrence: &ResolvedPlace,
) -> Result<Option<u32>, EvalStop>
    requires { is_place_within (length table.now.0) occurrence.now ≡ true }
    ensures { Answers table.now.0 result (location_of (table_site table.now) cells.now (place_back table.now.0 occurrence.now)).out }
{
    let numbers = evaluate_subscripts(alloc, table, cells, occurrence.subscripts.as_slice())?;
    Ok(table.layout().place_in(occurrence.slot, numbers.as_slice()))
}

/// The value at a place of the name of a slot.
fn read(
    table: &SlotTable,
    cells: &[Option<Value>],
    slot: usize,
    place: Option<u32>,
) -> Result<Value, EvalStop>
    ensures { Answers table.now.0 result (read_place (table_site table.now) cells.now (slot_name table.now.0 slot) place).out }
{
    match place {
        None => Err(EvalStop::Trap(Halt::Bounds { slot })),
        Some(place) => match cell(cells, place) {
            Some(value) => Ok(value),
            None => Err(EvalStop::Trap(Halt::Unset { slot })),
        },
    }
}

/// The content of a place.
pub(crate) fn cell(cells: &[Option<Value>], place: u32) -> Option<Value>
    ensures { result ≡ content cells.now place }
{
    if (place as usize) < cells.len() {
        cells[place as usize]
    } else {
        None
    }
}

/// Whether a condition holds; both sides of `.and.` and `.or.` are evaluated.
pub fn holds(
    alloc: Global,
    table: &SlotTable,
    cells: &[Option<Value>],
    test: &ResolvedCond,
) -> Result<bool, EvalStop>
    requires { is_condition_within (length table.now.0) test.now ≡ true }
    ensures { Answers table.now.0 result (holds_lem (condition_back table.now.0 test.now) (table_site table.now) cells.now).out }
{
    match test {
        ResolvedCond::Rel { op, left, right } => {
            let first = evaluate(alloc, table, cells, left)?;
            let second = evaluate(alloc, table, cells, right)?;
            Ok(relates(table.width(), *op, first, second))
        }
        ResolvedCond::Not(inner) => {
            let inner = holds(alloc, table, cells, inner.get())?;
            Ok(!inner)
        }
        ResolvedCond::And(left, right) => {
            let first = holds(alloc, table, cells, left.get())?;
            let second = holds(alloc, table, cells, right.get())?;
            Ok(first && second)
        }
        ResolvedCond::Or(left, right) => {
            let first = holds(alloc, table, cells, left.get())?;
            let second = holds(alloc, table, cells, right.get())?;
            Ok(first || second)
        }
    }
}
