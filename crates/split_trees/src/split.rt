ghost use Rattle.std.specs.Prelude.{◌≡◌, ◌<◌, true, ◌&&◌, [], length, is_some, IfOk};
ghost use Rattle.fl_ast.specs.Tree.{Expression, call as call_tree, relation as relation_tree, Expressions, no_expressions};
ghost use Rattle.fl_types.specs.Increment.{target_of};
ghost use Rattle.fl_types.specs.Kinds.{is_index_expression, is_well_kinded_condition};
ghost use Rattle.meaning.specs.Sites.{place_of};
ghost use Rattle.meaning.specs.Fitting.{names_at};
ghost use Rattle.resolved.specs.SlotTables.{Names, table_site};
ghost use Rattle.resolved.specs.ResolvedExprs.{slot_name, expression_back, expressions_back, place_back, condition_back, is_within, are_within, is_place_within, is_condition_within};
ghost use Rattle.sweep_trees.specs.Split.{spot_tree, index_tree, index_trees, ring_tree, test_tree};
ghost use Rattle.sweep_trees.specs.Standing.{one, is_accessed_at};
ghost use Rattle.split_trees.specs.Codes.{code_tree, is_kinded, are_index_expressions, StandsFor, SpotStandsFor, IndexStandsFor, IndicesStandFor, RingStandsFor, TestStandsFor};

use crate::code::Code;
use crate::nodes::{absolute, as_ring, binary, content, literal, negated, of_two, power, relation};
use fl_ast::{Fun, Memory, RelOp};
use fl_base::{Boxed, Items};
use resolved::{ResolvedCond, ResolvedExpr, ResolvedPlace, SlotTable};
use std::alloc::Global;
use sweep_trees::{IndexCode, RingCode, Spot, TestCode};

/// Whether a slot is marked, as one whose name makes accesses is.
pub fn is_marked(marks: &[bool], slot: usize) -> bool
    ensures { result ≡ is_accessed_at marks.now slot }
{
    match marks.get(slot) {
        Some(flag) => *flag,
        None => false,
    }
}

/// The expression split by kind: of the kind that it has.
#[cycle(split)]
pub fn split_expression(
    alloc: Global,
    table: &SlotTable,
    accessed: &[bool],
    expr: &ResolvedExpr,
) -> Result<Code, Memory>
    requires within { is_within (length table.now.0) expr.now ≡ true }
    requires kinded { is_kinded table.now (expression_back table.now.0 expr.now) ≡ true }
    ensures { IfOk result (λ code. StandsFor table.now accessed.now (expression_back table.now.0 expr.now) (code_tree code)) }
{
    match expr {
        ResolvedExpr::Lit { word, kind } => literal(alloc, *word, *kind),
        ResolvedExpr::Get(occurrence) => split_occurrence(alloc, table, accessed, occurrence),
        ResolvedExpr::Neg(inner) => {
            let inner = split_expression(alloc, table, accessed, inner.get())?;
            negated(alloc, inner)
        }
        ResolvedExpr::Bin { op, left, right } => {
            let left = split_expression(alloc, table, accessed, left.get())?;
            let right = split_expression(alloc, table, accessed, right.get())?;
            binary(alloc, *op, left, right)
        }
        ResolvedExpr::Pow { base, exponent } => {
            let base = split_expression(alloc, table, accessed, base.get())?;
            power(alloc, base, *exponent)
        }
        ResolvedExpr::Call { fun, args } => {
            split_call(alloc, table, accessed, *fun, args.as_slice())
        }
    }
}

#[cycle(split)]
fn split_occurrence(
    alloc: Global,
    table: &SlotTable,
    accessed: &[bool],
    occurrence: &ResolvedPlace,
) -> Result<Code, Memory>
    requires within { is_place_within (length table.now.0) occurrence.now ≡ true }
    requires kinded { is_kinded table.now (target_of (place_back table.now.0 occurrence.now)) ≡ true }
    ensures { IfOk result (λ code. StandsFor table.now accessed.now (target_of (place_back table.now.0 occurrence.now)) (code_tree code)) }
{
    let spot = split_place(alloc, table, accessed, occurrence)?;
    let kind = table.kind(occurrence.slot);
    content(alloc, kind, spot)
}

#[cycle(split)]
fn split_call(
    alloc: Global,
    table: &SlotTable,
    accessed: &[bool],
    fun: Fun,
    args: &[ResolvedExpr],
) -> Result<Code, Memory>
    requires within { are_within (length table.now.0) args.now ≡ true }
    requires kinded { is_kinded table.now (call_tree fun (expressions_back table.now.0 args.now)) ≡ true }
    ensures { IfOk result (λ code. StandsFor table.now accessed.now (call_tree fun (expressions_back table.now.0 args.now)) (code_tree code)) }
{
    match args {
        [] => unreachable!(),
        [only] => {
            let only = split_expression(alloc, table, accessed, only)?;
            absolute(alloc, only)
        }
        [left, right] => {
            let left = split_expression(alloc, table, accessed, left)?;
            let right = split_expression(alloc, table, accessed, right)?;
            of_two(alloc, fun, left, right)
        }
        [_, _, _, ..] => unreachable!(),
    }
}

/// A scalar at its place.
fn scalar(table: &SlotTable, accessed: &[bool], slot: usize) -> Spot
    requires within { slot < length table.now.0 }
    requires placed { is_some (place_of (table_site table.now) (slot_name table.now.0 slot) []) ≡ true }
    ensures { SpotStandsFor table.now accessed.now slot (record { name = slot_name table.now.0 slot; subscripts = no_expressions }) (spot_tree result) }
{
    match table.layout().place_in(slot, &[]) {
        Some(place) => Spot::Scalar {
            slot,
            place,
            accessed: is_marked(accessed, slot),
        },
        None => unreachable!(),
    }
}

fn element(accessed: &[bool], slot: usize, subscript: Boxed<IndexCode>) -> Spot
    ensures { (names : Names) → (e : Expression) → slot < length names.0 → IndexStandsFor names accessed.now e (index_tree subscript)
        → SpotStandsFor names accessed.now slot (record { name = slot_name names.0 slot; subscripts = one e }) (spot_tree result) }
{
    Spot::Element {
        slot,
        accessed: is_marked(accessed, slot),
        subscript,
    }
}

fn elements(accessed: &[bool], slot: usize, subscripts: Items<IndexCode>) -> Spot
    ensures { (names : Names) → (es : Expressions) → slot < length names.0 → IndicesStandFor names accessed.now es (index_trees subscripts)
        → SpotStandsFor names accessed.now slot (record { name = slot_name names.0 slot; subscripts = es }) (spot_tree result) }
{
    Spot::Elements {
        slot,
        accessed: is_marked(accessed, slot),
        subscripts,
    }
}

/// The occurrence of a name with its subscripts split.
#[cycle(split)]
pub fn split_place(
    alloc: Global,
    table: &SlotTable,
    accessed: &[bool],
    occurrence: &ResolvedPlace,
) -> Result<Spot, Memory>
    requires within { is_place_within (length table.now.0) occurrence.now ≡ true }
    requires kinded { is_kinded table.now (target_of (place_back table.now.0 occurrence.now)) ≡ true }
    ensures { IfOk result (λ spot. SpotStandsFor table.now accessed.now occurrence.now.slot (place_back table.now.0 occurrence.now) (spot_tree spot)) }
{
    let slot = occurrence.slot;
    match occurrence.subscripts.as_slice() {
        [] => Ok(scalar(table, accessed, slot)),
        [only] => {
            let subscript = split_index(alloc, table, accessed, only)?;
            Ok(element(accessed, slot, subscript))
        }
        subscripts => {
            let subscripts = split_subscripts(alloc, table, accessed, subscripts)?;
            Ok(elements(accessed, slot, subscripts))
        }
    }
}

/// An expression of the index kind.
#[cycle(split)]
pub fn split_index(
    alloc: Global,
    table: &SlotTable,
    accessed: &[bool],
    expr: &ResolvedExpr,
) -> Result<Boxed<IndexCode>, Memory>
    requires within { is_within (length table.now.0) expr.now ≡ true }
    requires kinded { is_index_expression (names_at (table_site table.now)) (expression_back table.now.0 expr.now) ≡ true }
    ensures { IfOk result (λ code. IndexStandsFor table.now accessed.now (expression_back table.now.0 expr.now) (index_tree code)) }
{
    match split_expression(alloc, table, accessed, expr)? {
        Code::Index(code) => Ok(code),
        Code::Ring(_) => unreachable!(),
    }
}

#[cycle(split)]
fn split_subscripts(
    alloc: Global,
    table: &SlotTable,
    accessed: &[bool],
    exprs: &[ResolvedExpr],
) -> Result<Items<IndexCode>, Memory>
    requires within { are_within (length table.now.0) exprs.now ≡ true }
    requires kinded { are_index_expressions table.now (expressions_back table.now.0 exprs.now) ≡ true }
    ensures { IfOk result (λ codes. IndicesStandFor table.now accessed.now (expressions_back table.now.0 exprs.now) (index_trees codes)) }
{
    let mut all = Items::new(alloc);
    for expr in exprs {
        let code = split_index(alloc, table, accessed, expr)?;
        all.push(code.into_inner())?;
    }
    Ok(all)
}

/// The expression as one of the ring kind: widened where it is of the index kind.
pub fn split_ring(
    alloc: Global,
    table: &SlotTable,
    accessed: &[bool],
    expr: &ResolvedExpr,
) -> Result<Boxed<RingCode>, Memory>
    requires within { is_within (length table.now.0) expr.now ≡ true }
    requires kinded { is_kinded table.now (expression_back table.now.0 expr.now) ≡ true }
    ensures { IfOk result (λ code. RingStandsFor table.now accessed.now (expression_back table.now.0 expr.now) (ring_tree code)) }
{
    let code = split_expression(alloc, table, accessed, expr)?;
    Boxed::new(alloc, as_ring(code))
}

fn split_relation(
    alloc: Global,
    table: &SlotTable,
    accessed: &[bool],
    op: RelOp,
    left: &ResolvedExpr,
    right: &ResolvedExpr,
) -> Result<Boxed<TestCode>, Memory>
    requires left_within { is_within (length table.now.0) left.now ≡ true }
    requires right_within { is_within (length table.now.0) right.now ≡ true }
    requires left_kinded { is_kinded table.now (expression_back table.now.0 left.now) ≡ true }
    requires right_kinded { is_kinded table.now (expression_back table.now.0 right.now) ≡ true }
    ensures { IfOk result (λ test. TestStandsFor table.now accessed.now
        (relation_tree op (expression_back table.now.0 left.now) (expression_back table.now.0 right.now)) (test_tree test)) }
{
    let left = split_expression(alloc, table, accessed, left)?;
    let right = split_expression(alloc, table, accessed, right)?;
    relation(alloc, op, left, right)
}

/// The condition split by the kinds of what it compares.
pub fn split_condition(
    alloc: Global,
    table: &SlotTable,
    accessed: &[bool],
    cond: &ResolvedCond,
) -> Result<Boxed<TestCode>, Memory>
    requires within { is_condition_within (length table.now.0) cond.now ≡ true }
    requires kinded { is_well_kinded_condition (names_at (table_site table.now)) (condition_back table.now.0 cond.now) ≡ true }
    ensures { IfOk result (λ test. TestStandsFor table.now accessed.now (condition_back table.now.0 cond.now) (test_tree test)) }
{
    match cond {
        ResolvedCond::Rel { op, left, right } => {
            split_relation(alloc, table, accessed, *op, left, right)
        }
        ResolvedCond::Not(inner) => {
            let inner = split_condition(alloc, table, accessed, inner.get())?;
            Boxed::new(alloc, TestCode::Not(inner))
        }
        ResolvedCond::And(left, right) => {
            let left = split_condition(alloc, table, accessed, left.get())?;
            let right = split_condition(alloc, table, accessed, right.get())?;
            Boxed::new(alloc, TestCode::And(left, right))
        }
        ResolvedCond::Or(left, right) => {
            let left = split_condition(alloc, table, accessed, left.get())?;
            let right = split_condition(alloc, table, accessed, right.get())?;
            Boxed::new(alloc, TestCode::Or(left, right))
        }
    }
}
