//! Factors, each split anew from the resolved expression that it comes from.

ghost use Rattle.std.specs.Prelude.{◌≡◌, ◌++◌, ◌∷◌, [], true, List, map, OnOk, IfOk};
ghost use Rattle.fl_ast.specs.declared.kind.Kind.TheVariants.{Ring as ring_kind};
ghost use Rattle.fl_ast.specs.declared.kind.RelOp.TheVariants.{Lt as less};
ghost use Rattle.fl_ast.specs.Tree.{Expression, literal, power as power_tree, relation as relation_tree};
ghost use Rattle.resolved.specs.SlotTables.{Names};
ghost use Rattle.resolved.specs.ResolvedExprs.{expression_back};
ghost use Rattle.sweep_trees.specs.Split.{ring_tree};
ghost use Rattle.sweep_trees.specs.Standing.{ring_back, is_ring_fit};
ghost use Rattle.split_trees.specs.Codes.{code_tree, StandsFor};
ghost use Rattle.transposition.specs.Spread.{Factor as FactorOf, operand, either, power_factors, minus_one};
ghost use Rattle.undo_steps.specs.UndoSteps.{factor_tree};
ghost use Rattle.undo_steps.specs.UndosStand.{unwatched};
ghost use Rattle.made_growths.specs.Factors.{FactorsStand, factors_at, is_ready, is_link_ready};

use crate::path::Link;
use crate::tests::{below_zero, relation};
use fl_ast::{Memory, RelOp};
use fl_base::{Boxed, Items};
use resolved::{ResolvedExpr, SlotTable};
use split_trees::{Code, split_expression, split_ring};
use std::alloc::Global;
use sweep_trees::{IndexCode, RingCode};
use undo_steps::Factor;

fn push_word(word: u64, factors: &mut Items<Factor>) -> Result<(), Memory>
    ensures { OnOk result ((names : Names) → (fs : List FactorOf) → FactorsStand names fs (map factor_tree factors.old)
        → FactorsStand names (fs ++ operand (literal word ring_kind) ∷ []) (map factor_tree factors.new)) }
{
    factors.push(Factor::Operand(RingCode::Word(word)))?;
    Ok(())
}

fn push_operand(
    alloc: Global,
    table: &SlotTable,
    expr: &ResolvedExpr,
    factors: &mut Items<Factor>,
) -> Result<(), Memory>
    requires ready { is_ready table.now expr.now ≡ true }
    ensures { OnOk result ((fs : List FactorOf) → FactorsStand table.now fs (map factor_tree factors.old)
        → FactorsStand table.now (fs ++ operand (expression_back table.now.0 expr.now) ∷ []) (map factor_tree factors.new)) }
{
    let value = split_ring(alloc, table, &[], expr)?;
    factors.push(Factor::Operand(value.into_inner()))?;
    Ok(())
}

fn power_of(alloc: Global, base: Code, exponent: u32) -> Result<Boxed<RingCode>, Memory>
    ensures back { (names : Names) → (e : Expression) → StandsFor names unwatched e (code_tree base)
        → IfOk result (λ code. ring_back names.0 (ring_tree code) ≡ power_tree e exponent) }
    ensures fit { (names : Names) → (e : Expression) → StandsFor names unwatched e (code_tree base)
        → IfOk result (λ code. is_ring_fit names unwatched (ring_tree code) ≡ true) }
{
    match base {
        Code::Ring(base) => Boxed::new(alloc, RingCode::Power { base, exponent }),
        Code::Index(base) => Boxed::new(
            alloc,
            RingCode::Widened(IndexCode::Power { base, exponent }),
        ),
    }
}

/// Adds a power.
fn push_power(
    alloc: Global,
    table: &SlotTable,
    base: &ResolvedExpr,
    exponent: u32,
    factors: &mut Items<Factor>,
) -> Result<(), Memory>
    requires ready { is_ready table.now base.now ≡ true }
    ensures { OnOk result ((fs : List FactorOf) → FactorsStand table.now fs (map factor_tree factors.old)
        → FactorsStand table.now (fs ++ operand (power_tree (expression_back table.now.0 base.now) exponent) ∷ []) (map factor_tree factors.new)) }
{
    let base = split_expression(alloc, table, &[], base)?;
    let value = power_of(alloc, base, exponent)?;
    factors.push(Factor::Operand(value.into_inner()))?;
    Ok(())
}

/// Adds the factors of a power's base.
fn push_power_factors(
    alloc: Global,
    table: &SlotTable,
    base: &ResolvedExpr,
    exponent: u32,
    factors: &mut Items<Factor>,
) -> Result<(), Memory>
    requires ready { is_ready table.now base.now ≡ true }
    ensures { OnOk result ((fs : List FactorOf) → FactorsStand table.now fs (map factor_tree factors.old)
        → FactorsStand table.now (fs ++ power_factors (expression_back table.now.0 base.now) exponent) (map factor_tree factors.new)) }
{
    if exponent == 0 {
        push_word(0, factors)?;
        return Ok(());
    }
    if exponent == 1 {
        return Ok(());
    }
    push_word(u64::from(exponent), factors)?;
    if exponent == 2 {
        push_operand(alloc, table, base, factors)?;
        return Ok(());
    }
    push_power(alloc, table, base, exponent - 1, factors)?;
    Ok(())
}

/// Adds a number by a relation.
fn push_either(
    alloc: Global,
    table: &SlotTable,
    one: u64,
    other: u64,
    op: RelOp,
    left: &ResolvedExpr,
    right: &ResolvedExpr,
    factors: &mut Items<Factor>,
) -> Result<(), Memory>
    requires left_ready { is_ready table.now left.now ≡ true }
    requires right_ready { is_ready table.now right.now ≡ true }
    ensures { OnOk result ((fs : List FactorOf) → FactorsStand table.now fs (map factor_tree factors.old)
        → FactorsStand table.now (fs ++ either one other (relation_tree op (expression_back table.now.0 left.now) (expression_back table.now.0 right.now)) ∷ [])
        (map factor_tree factors.new)) }
{
    let left = split_expression(alloc, table, &[], left)?;
    let right = split_expression(alloc, table, &[], right)?;
    let test = relation(alloc, op, left, right)?;
    factors.push(Factor::Either {
        one,
        other,
        test: test.into_inner(),
    })?;
    Ok(())
}

/// Adds the sign of an expression.
fn push_sign(
    alloc: Global,
    table: &SlotTable,
    expr: &ResolvedExpr,
    factors: &mut Items<Factor>,
) -> Result<(), Memory>
    requires ready { is_ready table.now expr.now ≡ true }
    ensures { OnOk result ((fs : List FactorOf) → FactorsStand table.now fs (map factor_tree factors.old)
        → FactorsStand table.now (fs ++ either minus_one 1 (relation_tree less (expression_back table.now.0 expr.now) (literal 0 ring_kind)) ∷ [])
        (map factor_tree factors.new)) }
{
    let value = split_ring(alloc, table, &[], expr)?;
    let test = below_zero(alloc, value)?;
    factors.push(Factor::Either {
        one: u64::MAX,
        other: 1,
        test: test.into_inner(),
    })?;
    Ok(())
}

/// Adds the factors of a link.
pub(crate) fn push_factors_at(
    alloc: Global,
    table: &SlotTable,
    link: &Link<'_>,
    factors: &mut Items<Factor>,
) -> Result<(), Memory>
    requires ready { is_link_ready table.now link.now ≡ true }
    ensures { OnOk result ((fs : List FactorOf) → FactorsStand table.now fs (map factor_tree factors.old)
        → FactorsStand table.now (fs ++ factors_at table.now.0 link.now) (map factor_tree factors.new)) }
{
    match link {
        Link::Operand(expr) => push_operand(alloc, table, expr, factors),
        Link::Power { base, exponent } => {
            push_power_factors(alloc, table, base, *exponent, factors)
        }
        Link::Either {
            one,
            other,
            op,
            left,
            right,
        } => push_either(alloc, table, *one, *other, *op, left, right, factors),
        Link::Absolute(expr) => push_sign(alloc, table, expr, factors),
    }
}
