ghost use Rattle.std.specs.Prelude.{◌≡◌, length, map};
ghost use Rattle.fl_ast.specs.Tree.{expr_tree, expr_trees, place_tree, cond_tree};
ghost use Rattle.resolved.specs.ResolvedExprs.{expression_back, expressions_back, place_back, condition_back, is_within, are_within, is_place_within, is_condition_within, is_placed, are_placed, is_designator_placed, is_condition_placed};
ghost use Rattle.resolved.specs.ResolveAnswers.{Resolves};
ghost use Rattle.resolved.specs.declared.resolve.ResolveError.TheVariants.{Memory as memory};

use crate::resolved::{ResolvedCond, ResolvedExpr, ResolvedPlace};
use fl_ast::{Cond, Expr, Memory, Place};
use fl_base::{Boxed, Items};
use std::alloc::Global;
use store_core::Layout;
use thiserror::Error;

/// Why names were not resolved.
#[derive(Debug, Drop, Error)]
pub enum ResolveError {
    #[error("a name has no slot in the layout")]
    Unplaced,
    #[error("not enough memory")]
    Memory,
}

impl From<Memory> for ResolveError {
    ghost from_gives = { λ _ e. e ≡ memory };

    fn from(_: Memory) -> ResolveError {
        ResolveError::Memory
    }
}

/// The expression with each name's slot, looked up once.
#[cycle(resolve_names)]
pub fn resolve_expression(
    alloc: Global,
    layout: &Layout,
    expr: &Expr,
) -> Result<ResolvedExpr, ResolveError>
    ensures { Resolves (expression_back layout.now) (is_within (length layout.now)) (expr_tree expr.now)
        (is_placed layout.now (expr_tree expr.now)) result }
{
    match expr {
        Expr::Lit { value, kind } => Ok(ResolvedExpr::Lit {
            word: *value,
            kind: *kind,
        }),
        Expr::Get(place) => Ok(ResolvedExpr::Get(resolve_place(alloc, layout, place)?)),
        Expr::Neg(inner) => {
            let inner = resolve_expression(alloc, layout, inner.get())?;
            Ok(ResolvedExpr::Neg(Boxed::new(alloc, inner)?))
        }
        Expr::Bin { op, left, right } => {
            let left = Boxed::new(alloc, resolve_expression(alloc, layout, left.get())?)?;
            let right = Boxed::new(alloc, resolve_expression(alloc, layout, right.get())?)?;
            Ok(ResolvedExpr::Bin {
                op: *op,
                left,
                right,
            })
        }
        Expr::Pow { base, exponent } => {
            let base = Boxed::new(alloc, resolve_expression(alloc, layout, base.get())?)?;
            Ok(ResolvedExpr::Pow {
                base,
                exponent: *exponent,
            })
        }
        Expr::Call { fun, args } => {
            let args = resolve_all(alloc, layout, args.as_slice())?;
            Ok(ResolvedExpr::Call { fun: *fun, args })
        }
    }
}

/// The place with its name's slot.
#[cycle(resolve_names)]
#[tactic(auto, using(crate::proofs::Slots::slots))]
pub fn resolve_place(
    alloc: Global,
    layout: &Layout,
    place: &Place,
) -> Result<ResolvedPlace, ResolveError>
    ensures { Resolves (place_back layout.now) (is_place_within (length layout.now)) (place_tree place.now)
        (is_designator_placed layout.now (place_tree place.now)) result }
{
    match layout.slot(&place.name) {
        None => Err(ResolveError::Unplaced),
        Some(slot) => {
            let subscripts = resolve_all(alloc, layout, place.subscripts.as_slice())?;
            Ok(ResolvedPlace { slot, subscripts })
        }
    }
}

#[cycle(resolve_names)]
#[tactic(auto, using(crate::proofs::Slots::within_push))]
fn resolve_all(
    alloc: Global,
    layout: &Layout,
    exprs: &[Expr],
) -> Result<Items<ResolvedExpr>, ResolveError>
    ensures { Resolves (expressions_back layout.now) (are_within (length layout.now)) (expr_trees exprs.now)
        (are_placed layout.now (expr_trees exprs.now)) result }
{
    let mut all = Items::new(alloc);
    for expr in exprs {
        let expr = resolve_expression(alloc, layout, expr)?;
        all.push(expr)?;
    }
    Ok(all)
}

/// The condition with each name's slot.
pub fn resolve_condition(
    alloc: Global,
    layout: &Layout,
    cond: &Cond,
) -> Result<ResolvedCond, ResolveError>
    ensures { Resolves (condition_back layout.now) (is_condition_within (length layout.now)) (cond_tree cond.now)
        (is_condition_placed layout.now (cond_tree cond.now)) result }
{
    match cond {
        Cond::Rel { op, left, right } => {
            let left = resolve_expression(alloc, layout, left)?;
            let right = resolve_expression(alloc, layout, right)?;
            Ok(ResolvedCond::Rel {
                op: *op,
                left,
                right,
            })
        }
        Cond::Not(inner) => {
            let inner = resolve_condition(alloc, layout, inner.get())?;
            Ok(ResolvedCond::Not(Boxed::new(alloc, inner)?))
        }
        Cond::And(left, right) => {
            let left = Boxed::new(alloc, resolve_condition(alloc, layout, left.get())?)?;
            let right = Boxed::new(alloc, resolve_condition(alloc, layout, right.get())?)?;
            Ok(ResolvedCond::And(left, right))
        }
        Cond::Or(left, right) => {
            let left = Boxed::new(alloc, resolve_condition(alloc, layout, left.get())?)?;
            let right = Boxed::new(alloc, resolve_condition(alloc, layout, right.get())?)?;
            Ok(ResolvedCond::Or(left, right))
        }
    }
}
