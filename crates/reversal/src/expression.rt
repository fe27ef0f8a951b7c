//! Expressions of adjoints.

ghost use Rattle.std.specs.Prelude.{◌≡◌, if◌then◌else◌, IfOk};
ghost use Rattle.fl_ast.specs.Tree.{place_tree, expr_tree, expr_trees, cond_tree, relation};
ghost use Rattle.fl_ast.specs.AdjointTree.{aexpr_tree, aexpr_trees, adjoint_get, adjoint_literal, adjoint_minus, adjoint_binary};
ghost use Rattle.fl_ast.specs.declared.kind.Kind.TheVariants as kind;
ghost use Rattle.adjoint_rules.specs.Expressions as rules;

use crate::copy::copy;
use fl_ast::{AExpr, BinOp, Cond, Expr, Kind, Place, RelOp};
use fl_base::{Boxed, Items, Memory};
use std::alloc::Global;

pub fn binary(
    alloc: Global,
    op: BinOp,
    left: Boxed<AExpr>,
    right: Boxed<AExpr>,
) -> Result<Boxed<AExpr>, Memory>
    ensures { IfOk result (λ e. aexpr_tree e ≡ adjoint_binary op (aexpr_tree left) (aexpr_tree right)) }
{
    Boxed::new(alloc, AExpr::Bin { op, left, right })
}

pub fn copied(alloc: Global, amount: &AExpr) -> Result<Boxed<AExpr>, Memory>
    ensures { IfOk result (λ e. e ≡ amount.now) }
{
    Boxed::new(alloc, copy(alloc, amount)?)
}

pub fn get(alloc: Global, place: &Place) -> Result<Boxed<AExpr>, Memory>
    ensures { IfOk result (λ e. aexpr_tree e ≡ adjoint_get (place_tree place.now)) }
{
    Boxed::new(alloc, AExpr::Get(place.clone(alloc)?))
}

pub fn literal(value: u64, kind: Kind) -> AExpr
    ensures { aexpr_tree result ≡ adjoint_literal value kind }
{
    AExpr::Lit { value, kind }
}

/// The expression as one of an adjoint.
#[cycle(in_adjoint)]
pub fn in_adjoint(alloc: Global, expr: &Expr) -> Result<Boxed<AExpr>, Memory>
    ensures { IfOk result (λ e. aexpr_tree e ≡ rules.in_adjoint (expr_tree expr.now)) }
{
    match expr {
        Expr::Lit { value, kind } => {
            let literal = AExpr::Lit {
                value: *value,
                kind: *kind,
            };
            Boxed::new(alloc, literal)
        }
        Expr::Get(place) => get(alloc, place),
        Expr::Neg(inner) => {
            let inner = in_adjoint(alloc, inner.get())?;
            Boxed::new(alloc, AExpr::Neg(inner))
        }
        Expr::Bin { op, left, right } => {
            let left = in_adjoint(alloc, left.get())?;
            let right = in_adjoint(alloc, right.get())?;
            binary(alloc, *op, left, right)
        }
        Expr::Pow { base, exponent } => {
            let base = in_adjoint(alloc, base.get())?;
            let exponent = *exponent;
            Boxed::new(alloc, AExpr::Pow { base, exponent })
        }
        Expr::Call { fun, args } => {
            let args = all_in_adjoint(alloc, args.as_slice())?;
            Boxed::new(alloc, AExpr::Call { fun: *fun, args })
        }
    }
}

#[cycle(in_adjoint)]
fn all_in_adjoint(alloc: Global, exprs: &[Expr]) -> Result<Items<AExpr>, Memory>
    ensures { IfOk result (λ es. aexpr_trees es ≡ rules.all_in_adjoint (expr_trees exprs.now)) }
{
    let mut all = Items::new(alloc);
    for i in 0..exprs.len() {
        all.push(in_adjoint(alloc, &exprs[i])?.into_inner())?;
    }
    Ok(all)
}

/// `1_8`, or `-1_8`
fn one(alloc: Global, negative: bool) -> Result<Boxed<AExpr>, Memory>
    ensures { IfOk result (λ e. aexpr_tree e ≡ (if negative then adjoint_minus (adjoint_literal 1 kind.Ring) else adjoint_literal 1 kind.Ring)) }
{
    let one = Boxed::new(alloc, literal(1, Kind::Ring))?;
    if negative {
        Boxed::new(alloc, AExpr::Neg(one))
    } else {
        Ok(one)
    }
}

/// A test of two expressions.
pub fn test_of(alloc: Global, op: RelOp, left: &Expr, right: &Expr) -> Result<Boxed<Cond>, Memory>
    ensures { IfOk result (λ c. cond_tree c ≡ relation op (expr_tree left.now) (expr_tree right.now)) }
{
    let left = Boxed::new(alloc, left.clone(alloc)?)?;
    let right = Boxed::new(alloc, right.clone(alloc)?)?;
    Boxed::new(
        alloc,
        Cond::Rel {
            op,
            left: left.into_inner(),
            right: right.into_inner(),
        },
    )
}
