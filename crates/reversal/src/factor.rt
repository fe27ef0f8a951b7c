//! Amounts with one factor more.

ghost use Rattle.std.specs.Prelude.{◌≡◌, if◌then◌else◌, IfOk};
ghost use Rattle.fl_ast.specs.Tree.{expr_tree, cond_tree, relation, literal as literal_lem, power};
ghost use Rattle.fl_ast.specs.AdjointTree.{aexpr_tree, adjoint_literal, adjoint_minus, adjoint_binary, merge};
ghost use Rattle.fl_ast.specs.declared.kind.BinOp.TheVariants as op;
ghost use Rattle.fl_ast.specs.declared.kind.Kind.TheVariants as kind;
ghost use Rattle.fl_ast.specs.declared.kind.RelOp.TheVariants as rel;
ghost use Rattle.adjoint_rules.specs.Occurrences.{operand, either, minus_one, power_factors};
ghost use Rattle.adjoint_rules.specs.Expressions.{product};
ghost use Rattle.reversal.specs.Growth.{times as times_lem};

use crate::expression::{binary, copied, in_adjoint, literal, test_of};
use fl_ast::{AExpr, BinOp, Cond, Expr, Kind, RelOp};
use fl_base::{Boxed, Memory};
use std::alloc::Global;

/// The amount times an expression of the program.
pub fn times_operand(alloc: Global, amount: &AExpr, factor: &Expr) -> Result<Boxed<AExpr>, Memory>
    ensures { IfOk result (λ e. aexpr_tree e ≡ times_lem (aexpr_tree amount.now) (operand (expr_tree factor.now))) }
{
    let amount = copied(alloc, amount)?;
    let factor = in_adjoint(alloc, factor)?;
    binary(alloc, BinOp::Mul, amount, factor)
}

/// The amount times a number of the ring kind.
fn times_number(alloc: Global, amount: &AExpr, value: u64) -> Result<Boxed<AExpr>, Memory>
    ensures { IfOk result (λ e. aexpr_tree e ≡ times_lem (aexpr_tree amount.now) (operand (literal_lem value kind.Ring))) }
{
    let amount = copied(alloc, amount)?;
    let factor = Boxed::new(alloc, literal(value, Kind::Ring))?;
    binary(alloc, BinOp::Mul, amount, factor)
}

/// The amount times a power of an expression of the program.
fn times_raised(
    alloc: Global,
    amount: &AExpr,
    base: &Expr,
    exponent: u32,
) -> Result<Boxed<AExpr>, Memory>
    ensures { IfOk result (λ e. aexpr_tree e ≡ times_lem (aexpr_tree amount.now) (operand (power (expr_tree base.now) exponent))) }
{
    let amount = copied(alloc, amount)?;
    let base = in_adjoint(alloc, base)?;
    let factor = Boxed::new(alloc, AExpr::Pow { base, exponent })?;
    binary(alloc, BinOp::Mul, amount, factor)
}

/// The amount times the derivative of a power.
#[tactic(auto, using(crate::proofs::Powers::raised_factors))]
pub fn times_power(
    alloc: Global,
    amount: &AExpr,
    base: &Expr,
    exponent: u32,
) -> Result<Boxed<AExpr>, Memory>
    ensures { IfOk result (λ e. aexpr_tree e ≡ product (aexpr_tree amount.now) (power_factors (expr_tree base.now) exponent)) }
{
    if exponent == 0 {
        return times_number(alloc, amount, 0);
    }
    if exponent == 1 {
        return copied(alloc, amount);
    }
    let front = times_number(alloc, amount, u64::from(exponent))?;
    if exponent == 2 {
        return times_operand(alloc, front.get(), base);
    }
    times_raised(alloc, front.get(), base, exponent - 1)
}

fn times_merge(
    alloc: Global,
    amount: &AExpr,
    first: Boxed<AExpr>,
    second: Boxed<AExpr>,
    test: Boxed<Cond>,
) -> Result<Boxed<AExpr>, Memory>
    ensures { IfOk result (λ e. aexpr_tree e ≡ adjoint_binary op.Mul (aexpr_tree amount.now) (merge (aexpr_tree first) (aexpr_tree second) (cond_tree test))) }
{
    let amount = copied(alloc, amount)?;
    let factor = Boxed::new(
        alloc,
        AExpr::Merge {
            first,
            second,
            test: test.into_inner(),
        },
    )?;
    binary(alloc, BinOp::Mul, amount, factor)
}

/// The amount times 1 where the first of two operands is taken, and 0 elsewhere.
pub fn times_first(
    alloc: Global,
    amount: &AExpr,
    op: RelOp,
    left: &Expr,
    right: &Expr,
) -> Result<Boxed<AExpr>, Memory>
    ensures { IfOk result (λ e. aexpr_tree e ≡ times_lem (aexpr_tree amount.now) (either 1 0 (relation op (expr_tree left.now) (expr_tree right.now)))) }
{
    let first = Boxed::new(alloc, literal(1, Kind::Ring))?;
    let second = Boxed::new(alloc, literal(0, Kind::Ring))?;
    let test = test_of(alloc, op, left, right)?;
    times_merge(alloc, amount, first, second, test)
}

/// The amount times 1 where the second is taken.
pub fn times_second(
    alloc: Global,
    amount: &AExpr,
    op: RelOp,
    left: &Expr,
    right: &Expr,
) -> Result<Boxed<AExpr>, Memory>
    ensures { IfOk result (λ e. aexpr_tree e ≡ times_lem (aexpr_tree amount.now) (either 0 1 (relation op (expr_tree left.now) (expr_tree right.now)))) }
{
    let first = Boxed::new(alloc, literal(0, Kind::Ring))?;
    let second = Boxed::new(alloc, literal(1, Kind::Ring))?;
    let test = test_of(alloc, op, left, right)?;
    times_merge(alloc, amount, first, second, test)
}

fn minus_one_of(alloc: Global) -> Result<Boxed<AExpr>, Memory>
    ensures { IfOk result (λ e. aexpr_tree e ≡ adjoint_minus (adjoint_literal 1 kind.Ring)) }
{
    let one = Boxed::new(alloc, literal(1, Kind::Ring))?;
    Boxed::new(alloc, AExpr::Neg(one))
}

/// Whether an expression is below 0.
fn negative_test(alloc: Global, expr: &Expr) -> Result<Boxed<Cond>, Memory>
    ensures { IfOk result (λ c. cond_tree c ≡ relation rel.Lt (expr_tree expr.now) (literal_lem 0 kind.Ring)) }
{
    let left = Boxed::new(alloc, expr.clone(alloc)?)?;
    Boxed::new(
        alloc,
        Cond::Rel {
            op: RelOp::Lt,
            left: left.into_inner(),
            right: Expr::Lit {
                value: 0,
                kind: Kind::Ring,
            },
        },
    )
}

/// The amount times -1 where the expression is below 0, and 1 elsewhere.
pub fn times_sign(alloc: Global, amount: &AExpr, expr: &Expr) -> Result<Boxed<AExpr>, Memory>
    ensures { IfOk result (λ e. aexpr_tree e ≡ times_lem (aexpr_tree amount.now) (either minus_one 1 (relation rel.Lt (expr_tree expr.now) (literal_lem 0 kind.Ring)))) }
{
    let first = minus_one_of(alloc)?;
    let second = Boxed::new(alloc, literal(1, Kind::Ring))?;
    let test = negative_test(alloc, expr)?;
    times_merge(alloc, amount, first, second, test)
}
