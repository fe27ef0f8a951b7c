//! The terms of an increment.

ghost use Rattle.std.specs.Prelude.{◌≡◌, ◌++◌, if◌then◌else◌, [], IfOk, OnOk, map};
ghost use Rattle.fl_ast.specs.Tree.{place_tree, expr_tree};
ghost use Rattle.fl_ast.specs.AdjointTree.{aexpr_tree, astmt_tree};
ghost use Rattle.fl_ast.specs.Same.{same_expression};
ghost use Rattle.fl_types.specs.Increment.{target_of};
ghost use Rattle.fl_types.specs.Sharing.{has_name as has_name_lem};
ghost use Rattle.adjoint_rules.specs.Expressions as rules;
ghost use Rattle.reversal.specs.Growth.{is_atomic_in};
ghost use Rattle.reversal.specs.Chains as spec;

use crate::expression::{binary, get, in_adjoint};
use crate::growth::{Growth, push_growths};
use fl_ast::{AExpr, AStmt, BinOp, Expr, Place};
use fl_base::{Boxed, Items, Memory};
use std::alloc::Global;

pub fn is_target(target: &Place, expr: &Expr) -> bool
    ensures { result ≡ same_expression (target_of (place_tree target.now)) (expr_tree expr.now) }
{
    match expr {
        Expr::Get(place) => target.same(place),
        _ => false,
    }
}

fn is_link(op: BinOp) -> bool
    ensures { result ≡ spec.is_link op }
{
    match op {
        BinOp::Add | BinOp::Sub => true,
        BinOp::Mul | BinOp::Div => false,
    }
}

fn is_difference(op: BinOp) -> bool
    ensures { result ≡ spec.is_difference op }
{
    match op {
        BinOp::Sub => true,
        BinOp::Add | BinOp::Mul | BinOp::Div => false,
    }
}

fn turned_op(op: BinOp) -> BinOp
    ensures { result ≡ spec.turned_op op }
{
    match op {
        BinOp::Add => BinOp::Sub,
        BinOp::Sub => BinOp::Add,
        BinOp::Mul => BinOp::Mul,
        BinOp::Div => BinOp::Div,
    }
}

/// Adds what the operands of a chain's terms grow by.
pub fn push_chain(
    alloc: Global,
    growth: &Growth<'_>,
    value: &Expr,
    target: &Place,
    amount: &AExpr,
    statements: &mut Items<AStmt>,
) -> Result<(), Memory>
    ensures { OnOk result (map astmt_tree statements.new ≡ map astmt_tree statements.old
        ++ spec.chain_growths (λ x. has_name_lem x growth.now.active.now.names) (is_atomic_in growth.now.choices.now growth.now.number) growth.now.line (target_of (place_tree target.now)) (expr_tree value.now) (aexpr_tree amount.now)) }
{
    match value {
        Expr::Bin { op, left, right } => {
            if !is_link(*op) {
                return Ok(());
            }
            let (left, right) = (left.get(), right.get());
            if is_target(target, left) {
                return push_growths(alloc, growth, right, is_difference(*op), amount, statements);
            }
            push_chain(alloc, growth, left, target, amount, statements)?;
            push_growths(alloc, growth, right, is_difference(*op), amount, statements)
        }
        _ => Ok(()),
    }
}

/// The chain with the signs of its terms turned.
pub fn turned(alloc: Global, value: &Expr, target: &Place) -> Result<Boxed<AExpr>, Memory>
    ensures { IfOk result (λ e. aexpr_tree e ≡ rules.in_adjoint (spec.chain_turned (target_of (place_tree target.now)) (expr_tree value.now))) }
{
    match value {
        Expr::Bin { op, left, right } => {
            let right = in_adjoint(alloc, right.get())?;
            if is_target(target, left.get()) {
                let front = get(alloc, target)?;
                return binary(alloc, turned_op(*op), front, right);
            }
            let front = turned(alloc, left.get(), target)?;
            binary(alloc, turned_op(*op), front, right)
        }
        _ => get(alloc, target),
    }
}

fn first_with(alloc: Global, op: BinOp, term: &Expr) -> Result<Boxed<AExpr>, Memory>
    ensures { IfOk result (λ e. aexpr_tree e ≡ rules.in_adjoint (spec.first_with op (expr_tree term.now))) }
{
    let term = in_adjoint(alloc, term)?;
    match op {
        BinOp::Sub => Boxed::new(alloc, AExpr::Neg(term)),
        BinOp::Add | BinOp::Mul | BinOp::Div => Ok(term),
    }
}

/// The chain without the target.
pub fn sum_of(alloc: Global, value: &Expr, target: &Place) -> Result<Boxed<AExpr>, Memory>
    ensures { IfOk result (λ e. aexpr_tree e ≡ rules.in_adjoint (spec.chain_sum (target_of (place_tree target.now)) (expr_tree value.now))) }
{
    match value {
        Expr::Bin { op, left, right } => {
            if is_target(target, left.get()) {
                return first_with(alloc, *op, right.get());
            }
            let front = sum_of(alloc, left.get(), target)?;
            let right = in_adjoint(alloc, right.get())?;
            binary(alloc, *op, front, right)
        }
        _ => get(alloc, target),
    }
}
