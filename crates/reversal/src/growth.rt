//! What the adjoints of an expression's operands grow by.

ghost use Rattle.std.specs.Prelude.{◌≡◌, ◌++◌, OnOk, IfOk, map};
ghost use Rattle.fl_ast.specs.Tree.{place_tree, expr_tree, expr_trees};
ghost use Rattle.fl_ast.specs.AdjointTree.{aexpr_tree, astmt_tree};
ghost use Rattle.fl_types.specs.declared.choice.Choice.{Choice};
ghost use Rattle.fl_types.specs.Sharing.{has_name as has_name_lem};
ghost use Rattle.adjoint_rules.specs.Expressions.{grown as grown_lem, sign_of as sign_of_lem};
ghost use Rattle.adjoint_rules.specs.Scopes.{has_choice as has_choice_lem, is_atomic as is_atomic_lem};
ghost use Rattle.reversal.specs.Growth as spec;

use crate::expression::{binary, copied, get};
use crate::factor::{times_first, times_operand, times_power, times_second, times_sign};
use crate::name::{adjoint_place, has_name};
use fl_ast::{AExpr, AStmt, BinOp, Expr, Fun, Name, Place, RelOp};
use fl_base::{Boxed, Items, Memory};
use fl_types::{Choice, Chosen, NameSet};
use std::alloc::Global;

fn is_atomic(choice: Choice) -> bool
    ensures { result ≡ is_atomic_lem choice }
{
    match choice {
        Choice::Atomic => true,
        Choice::Shared | Choice::Reduction => false,
    }
}

fn has_atomic(choices: &[Chosen], number: u32, name: &Name) -> bool
    ensures { result ≡ has_choice_lem is_atomic_lem choices.now number name.now }
{
    choices.iter().any(|chosen| chosen.loop_number == number
        && chosen.name.is(name)
        && is_atomic(chosen.choice))
}

/// Which names are active, whose adjoints are incremented atomically, and at which line.
#[derive(Drop)]
pub struct Growth<'a> {
    pub active: &'a NameSet,
    pub choices: &'a [Chosen],
    pub number: Option<u32>,
    pub line: u32,
}

impl Growth<'_> {
    fn is_atomic(&self, name: &Name) -> bool
        ensures { result ≡ spec.is_atomic_in self.now.choices.now self.now.number name.now }
    {
        match self.number {
            None => false,
            Some(number) => has_atomic(self.choices, number, name),
        }
    }
}

fn sign_of(negative: bool) -> BinOp
    ensures { result ≡ sign_of_lem negative }
{
    if negative { BinOp::Sub } else { BinOp::Add }
}

/// The statement that adds the amount to a place's adjoint, or takes it away.
fn grown(
    alloc: Global,
    growth: &Growth<'_>,
    negative: bool,
    place: &Place,
    amount: &AExpr,
) -> Result<AStmt, Memory>
    ensures { IfOk result (λ s. astmt_tree s ≡ grown_lem growth.now.line (spec.is_atomic_in growth.now.choices.now growth.now.number (place_tree place.now).name) negative (place_tree place.now) (aexpr_tree amount.now)) }
{
    let target = adjoint_place(alloc, place)?;
    let before = get(alloc, &target)?;
    let amount = copied(alloc, amount)?;
    let value = binary(alloc, sign_of(negative), before, amount)?;
    Ok(AStmt::Assign {
        line: growth.line,
        atomic: growth.is_atomic(&place.name),
        target,
        value: value.into_inner(),
    })
}

/// Adds the increment of a place's adjoint, where its name is active.
fn push_place(
    alloc: Global,
    growth: &Growth<'_>,
    place: &Place,
    negative: bool,
    amount: &AExpr,
    statements: &mut Items<AStmt>,
) -> Result<(), Memory>
    ensures { OnOk result (map astmt_tree statements.new ≡ map astmt_tree statements.old
        ++ spec.place_growth (λ x. has_name_lem x growth.now.active.now.names) (spec.is_atomic_in growth.now.choices.now growth.now.number) growth.now.line (place_tree place.now) negative (aexpr_tree amount.now)) }
{
    if has_name(&place.name, growth.active.names.as_slice()) {
        statements.push(grown(alloc, growth, negative, place, amount)?)?;
    }
    Ok(())
}

fn is_division(op: BinOp) -> bool
    ensures { result ≡ spec.is_division op }
{
    match op {
        BinOp::Div => true,
        BinOp::Add | BinOp::Sub | BinOp::Mul => false,
    }
}

fn sign_at_right(op: BinOp, negative: bool) -> bool
    ensures { result ≡ spec.sign_at_right op negative }
{
    match op {
        BinOp::Sub => !negative,
        BinOp::Add | BinOp::Mul | BinOp::Div => negative,
    }
}

/// What the amount becomes at an operand, beside the other one.
fn amount_at(alloc: Global, op: BinOp, amount: &AExpr, other: &Expr) -> Result<Boxed<AExpr>, Memory>
    ensures { IfOk result (λ e. aexpr_tree e ≡ spec.amount_at op (aexpr_tree amount.now) (expr_tree other.now)) }
{
    match op {
        BinOp::Mul => times_operand(alloc, amount, other),
        BinOp::Add | BinOp::Sub | BinOp::Div => copied(alloc, amount),
    }
}

/// What the amount becomes at the two operands of an operation.
fn amounts_at(
    alloc: Global,
    op: BinOp,
    amount: &AExpr,
    left: &Expr,
    right: &Expr,
) -> Result<(Boxed<AExpr>, Boxed<AExpr>), Memory>
    ensures left { IfOk result (λ both. aexpr_tree both.0 ≡ spec.amount_at op (aexpr_tree amount.now) (expr_tree right.now)) }
    ensures right { IfOk result (λ both. aexpr_tree both.1 ≡ spec.amount_at op (aexpr_tree amount.now) (expr_tree left.now)) }
{
    let at_left = amount_at(alloc, op, amount, right)?;
    let at_right = amount_at(alloc, op, amount, left)?;
    Ok((at_left, at_right))
}

/// Adds the increments of an expression's operands to the statements.
#[cycle(growths)]
pub fn push_growths(
    alloc: Global,
    growth: &Growth<'_>,
    expr: &Expr,
    negative: bool,
    amount: &AExpr,
    statements: &mut Items<AStmt>,
) -> Result<(), Memory>
    ensures { OnOk result (map astmt_tree statements.new ≡ map astmt_tree statements.old
        ++ spec.growths (λ x. has_name_lem x growth.now.active.now.names) (spec.is_atomic_in growth.now.choices.now growth.now.number) growth.now.line (expr_tree expr.now) negative (aexpr_tree amount.now)) }
{
    match expr {
        Expr::Lit { .. } => Ok(()),
        Expr::Get(place) => push_place(alloc, growth, place, negative, amount, statements),
        Expr::Neg(inner) => push_growths(alloc, growth, inner.get(), !negative, amount, statements),
        Expr::Bin { op, left, right } => {
            if is_division(*op) {
                return Ok(());
            }
            let (left, right) = (left.get(), right.get());
            let (at_left, at_right) = amounts_at(alloc, *op, amount, left, right)?;
            push_growths(alloc, growth, left, negative, at_left.get(), statements)?;
            let negative = sign_at_right(*op, negative);
            push_growths(alloc, growth, right, negative, at_right.get(), statements)
        }
        Expr::Pow { base, exponent } => {
            let base = base.get();
            let raised = times_power(alloc, amount, base, *exponent)?;
            push_growths(alloc, growth, base, negative, raised.get(), statements)
        }
        Expr::Call { fun, args } => {
            let args = args.as_slice();
            match fun {
                Fun::Max => push_of_two(
                    alloc,
                    growth,
                    args,
                    RelOp::Ge,
                    negative,
                    amount,
                    statements,
                ),
                Fun::Min => push_of_two(
                    alloc,
                    growth,
                    args,
                    RelOp::Le,
                    negative,
                    amount,
                    statements,
                ),
                Fun::Abs => push_of_one(alloc, growth, args, negative, amount, statements),
                Fun::Mod => Ok(()),
            }
        }
    }
}

/// Adds those of the operands of `max` and `min`.
#[cycle(growths)]
fn push_of_two(
    alloc: Global,
    growth: &Growth<'_>,
    args: &[Expr],
    op: RelOp,
    negative: bool,
    amount: &AExpr,
    statements: &mut Items<AStmt>,
) -> Result<(), Memory>
    ensures { OnOk result (map astmt_tree statements.new ≡ map astmt_tree statements.old
        ++ spec.growths_of_two (λ x. has_name_lem x growth.now.active.now.names) (spec.is_atomic_in growth.now.choices.now growth.now.number) growth.now.line op (expr_trees args.now) negative (aexpr_tree amount.now)) }
{
    match args {
        [left, right] => {
            let first = times_first(alloc, amount, op, left, right)?;
            push_growths(alloc, growth, left, negative, first.get(), statements)?;
            let second = times_second(alloc, amount, op, left, right)?;
            push_growths(alloc, growth, right, negative, second.get(), statements)
        }
        _ => Ok(()),
    }
}

/// Adds those of the operand of `abs`.
#[cycle(growths)]
fn push_of_one(
    alloc: Global,
    growth: &Growth<'_>,
    args: &[Expr],
    negative: bool,
    amount: &AExpr,
    statements: &mut Items<AStmt>,
) -> Result<(), Memory>
    ensures { OnOk result (map astmt_tree statements.new ≡ map astmt_tree statements.old
        ++ spec.growths_of_one (λ x. has_name_lem x growth.now.active.now.names) (spec.is_atomic_in growth.now.choices.now growth.now.number) growth.now.line (expr_trees args.now) negative (aexpr_tree amount.now)) }
{
    match args {
        [expr] => {
            let amount = times_sign(alloc, amount, expr)?;
            push_growths(alloc, growth, expr, negative, amount.get(), statements)
        }
        _ => Ok(()),
    }
}
