//! How many turns a loop has, its last value, and the number of a turn.

ghost use Rattle.std.specs.Prelude.{◌≡◌, IfOk};
ghost use Rattle.fl_ast.specs.Tree.{expr_tree, binary as binary_lem, literal as literal_lem};
ghost use Rattle.fl_ast.specs.declared.kind.Kind.TheVariants as kind;
ghost use Rattle.adjoint_rules.specs.Bounds as rules;
ghost use Rattle.adjoint_rules.specs.OwnNames.{value as value_lem};
ghost use Rattle.loop_bounds.specs.Heads.{head_of, quotient as quotient_lem};

use crate::head::{LoopHead, by, hi, lo};
use fl_ast::{BinOp, Expr, Fun, Kind};
use fl_base::{Boxed, Items, Memory};
use reversal::value;
use std::alloc::Global;

fn binary(
    alloc: Global,
    op: BinOp,
    left: Boxed<Expr>,
    right: Boxed<Expr>,
) -> Result<Boxed<Expr>, Memory>
    ensures { IfOk result (λ e. expr_tree e ≡ binary_lem op (expr_tree left) (expr_tree right)) }
{
    Boxed::new(alloc, Expr::Bin { op, left, right })
}

fn index_literal(alloc: Global, value: u64) -> Result<Boxed<Expr>, Memory>
    ensures { IfOk result (λ e. expr_tree e ≡ literal_lem value kind.Index) }
{
    let literal = Expr::Lit {
        value,
        kind: Kind::Index,
    };
    Boxed::new(alloc, literal)
}

/// `((hi-lo)+by)/by`
fn quotient(alloc: Global, head: &LoopHead<'_>) -> Result<Boxed<Expr>, Memory>
    ensures { IfOk result (λ e. expr_tree e ≡ quotient_lem (head_of head.now)) }
{
    let span = binary(alloc, BinOp::Sub, hi(alloc, head)?, lo(alloc, head)?)?;
    let longer = binary(alloc, BinOp::Add, span, by(alloc, head)?)?;
    binary(alloc, BinOp::Div, longer, by(alloc, head)?)
}

/// How many turns there are: `max(((hi-lo)+by)/by, 0)`.
pub fn count(alloc: Global, head: &LoopHead<'_>) -> Result<Boxed<Expr>, Memory>
    ensures { IfOk result (λ e. expr_tree e ≡ rules.count (head_of head.now)) }
{
    let mut args = Items::new(alloc);
    args.push(quotient(alloc, head)?.into_inner())?;
    args.push(index_literal(alloc, 0)?.into_inner())?;
    Boxed::new(
        alloc,
        Expr::Call {
            fun: Fun::Max,
            args,
        },
    )
}

/// The last turn's value: `lo+((count-1)*by)`.
pub fn last_value(alloc: Global, head: &LoopHead<'_>) -> Result<Boxed<Expr>, Memory>
    ensures { IfOk result (λ e. expr_tree e ≡ rules.last_value (head_of head.now)) }
{
    let further = binary(
        alloc,
        BinOp::Sub,
        count(alloc, head)?,
        index_literal(alloc, 1)?,
    )?;
    let span = binary(alloc, BinOp::Mul, further, by(alloc, head)?)?;
    binary(alloc, BinOp::Add, lo(alloc, head)?, span)
}

fn variable(alloc: Global, head: &LoopHead<'_>) -> Result<Boxed<Expr>, Memory>
    ensures { IfOk result (λ e. expr_tree e ≡ value_lem (head_of head.now).var) }
{
    Boxed::new(alloc, value(alloc, head.var.bytes())?)
}

/// The number of a turn: `(v-lo)/by`.
pub fn turn_number(alloc: Global, head: &LoopHead<'_>) -> Result<Boxed<Expr>, Memory>
    ensures { IfOk result (λ e. expr_tree e ≡ rules.turn_number (head_of head.now)) }
{
    let span = binary(alloc, BinOp::Sub, variable(alloc, head)?, lo(alloc, head)?)?;
    binary(alloc, BinOp::Div, span, by(alloc, head)?)
}
