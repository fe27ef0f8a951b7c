//! Trees and refusals as texts: an operation stands before its operands, in square brackets.

use crate::texts::{Shown, push_bytes};
use fl_ast::{AExpr, BinOp, Cond, Expr, Fun, Place, RelOp};
use parsing::{Cause, Failure};
use std::fmt::Write;

fn op_word(op: BinOp) -> &'static str {
    match op {
        BinOp::Add => "+",
        BinOp::Sub => "-",
        BinOp::Mul => "*",
        BinOp::Div => "/",
    }
}

fn rel_word(op: RelOp) -> &'static str {
    match op {
        RelOp::Eq => "==",
        RelOp::Ne => "/=",
        RelOp::Lt => "<",
        RelOp::Le => "<=",
        RelOp::Gt => ">",
        RelOp::Ge => ">=",
    }
}

fn fun_word(fun: Fun) -> &'static str {
    match fun {
        Fun::Max => "max",
        Fun::Min => "min",
        Fun::Abs => "abs",
        Fun::Mod => "mod",
    }
}

fn cause_word(cause: Cause) -> &'static str {
    match cause {
        Cause::Expected => "expected",
        Cause::Deep => "deep",
        _ => "other",
    }
}

fn show_number(out: &mut String, number: u64) -> Shown {
    write!(out, "{number}")
}

fn show_exponent(out: &mut String, exponent: u32) -> Shown {
    write!(out, " {exponent}]")
}

fn open(out: &mut String, word: &str) -> Shown {
    out.push('[')?;
    out.push_str(word)
}

#[cycle(show)]
fn show_place(out: &mut String, place: &Place) -> Shown {
    push_bytes(out, place.name.bytes())?;
    for subscript in place.subscripts.as_slice() {
        show_subscript(out, subscript)?;
    }
    Ok(())
}

#[cycle(show)]
fn show_subscript(out: &mut String, subscript: &Expr) -> Shown {
    out.push_str(" at ").and(show_expr(out, subscript))
}

/// Shows an operand behind others, or behind the operator.
#[cycle(show)]
fn show_next(out: &mut String, operand: &Expr) -> Shown {
    out.push(' ').and(show_expr(out, operand))
}

/// Shows the last operand.
#[cycle(show)]
fn show_last(out: &mut String, operand: &Expr) -> Shown {
    show_next(out, operand).and(out.push(']'))
}

#[cycle(show)]
fn show_args(out: &mut String, args: &[Expr]) -> Shown {
    for arg in args {
        show_next(out, arg)?;
    }
    out.push(']')
}

#[cycle(show)]
fn show_expr(out: &mut String, e: &Expr) -> Shown {
    match e {
        Expr::Lit { value, .. } => show_number(out, *value),
        Expr::Get(place) => show_place(out, place),
        Expr::Neg(inner) => open(out, "-").and(show_last(out, inner.get())),
        Expr::Bin { op, left, right } => open(out, op_word(*op))
            .and(show_next(out, left.get()))
            .and(show_last(out, right.get())),
        Expr::Pow { base, exponent } => open(out, "**")
            .and(show_next(out, base.get()))
            .and(show_exponent(out, *exponent)),
        Expr::Call { fun, args } => open(out, fun_word(*fun)).and(show_args(out, args.as_slice())),
    }
}

#[cycle(show_conditions)]
fn show_next_cond(out: &mut String, operand: &Cond) -> Shown {
    out.push(' ').and(show_cond(out, operand))
}

#[cycle(show_conditions)]
fn show_last_cond(out: &mut String, operand: &Cond) -> Shown {
    show_next_cond(out, operand).and(out.push(']'))
}

#[cycle(show_conditions)]
pub fn show_cond(out: &mut String, c: &Cond) -> Shown {
    match c {
        Cond::Rel { op, left, right } => open(out, rel_word(*op))
            .and(show_next(out, left))
            .and(show_last(out, right)),
        Cond::Not(inner) => open(out, "not").and(show_last_cond(out, inner.get())),
        Cond::And(left, right) => open(out, "and")
            .and(show_next_cond(out, left.get()))
            .and(show_last_cond(out, right.get())),
        Cond::Or(left, right) => open(out, "or")
            .and(show_next_cond(out, left.get()))
            .and(show_last_cond(out, right.get())),
    }
}

#[cycle(show_adjoints)]
fn show_next_adjoint(out: &mut String, operand: &AExpr) -> Shown {
    out.push(' ').and(show_adjoint(out, operand))
}

#[cycle(show_adjoints)]
fn show_last_adjoint(out: &mut String, operand: &AExpr) -> Shown {
    show_next_adjoint(out, operand).and(out.push(']'))
}

#[cycle(show_adjoints)]
fn show_adjoint_args(out: &mut String, args: &[AExpr]) -> Shown {
    for arg in args {
        show_next_adjoint(out, arg)?;
    }
    out.push(']')
}

#[cycle(show_adjoints)]
pub fn show_adjoint(out: &mut String, e: &AExpr) -> Shown {
    match e {
        AExpr::Lit { value, .. } => show_number(out, *value),
        AExpr::Get(place) => show_place(out, place),
        AExpr::Neg(inner) => open(out, "-").and(show_last_adjoint(out, inner.get())),
        AExpr::Bin { op, left, right } => open(out, op_word(*op))
            .and(show_next_adjoint(out, left.get()))
            .and(show_last_adjoint(out, right.get())),
        AExpr::Pow { base, exponent } => open(out, "**")
            .and(show_next_adjoint(out, base.get()))
            .and(show_exponent(out, *exponent)),
        AExpr::Call { fun, args } => open(out, fun_word(*fun)).and(show_adjoint_args(
            out,
            args.as_slice(),
        )),
        AExpr::Merge {
            first,
            second,
            test,
        } => {
            open(out, "merge")?;
            show_next_adjoint(out, first.get())?;
            show_next_adjoint(out, second.get())?;
            show_last_cond(out, test)
        }
    }
}

/// A refusal with the number of tokens from the refused one on.
pub fn show_failure(out: &mut String, failure: &Failure) -> Shown {
    match failure {
        Failure::Memory => out.push_str("memory"),
        Failure::Refused(fault) => {
            let word = cause_word(fault.cause);
            let left = fault.left;
            write!(out, "{word} {left}")
        }
    }
}
