//! Expressions and conditions as tokens.

ghost use Rattle.std.specs.Prelude.{◌≡◌, ◌++◌, ◌∷◌, [], OnOk, codes, false, true};
ghost use Rattle.fl_ast.specs.Tree.{expr_tree, place_tree, expr_trees, cond_tree};
ghost use Rattle.fl_printer.specs.Words as spec;

use crate::sign::{function_text, operator_text, relation_text, suffix_text};
use crate::spaced::{Spaced, apart, close, comma, joined, number, open, plain_number, word};
use fl_ast::{BinOp, Cond, Expr, Kind, Place};
use fl_base::{Items, Memory};
use std::alloc::Global;

/// Adds a literal; one of data carries its suffix.
pub fn literal(
    alloc: Global,
    line: &mut Items<Spaced>,
    blank: bool,
    value: u64,
    kind: Kind,
) -> Result<(), Memory>
    ensures { OnOk result (line.new ≡ line.old ++ spec.spaced blank (spec.literal_text value kind) ∷ []) }
{
    number(alloc, line, blank, value, suffix_text(kind))
}

/// Adds the sign of a negation.
pub fn sign(
    alloc: Global,
    line: &mut Items<Spaced>,
    operand: bool,
    blank: bool,
) -> Result<(), Memory>
    ensures { OnOk result (line.new ≡ line.old ++ spec.sign_words operand blank) }
{
    open(alloc, line, operand, blank).and(word(alloc, line, blank && !operand, b"-"))
}

/// Adds an exponent.
pub fn raised(
    alloc: Global,
    line: &mut Items<Spaced>,
    operand: bool,
    exponent: u32,
) -> Result<(), Memory>
    ensures { OnOk result (line.new ≡ line.old ++ spec.raised_words operand exponent) }
{
    joined(alloc, line, b"**")
        .and(plain_number(alloc, line, false, exponent))
        .and(close(alloc, line, operand))
}

/// Adds an expression, as an operand or whole.
#[cycle(expr_words)]
pub fn expr(
    alloc: Global,
    line: &mut Items<Spaced>,
    operand: bool,
    blank: bool,
    tree: &Expr,
) -> Result<(), Memory>
    ensures { OnOk result (line.new ≡ line.old ++ spec.expression_words operand blank (expr_tree tree.now)) }
{
    match tree {
        Expr::Lit { value, kind } => literal(alloc, line, blank, *value, *kind),
        Expr::Get(found) => place(alloc, line, blank, found),
        Expr::Neg(inner) => {
            sign(alloc, line, operand, blank).and(right_side(alloc, line, operand, inner.get()))
        }
        Expr::Bin { op, left, right } => left_side(alloc, line, operand, blank, left.get())
            .and(joined(alloc, line, operator_text(*op)))
            .and(right_side(alloc, line, operand, right.get())),
        Expr::Pow { base, exponent } => left_side(alloc, line, operand, blank, base.get()).and(
            raised(alloc, line, operand, *exponent),
        ),
        Expr::Call { fun, args } => word(alloc, line, blank, function_text(*fun)).and(bracketed(
            alloc,
            line,
            args.as_slice(),
        )),
    }
}

/// Adds the left operand of an operation.
#[cycle(expr_words)]
fn left_side(
    alloc: Global,
    line: &mut Items<Spaced>,
    operand: bool,
    blank: bool,
    left: &Expr,
) -> Result<(), Memory>
    ensures { OnOk result (line.new ≡ line.old
        ++ (spec.opening operand blank ++ spec.expression_words true (spec.inside operand blank) (expr_tree left.now))) }
{
    open(alloc, line, operand, blank).and(expr(alloc, line, true, blank && !operand, left))
}

/// Adds its right operand.
#[cycle(expr_words)]
fn right_side(
    alloc: Global,
    line: &mut Items<Spaced>,
    operand: bool,
    right: &Expr,
) -> Result<(), Memory>
    ensures { OnOk result (line.new ≡ line.old ++ (spec.expression_words true false (expr_tree right.now) ++ spec.closing operand)) }
{
    expr(alloc, line, true, false, right).and(close(alloc, line, operand))
}

/// Adds a place.
#[cycle(expr_words)]
pub fn place(
    alloc: Global,
    line: &mut Items<Spaced>,
    blank: bool,
    place: &Place,
) -> Result<(), Memory>
    ensures { OnOk result (line.new ≡ line.old ++ spec.place_words blank (place_tree place.now)) }
{
    word(alloc, line, blank, place.name.bytes()).and(subscripts(
        alloc,
        line,
        place.subscripts.as_slice(),
    ))
}

/// Adds subscripts; a scalar has none.
#[cycle(expr_words)]
fn subscripts(alloc: Global, line: &mut Items<Spaced>, trees: &[Expr]) -> Result<(), Memory>
    ensures { OnOk result (line.new ≡ line.old ++ spec.subscript_words (expr_trees trees.now)) }
{
    if trees.is_empty() {
        return Ok(());
    }
    bracketed(alloc, line, trees)?;
    Ok(())
}

/// Adds expressions, with commas between them.
#[cycle(expr_words)]
fn exprs(alloc: Global, line: &mut Items<Spaced>, trees: &[Expr]) -> Result<(), Memory>
    ensures { OnOk result (line.new ≡ line.old ++ spec.expressions_from false (expr_trees trees.now)) }
{
    let mut later = false;
    for tree in trees {
        comma(alloc, line, later).and(expr(alloc, line, false, later, tree))?;
        later = true;
    }
    Ok(())
}

/// Adds expressions in brackets.
#[cycle(expr_words)]
fn bracketed(alloc: Global, line: &mut Items<Spaced>, trees: &[Expr]) -> Result<(), Memory>
    ensures { OnOk result (line.new ≡ line.old ++ spec.bracketed_words (expr_trees trees.now)) }
{
    joined(alloc, line, b"(")
        .and(exprs(alloc, line, trees))
        .and(joined(alloc, line, b")"))
}

/// Adds the value of an atomic update.
pub fn sum(
    alloc: Global,
    line: &mut Items<Spaced>,
    operand: bool,
    blank: bool,
    tree: &Expr,
) -> Result<(), Memory>
    ensures { OnOk result (line.new ≡ line.old ++ spec.sum_words operand blank (expr_tree tree.now)) }
{
    match tree {
        Expr::Bin {
            op: BinOp::Add,
            left,
            right,
        } => {
            sum(alloc, line, true, blank, left.get())
                .and(joined(alloc, line, b"+"))
                .and(expr(alloc, line, true, false, right.get()))
        }
        _ => expr(alloc, line, operand, blank, tree),
    }
}

/// Adds the right operand of a relation.
fn compared(
    alloc: Global,
    line: &mut Items<Spaced>,
    operand: bool,
    right: &Expr,
) -> Result<(), Memory>
    ensures { OnOk result (line.new ≡ line.old ++ (spec.expression_words true true (expr_tree right.now) ++ spec.closing operand)) }
{
    expr(alloc, line, true, true, right).and(close(alloc, line, operand))
}

/// Adds the word of a denial.
fn denial(alloc: Global, line: &mut Items<Spaced>, operand: bool, blank: bool) -> Result<(), Memory>
    ensures { OnOk result (line.new ≡ line.old
        ++ (spec.opening operand blank ++ spec.spaced (spec.inside operand blank) (codes ".not.") ∷ [])) }
{
    open(alloc, line, operand, blank).and(word(alloc, line, blank && !operand, b".not."))
}

/// Adds a condition.
#[cycle(cond_words)]
pub fn cond(
    alloc: Global,
    line: &mut Items<Spaced>,
    operand: bool,
    blank: bool,
    tree: &Cond,
) -> Result<(), Memory>
    ensures { OnOk result (line.new ≡ line.old ++ spec.condition_words operand blank (cond_tree tree.now)) }
{
    match tree {
        Cond::Rel { op, left, right } => left_side(alloc, line, operand, blank, left)
            .and(apart(alloc, line, relation_text(*op)))
            .and(compared(alloc, line, operand, right)),
        Cond::Not(inner) => denial(alloc, line, operand, blank).and(right_cond(
            alloc,
            line,
            operand,
            inner.get(),
        )),
        Cond::And(left, right) => left_cond(alloc, line, operand, blank, left.get())
            .and(apart(alloc, line, b".and."))
            .and(right_cond(alloc, line, operand, right.get())),
        Cond::Or(left, right) => left_cond(alloc, line, operand, blank, left.get())
            .and(apart(alloc, line, b".or."))
            .and(right_cond(alloc, line, operand, right.get())),
    }
}

/// Adds the left operand of a conjunction or a disjunction.
#[cycle(cond_words)]
fn left_cond(
    alloc: Global,
    line: &mut Items<Spaced>,
    operand: bool,
    blank: bool,
    left: &Cond,
) -> Result<(), Memory>
    ensures { OnOk result (line.new ≡ line.old
        ++ (spec.opening operand blank ++ spec.condition_words true (spec.inside operand blank) (cond_tree left.now))) }
{
    open(alloc, line, operand, blank).and(cond(alloc, line, true, blank && !operand, left))
}

/// Adds its right operand, or that of a denial.
#[cycle(cond_words)]
fn right_cond(
    alloc: Global,
    line: &mut Items<Spaced>,
    operand: bool,
    right: &Cond,
) -> Result<(), Memory>
    ensures { OnOk result (line.new ≡ line.old ++ (spec.condition_words true true (cond_tree right.now) ++ spec.closing operand)) }
{
    cond(alloc, line, true, true, right).and(close(alloc, line, operand))
}
