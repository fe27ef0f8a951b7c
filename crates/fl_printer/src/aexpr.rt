//! Expressions of adjoints as tokens.

ghost use Rattle.std.specs.Prelude.{◌≡◌, ◌++◌, ◌∷◌, [], OnOk, false, true};
ghost use Rattle.fl_ast.specs.Tree.{cond_tree};
ghost use Rattle.fl_ast.specs.AdjointTree.{aexpr_tree, aexpr_trees};
ghost use Rattle.fl_printer.specs.Words as spec;

use crate::expr::{cond, literal, place, raised, sign};
use crate::sign::{function_text, operator_text};
use crate::spaced::{Spaced, close, comma, joined, open, word};
use fl_ast::{AExpr, BinOp, Cond};
use fl_base::{Items, Memory};
use std::alloc::Global;

/// Adds an expression, as an operand or whole.
#[cycle(adjoint_words)]
pub fn aexpr(
    alloc: Global,
    line: &mut Items<Spaced>,
    operand: bool,
    blank: bool,
    tree: &AExpr,
) -> Result<(), Memory>
    ensures { OnOk result (line.new ≡ line.old ++ spec.adjoint_words operand blank (aexpr_tree tree.now)) }
{
    match tree {
        AExpr::Lit { value, kind } => literal(alloc, line, blank, *value, *kind),
        AExpr::Get(found) => place(alloc, line, blank, found),
        AExpr::Neg(inner) => {
            sign(alloc, line, operand, blank).and(right_side(alloc, line, operand, inner.get()))
        }
        AExpr::Bin { op, left, right } => left_side(alloc, line, operand, blank, left.get())
            .and(joined(alloc, line, operator_text(*op)))
            .and(right_side(alloc, line, operand, right.get())),
        AExpr::Pow { base, exponent } => left_side(alloc, line, operand, blank, base.get()).and(
            raised(alloc, line, operand, *exponent),
        ),
        AExpr::Call { fun, args } => word(alloc, line, blank, function_text(*fun)).and(abracketed(
            alloc,
            line,
            args.as_slice(),
        )),
        AExpr::Merge {
            first,
            second,
            test,
        } => {
            merged(alloc, line, blank, first.get())
                .and(otherwise(alloc, line, second.get()))
                .and(tested(alloc, line, test))
        }
    }
}

/// Adds the left operand of an operation.
#[cycle(adjoint_words)]
fn left_side(
    alloc: Global,
    line: &mut Items<Spaced>,
    operand: bool,
    blank: bool,
    left: &AExpr,
) -> Result<(), Memory>
    ensures { OnOk result (line.new ≡ line.old
        ++ (spec.opening operand blank ++ spec.adjoint_words true (spec.inside operand blank) (aexpr_tree left.now))) }
{
    open(alloc, line, operand, blank).and(aexpr(alloc, line, true, blank && !operand, left))
}

/// Adds its right operand.
#[cycle(adjoint_words)]
fn right_side(
    alloc: Global,
    line: &mut Items<Spaced>,
    operand: bool,
    right: &AExpr,
) -> Result<(), Memory>
    ensures { OnOk result (line.new ≡ line.old ++ (spec.adjoint_words true false (aexpr_tree right.now) ++ spec.closing operand)) }
{
    aexpr(alloc, line, true, false, right).and(close(alloc, line, operand))
}

/// Adds the beginning of a `merge` with its first argument.
#[cycle(adjoint_words)]
fn merged(alloc: Global, line: &mut Items<Spaced>, blank: bool, first: &AExpr) -> Result<(), Memory>
    ensures { OnOk result (line.new ≡ line.old ++ spec.merged_words blank (aexpr_tree first.now)) }
{
    word(alloc, line, blank, b"merge")
        .and(joined(alloc, line, b"("))
        .and(aexpr(alloc, line, false, false, first))
}

/// Adds the second argument of a `merge`.
#[cycle(adjoint_words)]
fn otherwise(alloc: Global, line: &mut Items<Spaced>, second: &AExpr) -> Result<(), Memory>
    ensures { OnOk result (line.new ≡ line.old ++ spec.otherwise_words (aexpr_tree second.now)) }
{
    joined(alloc, line, b",").and(aexpr(alloc, line, false, true, second))
}

/// Adds its condition and its end.
fn tested(alloc: Global, line: &mut Items<Spaced>, test: &Cond) -> Result<(), Memory>
    ensures { OnOk result (line.new ≡ line.old ++ spec.tested_words (cond_tree test.now)) }
{
    joined(alloc, line, b",")
        .and(cond(alloc, line, false, true, test))
        .and(joined(alloc, line, b")"))
}

/// Adds expressions in brackets.
#[cycle(adjoint_words)]
fn abracketed(alloc: Global, line: &mut Items<Spaced>, trees: &[AExpr]) -> Result<(), Memory>
    ensures { OnOk result (line.new ≡ line.old ++ spec.bracketed_adjoints (aexpr_trees trees.now)) }
{
    joined(alloc, line, b"(")
        .and(aexprs(alloc, line, trees))
        .and(joined(alloc, line, b")"))
}

#[cycle(adjoint_words)]
fn aexprs(alloc: Global, line: &mut Items<Spaced>, trees: &[AExpr]) -> Result<(), Memory>
    ensures { OnOk result (line.new ≡ line.old ++ spec.adjoints_from false (aexpr_trees trees.now)) }
{
    let mut later = false;
    for tree in trees {
        comma(alloc, line, later).and(aexpr(alloc, line, false, later, tree))?;
        later = true;
    }
    Ok(())
}

/// Adds the value of an atomic update.
pub fn asum(
    alloc: Global,
    line: &mut Items<Spaced>,
    operand: bool,
    blank: bool,
    tree: &AExpr,
) -> Result<(), Memory>
    ensures { OnOk result (line.new ≡ line.old ++ spec.adjoint_sum_words operand blank (aexpr_tree tree.now)) }
{
    match tree {
        AExpr::Bin {
            op: BinOp::Add,
            left,
            right,
        } => {
            asum(alloc, line, true, blank, left.get())
                .and(joined(alloc, line, b"+"))
                .and(aexpr(alloc, line, true, false, right.get()))
        }
        _ => aexpr(alloc, line, operand, blank, tree),
    }
}
