//! Statements of adjoints as rows.

ghost use Rattle.std.specs.Prelude.{◌≡◌, ◌+◌, ◌++◌, ◌∷◌, [], OnOk, codes, false};
ghost use Rattle.fl_ast.specs.Tree.{expr_tree, place_tree, cond_tree, step_tree};
ghost use Rattle.fl_ast.specs.AdjointTree.{aexpr_tree, astmt_tree, astmt_trees, aarm_trees};
ghost use Rattle.fl_printer.specs.Rows as spec;
ghost use Rattle.fl_printer.specs.Layout.{rows_text};

use crate::aexpr::{aexpr, asum};
use crate::expr::place;
use crate::layout::{plus, statement_row};
use crate::row::{LoopHead, atomic_row, else_row, end_row, loop_rows, test_row};
use crate::spaced::{Spaced, apart};
use crate::tape::{begin, finish, pop, push};
use fl_ast::{AArm, AExpr, AStmt, Place};
use fl_base::{Items, Memory};
use std::alloc::Global;

fn value(alloc: Global, line: &mut Items<Spaced>, atomic: bool, value: &AExpr) -> Result<(), Memory>
    ensures { OnOk result (line.new ≡ line.old ++ spec.adjoint_value_words atomic (aexpr_tree value.now)) }
{
    if atomic {
        asum(alloc, line, false, true, value)
    } else {
        aexpr(alloc, line, false, true, value)
    }
}

fn assign_words(
    alloc: Global,
    line: &mut Items<Spaced>,
    atomic: bool,
    target: &Place,
    assigned: &AExpr,
) -> Result<(), Memory>
    ensures { OnOk result (line.new ≡ line.old ++ spec.adjoint_assign_words atomic (place_tree target.now) (aexpr_tree assigned.now)) }
{
    place(alloc, line, false, target)?;
    apart(alloc, line, b"=")?;
    value(alloc, line, atomic, assigned)
}

fn assign_row(
    alloc: Global,
    text: &mut Vec<u8>,
    margin: usize,
    atomic: bool,
    target: &Place,
    value: &AExpr,
) -> Result<(), Memory>
    ensures { OnOk result (text.new.items ≡ text.old.items
        ++ rows_text (spec.adjoint_assign_row margin atomic (place_tree target.now) (aexpr_tree value.now) ∷ [])) }
{
    let mut line = Items::new(alloc);
    assign_words(alloc, &mut line, atomic, target, value).and(statement_row(
        text,
        margin,
        line.as_slice(),
    ))
}

fn assign(
    alloc: Global,
    text: &mut Vec<u8>,
    margin: usize,
    atomic: bool,
    target: &Place,
    value: &AExpr,
) -> Result<(), Memory>
    ensures { OnOk result (text.new.items ≡ text.old.items
        ++ rows_text (spec.adjoint_assign_rows margin atomic (place_tree target.now) (aexpr_tree value.now))) }
{
    atomic_row(alloc, text, margin, atomic)?;
    assign_row(alloc, text, margin, atomic, target, value)?;
    Ok(())
}

/// Adds the rows of a statement.
#[cycle(adjoint_rows)]
pub fn astmt(alloc: Global, text: &mut Vec<u8>, margin: usize, tree: &AStmt) -> Result<(), Memory>
    ensures { OnOk result (text.new.items ≡ text.old.items ++ rows_text (spec.adjoint_rows margin (astmt_tree tree.now))) }
{
    match tree {
        AStmt::Assign {
            atomic,
            target,
            value,
            ..
        } => assign(alloc, text, margin, *atomic, target, value),
        AStmt::If { arms, other, .. } => {
            all_arms(alloc, text, margin, arms.as_slice())?;
            otherwise(alloc, text, margin, other.as_slice())?;
            end_row(alloc, text, margin, b"if")
        }
        AStmt::Do {
            directive,
            var,
            first,
            last,
            step,
            body,
            ..
        } => {
            let head = LoopHead {
                directive,
                var,
                first,
                last,
                step,
            };
            repeated(alloc, text, margin, &head, body.as_slice())
        }
        AStmt::Push { key, value, .. } => push(alloc, text, margin, key, value),
        AStmt::Pop { key, target, .. } => pop(alloc, text, margin, key, target),
        AStmt::Open { count, .. } => begin(alloc, text, margin, count),
        AStmt::Close { .. } => finish(alloc, text, margin),
    }
}

#[cycle(adjoint_rows)]
fn repeated(
    alloc: Global,
    text: &mut Vec<u8>,
    margin: usize,
    head: &LoopHead<'_>,
    body: &[AStmt],
) -> Result<(), Memory>
    ensures { OnOk result (text.new.items ≡ text.old.items
        ++ rows_text (spec.loop_rows margin head.now.directive.now head.now.var.now (expr_tree head.now.first.now) (expr_tree head.now.last.now) (step_tree head.now.step.now)
        ++ (spec.adjoint_block_rows (margin + 2) (astmt_trees body.now) ++ spec.end_row margin (codes "do") ∷ []))) }
{
    loop_rows(alloc, text, margin, head)?;
    ablock(alloc, text, plus(margin, 2)?, body)?;
    end_row(alloc, text, margin, b"do")?;
    Ok(())
}

/// Adds the rows of statements.
#[cycle(adjoint_rows)]
pub fn ablock(
    alloc: Global,
    text: &mut Vec<u8>,
    margin: usize,
    trees: &[AStmt],
) -> Result<(), Memory>
    ensures { OnOk result (text.new.items ≡ text.old.items ++ rows_text (spec.adjoint_block_rows margin (astmt_trees trees.now))) }
{
    for tree in trees {
        astmt(alloc, text, margin, tree)?;
    }
    Ok(())
}

#[cycle(adjoint_rows)]
fn otherwise(
    alloc: Global,
    text: &mut Vec<u8>,
    margin: usize,
    trees: &[AStmt],
) -> Result<(), Memory>
    ensures { OnOk result (text.new.items ≡ text.old.items ++ rows_text (spec.adjoint_else_rows margin (astmt_trees trees.now))) }
{
    if trees.is_empty() {
        return Ok(());
    }
    else_row(alloc, text, margin)?;
    ablock(alloc, text, plus(margin, 2)?, trees)?;
    Ok(())
}

#[cycle(adjoint_rows)]
fn all_arms(alloc: Global, text: &mut Vec<u8>, margin: usize, arms: &[AArm]) -> Result<(), Memory>
    ensures { OnOk result (text.new.items ≡ text.old.items ++ rows_text (spec.adjoint_arm_rows margin false (aarm_trees arms.now))) }
{
    let mut later = false;
    for arm in arms {
        one_arm(alloc, text, margin, later, arm)?;
        later = true;
    }
    Ok(())
}

#[cycle(adjoint_rows)]
fn one_arm(
    alloc: Global,
    text: &mut Vec<u8>,
    margin: usize,
    later: bool,
    arm: &AArm,
) -> Result<(), Memory>
    ensures { OnOk result (text.new.items ≡ text.old.items
        ++ rows_text (spec.test_row margin later (cond_tree arm.now.test) ∷ spec.adjoint_block_rows (margin + 2) (astmt_trees arm.now.body))) }
{
    test_row(alloc, text, margin, later, &arm.test)?;
    ablock(alloc, text, plus(margin, 2)?, arm.body.as_slice())?;
    Ok(())
}
