//! Statements of programs as rows.

ghost use Rattle.std.specs.Prelude.{◌≡◌, ◌+◌, ◌++◌, ◌∷◌, [], OnOk, codes, false};
ghost use Rattle.fl_ast.specs.Tree.{expr_tree, place_tree, cond_tree, step_tree, stmt_tree, stmt_trees, arm_trees};
ghost use Rattle.fl_printer.specs.Rows as spec;
ghost use Rattle.fl_printer.specs.Layout.{rows_text};

use crate::expr::{expr, place, sum};
use crate::layout::{plus, statement_row};
use crate::row::{LoopHead, atomic_row, else_row, end_row, loop_rows, test_row};
use crate::spaced::{Spaced, apart};
use fl_ast::{Arm, Expr, Place, Stmt};
use fl_base::{Items, Memory};
use std::alloc::Global;

fn value(alloc: Global, line: &mut Items<Spaced>, atomic: bool, value: &Expr) -> Result<(), Memory>
    ensures { OnOk result (line.new ≡ line.old ++ spec.value_words atomic (expr_tree value.now)) }
{
    if atomic {
        sum(alloc, line, false, true, value)
    } else {
        expr(alloc, line, false, true, value)
    }
}

fn assign_words(
    alloc: Global,
    line: &mut Items<Spaced>,
    atomic: bool,
    target: &Place,
    assigned: &Expr,
) -> Result<(), Memory>
    ensures { OnOk result (line.new ≡ line.old ++ spec.assign_words atomic (place_tree target.now) (expr_tree assigned.now)) }
{
    place(alloc, line, false, target)?;
    apart(alloc, line, b"=")?;
    value(alloc, line, atomic, assigned)
}

fn assign_row(
    alloc: Global,
    text: &mut Vec<u8>,
    margin: usize,
    atomic: bool,
    target: &Place,
    value: &Expr,
) -> Result<(), Memory>
    ensures { OnOk result (text.new.items ≡ text.old.items
        ++ rows_text (spec.assign_row margin atomic (place_tree target.now) (expr_tree value.now) ∷ [])) }
{
    let mut line = Items::new(alloc);
    assign_words(alloc, &mut line, atomic, target, value).and(statement_row(
        text,
        margin,
        line.as_slice(),
    ))
}

fn assign(
    alloc: Global,
    text: &mut Vec<u8>,
    margin: usize,
    atomic: bool,
    target: &Place,
    value: &Expr,
) -> Result<(), Memory>
    ensures { OnOk result (text.new.items ≡ text.old.items
        ++ rows_text (spec.assign_rows margin atomic (place_tree target.now) (expr_tree value.now))) }
{
    atomic_row(alloc, text, margin, atomic)?;
    assign_row(alloc, text, margin, atomic, target, value)?;
    Ok(())
}

/// Adds the rows of a statement.
#[cycle(statement_rows)]
pub fn stmt(alloc: Global, text: &mut Vec<u8>, margin: usize, tree: &Stmt) -> Result<(), Memory>
    ensures { OnOk result (text.new.items ≡ text.old.items ++ rows_text (spec.statement_rows margin (stmt_tree tree.now))) }
{
    match tree {
        Stmt::Assign {
            atomic,
            target,
            value,
            ..
        } => assign(alloc, text, margin, *atomic, target, value),
        Stmt::If { arms, other, .. } => {
            all_arms(alloc, text, margin, arms.as_slice())?;
            otherwise(alloc, text, margin, other.as_slice())?;
            end_row(alloc, text, margin, b"if")
        }
        Stmt::Do {
            directive,
            var,
            first,
            last,
            step,
            body,
            ..
        } => {
            let head = LoopHead {
                directive,
                var,
                first,
                last,
                step,
            };
            repeated(alloc, text, margin, &head, body.as_slice())
        }
    }
}

#[cycle(statement_rows)]
fn repeated(
    alloc: Global,
    text: &mut Vec<u8>,
    margin: usize,
    head: &LoopHead<'_>,
    body: &[Stmt],
) -> Result<(), Memory>
    ensures { OnOk result (text.new.items ≡ text.old.items
        ++ rows_text (spec.loop_rows margin head.now.directive.now head.now.var.now (expr_tree head.now.first.now) (expr_tree head.now.last.now) (step_tree head.now.step.now)
        ++ (spec.block_rows (margin + 2) (stmt_trees body.now) ++ spec.end_row margin (codes "do") ∷ []))) }
{
    loop_rows(alloc, text, margin, head)?;
    block(alloc, text, plus(margin, 2)?, body)?;
    end_row(alloc, text, margin, b"do")?;
    Ok(())
}

/// Adds the rows of statements.
#[cycle(statement_rows)]
pub fn block(alloc: Global, text: &mut Vec<u8>, margin: usize, trees: &[Stmt]) -> Result<(), Memory>
    ensures { OnOk result (text.new.items ≡ text.old.items ++ rows_text (spec.block_rows margin (stmt_trees trees.now))) }
{
    for tree in trees {
        stmt(alloc, text, margin, tree)?;
    }
    Ok(())
}

#[cycle(statement_rows)]
fn otherwise(alloc: Global, text: &mut Vec<u8>, margin: usize, trees: &[Stmt]) -> Result<(), Memory>
    ensures { OnOk result (text.new.items ≡ text.old.items ++ rows_text (spec.else_rows margin (stmt_trees trees.now))) }
{
    if trees.is_empty() {
        return Ok(());
    }
    else_row(alloc, text, margin)?;
    block(alloc, text, plus(margin, 2)?, trees)?;
    Ok(())
}

#[cycle(statement_rows)]
fn all_arms(alloc: Global, text: &mut Vec<u8>, margin: usize, arms: &[Arm]) -> Result<(), Memory>
    ensures { OnOk result (text.new.items ≡ text.old.items ++ rows_text (spec.arm_rows margin false (arm_trees arms.now))) }
{
    let mut later = false;
    for arm in arms {
        one_arm(alloc, text, margin, later, arm)?;
        later = true;
    }
    Ok(())
}

#[cycle(statement_rows)]
fn one_arm(
    alloc: Global,
    text: &mut Vec<u8>,
    margin: usize,
    later: bool,
    arm: &Arm,
) -> Result<(), Memory>
    ensures { OnOk result (text.new.items ≡ text.old.items
        ++ rows_text (spec.test_row margin later (cond_tree arm.now.test) ∷ spec.block_rows (margin + 2) (stmt_trees arm.now.body))) }
{
    test_row(alloc, text, margin, later, &arm.test)?;
    block(alloc, text, plus(margin, 2)?, arm.body.as_slice())?;
    Ok(())
}
