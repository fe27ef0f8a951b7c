//! Rows that statements of programs and adjoints have alike.

ghost use Rattle.std.specs.Prelude.{◌≡◌, ◌++◌, ◌∷◌, [], OnOk};
ghost use Rattle.fl_ast.specs.Tree.{expr_tree, step_tree, cond_tree};
ghost use Rattle.fl_printer.specs.Rows as spec;
ghost use Rattle.fl_printer.specs.Layout.{rows_text};

use crate::directive::clauses;
use crate::expr::{cond, expr};
use crate::layout::{directive_row, statement_row};
use crate::spaced::{Spaced, apart, joined};
use fl_ast::{Cond, Directive, Expr};
use fl_base::{Items, Memory, Name};
use std::alloc::Global;

/// Adds the directive of an atomic statement.
pub fn atomic_row(
    alloc: Global,
    text: &mut Vec<u8>,
    margin: usize,
    atomic: bool,
) -> Result<(), Memory>
    ensures { OnOk result (text.new.items ≡ text.old.items ++ rows_text (spec.atomic_rows margin atomic)) }
{
    if !atomic {
        return Ok(());
    }
    let mut line = Items::new(alloc);
    apart(alloc, &mut line, b"atomic")?;
    directive_row(text, margin, line.as_slice())?;
    Ok(())
}

fn parallel_words(
    alloc: Global,
    line: &mut Items<Spaced>,
    directive: &Directive,
) -> Result<(), Memory>
    ensures { OnOk result (line.new ≡ line.old ++ spec.parallel_words directive.now) }
{
    apart(alloc, line, b"parallel")
        .and(apart(alloc, line, b"do"))
        .and(clauses(alloc, line, directive))
}

/// Adds the directive of a parallel loop.
pub fn parallel_row(
    alloc: Global,
    text: &mut Vec<u8>,
    margin: usize,
    directive: &Option<Directive>,
) -> Result<(), Memory>
    ensures { OnOk result (text.new.items ≡ text.old.items ++ rows_text (spec.parallel_rows margin directive.now)) }
{
    match directive {
        None => Ok(()),
        Some(found) => {
            let mut line = Items::new(alloc);
            parallel_words(alloc, &mut line, found)?;
            directive_row(text, margin, line.as_slice())?;
            Ok(())
        }
    }
}

fn step(alloc: Global, line: &mut Items<Spaced>, step: &Option<Expr>) -> Result<(), Memory>
    ensures { OnOk result (line.new ≡ line.old ++ spec.step_words (step_tree step.now)) }
{
    match step {
        None => Ok(()),
        Some(tree) => joined(alloc, line, b",").and(expr(alloc, line, false, true, tree)),
    }
}

fn bounds(
    alloc: Global,
    line: &mut Items<Spaced>,
    first: &Expr,
    last: &Expr,
    by: &Option<Expr>,
) -> Result<(), Memory>
    ensures { OnOk result (line.new ≡ line.old ++ spec.bounds_words (expr_tree first.now) (expr_tree last.now) (step_tree by.now)) }
{
    expr(alloc, line, false, true, first)
        .and(joined(alloc, line, b","))
        .and(expr(alloc, line, false, true, last))
        .and(step(alloc, line, by))
}

fn variable(alloc: Global, line: &mut Items<Spaced>, var: &Name) -> Result<(), Memory>
    ensures { OnOk result (line.new ≡ line.old ++ spec.variable_words var.now) }
{
    joined(alloc, line, b"do")
        .and(apart(alloc, line, var.bytes()))
        .and(apart(alloc, line, b"="))
}

fn do_row(
    alloc: Global,
    text: &mut Vec<u8>,
    margin: usize,
    var: &Name,
    first: &Expr,
    last: &Expr,
    by: &Option<Expr>,
) -> Result<(), Memory>
    ensures { OnOk result (text.new.items ≡ text.old.items
        ++ rows_text (spec.do_row margin var.now (expr_tree first.now) (expr_tree last.now) (step_tree by.now) ∷ [])) }
{
    let mut line = Items::new(alloc);
    variable(alloc, &mut line, var)
        .and(bounds(alloc, &mut line, first, last, by))
        .and(statement_row(text, margin, line.as_slice()))
}

/// A loop up to its body.
#[derive(Drop)]
pub struct LoopHead<'a> {
    pub directive: &'a Option<Directive>,
    pub var: &'a Name,
    pub first: &'a Expr,
    pub last: &'a Expr,
    pub step: &'a Option<Expr>,
}

/// Adds the rows of a loop up to its body.
pub fn loop_rows(
    alloc: Global,
    text: &mut Vec<u8>,
    margin: usize,
    head: &LoopHead<'_>,
) -> Result<(), Memory>
    ensures { OnOk result (text.new.items ≡ text.old.items
        ++ rows_text (spec.loop_rows margin head.now.directive.now head.now.var.now (expr_tree head.now.first.now) (expr_tree head.now.last.now) (step_tree head.now.step.now))) }
{
    parallel_row(alloc, text, margin, head.directive)?;
    do_row(
        alloc, text, margin, head.var, head.first, head.last, head.step,
    )?;
    Ok(())
}

fn else_if(alloc: Global, line: &mut Items<Spaced>, later: bool) -> Result<(), Memory>
    ensures { OnOk result (line.new ≡ line.old ++ spec.else_if later) }
{
    if later {
        joined(alloc, line, b"else").and(apart(alloc, line, b"if"))
    } else {
        joined(alloc, line, b"if")
    }
}

fn test_words(
    alloc: Global,
    line: &mut Items<Spaced>,
    later: bool,
    test: &Cond,
) -> Result<(), Memory>
    ensures { OnOk result (line.new ≡ line.old ++ spec.test_words later (cond_tree test.now)) }
{
    else_if(alloc, line, later)
        .and(apart(alloc, line, b"("))
        .and(cond(alloc, line, false, false, test))
        .and(joined(alloc, line, b")"))
        .and(apart(alloc, line, b"then"))
}

/// Adds the row of an arm's condition.
pub fn test_row(
    alloc: Global,
    text: &mut Vec<u8>,
    margin: usize,
    later: bool,
    test: &Cond,
) -> Result<(), Memory>
    ensures { OnOk result (text.new.items ≡ text.old.items ++ rows_text (spec.test_row margin later (cond_tree test.now) ∷ [])) }
{
    let mut line = Items::new(alloc);
    test_words(alloc, &mut line, later, test).and(statement_row(text, margin, line.as_slice()))
}

/// Adds the row of an `else`.
pub fn else_row(alloc: Global, text: &mut Vec<u8>, margin: usize) -> Result<(), Memory>
    ensures { OnOk result (text.new.items ≡ text.old.items ++ rows_text (spec.else_row margin ∷ [])) }
{
    let mut line = Items::new(alloc);
    joined(alloc, &mut line, b"else").and(statement_row(text, margin, line.as_slice()))
}

/// Adds the last row of a block, as `end do`.
pub fn end_row(alloc: Global, text: &mut Vec<u8>, margin: usize, block: &[u8]) -> Result<(), Memory>
    ensures { OnOk result (text.new.items ≡ text.old.items ++ rows_text (spec.end_row margin block.now ∷ [])) }
{
    let mut line = Items::new(alloc);
    joined(alloc, &mut line, b"end")
        .and(apart(alloc, &mut line, block))
        .and(statement_row(text, margin, line.as_slice()))
}
