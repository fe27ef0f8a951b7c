//! Calls of the tape as rows.

ghost use Rattle.std.specs.Prelude.{◌≡◌, ◌++◌, ◌∷◌, [], OnOk, codes, false};
ghost use Rattle.fl_ast.specs.Tree.{expr_tree, place_tree};
ghost use Rattle.fl_printer.specs.Rows as spec;
ghost use Rattle.fl_printer.specs.Layout.{rows_text};

use crate::expr::{expr, place};
use crate::layout::statement_row;
use crate::spaced::{Spaced, apart, joined};
use fl_ast::{Expr, Place};
use fl_base::{Items, Memory};
use std::alloc::Global;

fn call(alloc: Global, line: &mut Items<Spaced>, name: &[u8]) -> Result<(), Memory>
    ensures { OnOk result (line.new ≡ line.old ++ spec.call_words name.now) }
{
    joined(alloc, line, b"call")
        .and(apart(alloc, line, name))
        .and(joined(alloc, line, b"("))
}

fn pushed_words(
    alloc: Global,
    line: &mut Items<Spaced>,
    key: &Expr,
    value: &Expr,
) -> Result<(), Memory>
    ensures { OnOk result (line.new ≡ line.old ++ spec.pushed_words (expr_tree key.now) (expr_tree value.now)) }
{
    expr(alloc, line, false, false, key)
        .and(joined(alloc, line, b","))
        .and(expr(alloc, line, false, true, value))
        .and(joined(alloc, line, b")"))
}

fn push_words(
    alloc: Global,
    line: &mut Items<Spaced>,
    key: &Expr,
    value: &Expr,
) -> Result<(), Memory>
    ensures { OnOk result (line.new ≡ line.old ++ spec.push_words (expr_tree key.now) (expr_tree value.now)) }
{
    call(alloc, line, b"formad_push")?;
    pushed_words(alloc, line, key, value)?;
    Ok(())
}

/// Adds the row of a push.
pub fn push(
    alloc: Global,
    text: &mut Vec<u8>,
    margin: usize,
    key: &Expr,
    value: &Expr,
) -> Result<(), Memory>
    ensures { OnOk result (text.new.items ≡ text.old.items
        ++ rows_text (spec.push_row margin (expr_tree key.now) (expr_tree value.now) ∷ [])) }
{
    let mut line = Items::new(alloc);
    push_words(alloc, &mut line, key, value).and(statement_row(text, margin, line.as_slice()))
}

fn popped_words(
    alloc: Global,
    line: &mut Items<Spaced>,
    key: &Expr,
    target: &Place,
) -> Result<(), Memory>
    ensures { OnOk result (line.new ≡ line.old ++ spec.popped_words (expr_tree key.now) (place_tree target.now)) }
{
    expr(alloc, line, false, false, key)
        .and(joined(alloc, line, b","))
        .and(place(alloc, line, true, target))
        .and(joined(alloc, line, b")"))
}

fn pop_words(
    alloc: Global,
    line: &mut Items<Spaced>,
    key: &Expr,
    target: &Place,
) -> Result<(), Memory>
    ensures { OnOk result (line.new ≡ line.old ++ spec.pop_words (expr_tree key.now) (place_tree target.now)) }
{
    call(alloc, line, b"formad_pop")?;
    popped_words(alloc, line, key, target)?;
    Ok(())
}

/// Adds the row of a pop.
pub fn pop(
    alloc: Global,
    text: &mut Vec<u8>,
    margin: usize,
    key: &Expr,
    target: &Place,
) -> Result<(), Memory>
    ensures { OnOk result (text.new.items ≡ text.old.items
        ++ rows_text (spec.pop_row margin (expr_tree key.now) (place_tree target.now) ∷ [])) }
{
    let mut line = Items::new(alloc);
    pop_words(alloc, &mut line, key, target).and(statement_row(text, margin, line.as_slice()))
}

fn opened_words(alloc: Global, line: &mut Items<Spaced>, count: &Expr) -> Result<(), Memory>
    ensures { OnOk result (line.new ≡ line.old ++ spec.opened_words (expr_tree count.now)) }
{
    expr(alloc, line, false, false, count).and(joined(alloc, line, b")"))
}

fn open_words(alloc: Global, line: &mut Items<Spaced>, count: &Expr) -> Result<(), Memory>
    ensures { OnOk result (line.new ≡ line.old ++ spec.open_words (expr_tree count.now)) }
{
    call(alloc, line, b"formad_open")?;
    opened_words(alloc, line, count)?;
    Ok(())
}

/// Adds the row that opens a list of tapes.
pub fn begin(alloc: Global, text: &mut Vec<u8>, margin: usize, count: &Expr) -> Result<(), Memory>
    ensures { OnOk result (text.new.items ≡ text.old.items ++ rows_text (spec.open_row margin (expr_tree count.now) ∷ [])) }
{
    let mut line = Items::new(alloc);
    open_words(alloc, &mut line, count).and(statement_row(text, margin, line.as_slice()))
}

fn close_words(alloc: Global, line: &mut Items<Spaced>) -> Result<(), Memory>
    ensures { OnOk result (line.new ≡ line.old ++ (spec.call_words (codes "formad_close") ++ spec.close_bracket)) }
{
    call(alloc, line, b"formad_close").and(joined(alloc, line, b")"))
}

/// Adds the row that closes it.
pub fn finish(alloc: Global, text: &mut Vec<u8>, margin: usize) -> Result<(), Memory>
    ensures { OnOk result (text.new.items ≡ text.old.items ++ rows_text (spec.close_row margin ∷ [])) }
{
    let mut line = Items::new(alloc);
    close_words(alloc, &mut line).and(statement_row(text, margin, line.as_slice()))
}
