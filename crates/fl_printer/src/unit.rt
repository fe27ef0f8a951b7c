//! Units as texts.

ghost use Rattle.std.specs.Prelude.{◌≡◌, ◌++◌, ◌∷◌, [], OnOk, IfOk, true};
ghost use Rattle.fl_ast.specs.Tree.{program_tree, stmt_trees};
ghost use Rattle.fl_ast.specs.AdjointTree.{adjoint_tree, astmt_trees};
ghost use Rattle.fl_ast.specs.Readable.{IsReadable};
ghost use Rattle.fl_printer.specs.Lexemes.{IsLexedAs};
ghost use Rattle.fl_ast.specs.ReadableAdjoint.{IsReadableAdjoint};
ghost use Rattle.fl_printer.specs.Small.{are_small};
ghost use Rattle.fl_printer.specs.Rows as spec;
ghost use Rattle.fl_printer.specs.Layout.{rows_text};
ghost use Rattle.fl_printer.specs.Text.{program_text, adjoint_text};

use crate::astmt::ablock;
use crate::decl::decl;
use crate::layout::statement_row;
use crate::spaced::{Spaced, apart, bracketed_names, joined};
use crate::stmt::block;
use fl_ast::{AStmt, Adjoint, Decl, Program, Stmt};
use fl_base::{Items, Memory, Name};
use std::alloc::Global;

fn subroutine_words(
    alloc: Global,
    line: &mut Items<Spaced>,
    name: &Name,
    args: &[Name],
) -> Result<(), Memory>
    ensures { OnOk result (line.new ≡ line.old ++ spec.subroutine_words name.now args.now) }
{
    joined(alloc, line, b"subroutine")?;
    apart(alloc, line, name.bytes())?;
    bracketed_names(alloc, line, args)?;
    Ok(())
}

fn subroutine_row(
    alloc: Global,
    text: &mut Vec<u8>,
    name: &Name,
    args: &[Name],
) -> Result<(), Memory>
    ensures { OnOk result (text.new.items ≡ text.old.items ++ rows_text (spec.subroutine_row name.now args.now ∷ [])) }
{
    let mut line = Items::new(alloc);
    subroutine_words(alloc, &mut line, name, args).and(statement_row(text, 0, line.as_slice()))
}

fn implicit_row(alloc: Global, text: &mut Vec<u8>) -> Result<(), Memory>
    ensures { OnOk result (text.new.items ≡ text.old.items ++ rows_text (spec.implicit_row ∷ [])) }
{
    let mut line = Items::new(alloc);
    joined(alloc, &mut line, b"implicit")
        .and(apart(alloc, &mut line, b"none"))
        .and(statement_row(text, 2, line.as_slice()))
}

fn decl_row(alloc: Global, text: &mut Vec<u8>, declared: &Decl) -> Result<(), Memory>
    ensures { OnOk result (text.new.items ≡ text.old.items ++ rows_text (spec.decl_row declared.now ∷ [])) }
{
    let mut line = Items::new(alloc);
    decl(alloc, &mut line, declared).and(statement_row(text, 2, line.as_slice()))
}

fn decl_rows(alloc: Global, text: &mut Vec<u8>, decls: &[Decl]) -> Result<(), Memory>
    ensures { OnOk result (text.new.items ≡ text.old.items ++ rows_text (spec.decl_rows decls.now)) }
{
    for declared in decls {
        decl_row(alloc, text, declared)?;
    }
    Ok(())
}

fn head_rows(
    alloc: Global,
    text: &mut Vec<u8>,
    name: &Name,
    args: &[Name],
    decls: &[Decl],
) -> Result<(), Memory>
    ensures { OnOk result (text.new.items ≡ text.old.items ++ rows_text (spec.head_rows name.now args.now decls.now)) }
{
    subroutine_row(alloc, text, name, args)?;
    implicit_row(alloc, text)?;
    decl_rows(alloc, text, decls)?;
    Ok(())
}

fn last_words(alloc: Global, line: &mut Items<Spaced>, name: &Name) -> Result<(), Memory>
    ensures { OnOk result (line.new ≡ line.old ++ spec.last_words name.now) }
{
    joined(alloc, line, b"end")?;
    apart(alloc, line, b"subroutine")?;
    apart(alloc, line, name.bytes())?;
    Ok(())
}

fn last_row(alloc: Global, text: &mut Vec<u8>, name: &Name) -> Result<(), Memory>
    ensures { OnOk result (text.new.items ≡ text.old.items ++ rows_text (spec.last_row name.now ∷ [])) }
{
    let mut line = Items::new(alloc);
    last_words(alloc, &mut line, name).and(statement_row(text, 0, line.as_slice()))
}

fn unit_head(
    alloc: Global,
    text: &mut Vec<u8>,
    name: &Name,
    args: &Items<Name>,
    decls: &Items<Decl>,
) -> Result<(), Memory>
    ensures { OnOk result (text.new.items ≡ text.old.items ++ rows_text (spec.head_rows name.now args.now decls.now)) }
{
    head_rows(alloc, text, name, args.as_slice(), decls.as_slice())
}

fn body_rows(alloc: Global, text: &mut Vec<u8>, body: &Items<Stmt>) -> Result<(), Memory>
    ensures { OnOk result (text.new.items ≡ text.old.items ++ rows_text (spec.block_rows 2 (stmt_trees body.now))) }
{
    block(alloc, text, 2, body.as_slice())
}

fn part_rows(alloc: Global, text: &mut Vec<u8>, part: &Items<AStmt>) -> Result<(), Memory>
    ensures { OnOk result (text.new.items ≡ text.old.items ++ rows_text (spec.adjoint_block_rows 2 (astmt_trees part.now))) }
{
    ablock(alloc, text, 2, part.as_slice())
}

fn push_program(alloc: Global, text: &mut Vec<u8>, program: &Program) -> Result<(), Memory>
    ensures { OnOk result (text.new.items ≡ text.old.items ++ program_text (program_tree program.now)) }
{
    unit_head(alloc, text, &program.name, &program.args, &program.decls)?;
    body_rows(alloc, text, &program.body)?;
    last_row(alloc, text, &program.name)?;
    Ok(())
}

fn push_adjoint(alloc: Global, text: &mut Vec<u8>, adjoint: &Adjoint) -> Result<(), Memory>
    ensures { OnOk result (text.new.items ≡ text.old.items ++ adjoint_text (adjoint_tree adjoint.now)) }
{
    unit_head(alloc, text, &adjoint.name, &adjoint.args, &adjoint.decls)?;
    part_rows(alloc, text, &adjoint.forward)?;
    part_rows(alloc, text, &adjoint.reverse)?;
    last_row(alloc, text, &adjoint.name)?;
    Ok(())
}

/// The text of a program.
pub fn print(alloc: Global, program: &Program) -> Result<Vec<u8>, Memory>
    ensures text { IfOk result (λ t. t.items ≡ program_text (program_tree program.now)) }

    // The lexer finds the tokens of its rows in it, wherever its lines are broken.
    ensures lexed { IfOk result (λ t. IsReadable program.now → are_small program.now.decls ≡ true → IsLexedAs t.items (spec.program_rows (program_tree program.now))) }
{
    let mut text = Vec::new(alloc);
    push_program(alloc, &mut text, program)?;
    Ok(text)
}

/// The text of an adjoint: its forward part and then its reverse part.
pub fn print_adjoint(alloc: Global, adjoint: &Adjoint) -> Result<Vec<u8>, Memory>
    ensures text { IfOk result (λ t. t.items ≡ adjoint_text (adjoint_tree adjoint.now)) }
    ensures lexed { IfOk result (λ t. IsReadableAdjoint adjoint.now → are_small adjoint.now.decls ≡ true
        → IsLexedAs t.items (spec.adjoint_unit_rows (adjoint_tree adjoint.now))) }
{
    let mut text = Vec::new(alloc);
    push_adjoint(alloc, &mut text, adjoint)?;
    Ok(text)
}
