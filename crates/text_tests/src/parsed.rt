//! What a text is read as.

use crate::rows::{Shown, expect, push_bytes};
use fl_ast::{Name, Program};
use fl_lexer::lex;
use fl_parser::{ClauseError, ParseError, parse};
use std::alloc::Global;
use std::fmt::Write;
use std::process::Abort;

fn show_word(out: &mut String, cause: &str, line: u32, word: &Name) -> Shown {
    write!(out, "{cause} {line} ")?;
    push_bytes(out, word.bytes())
}

fn show_clause(out: &mut String, error: &ClauseError) -> Shown {
    match error {
        ClauseError::Unknown { line, word } => show_word(out, "unknown", *line, word),
        ClauseError::Twice { line, name } => show_word(out, "twice", *line, name),
        ClauseError::Form { line } => write!(out, "form {line}"),
        ClauseError::Memory => out.push_str("memory"),
    }
}

/// The cause and the place of a refusal. That of a syntax error is its line and column.
pub(crate) fn show_refusal(out: &mut String, error: &ParseError) -> Shown {
    match error {
        ParseError::Expected { line, col } => write!(out, "syntax {line}:{col}"),
        ParseError::Construct { line, which } => show_word(out, "construct", *line, which),
        ParseError::Clause(clause) => show_clause(out, clause),
        ParseError::Deep { line } => write!(out, "deep {line}"),
        ParseError::Many { line } => write!(out, "many {line}"),
        ParseError::Memory => out.push_str("memory"),
    }
}

fn show(out: &mut String, outcome: &Result<Program, ParseError>) -> Shown {
    match outcome {
        Ok(_) => out.push_str("read"),
        Err(error) => show_refusal(out, error),
    }
}

fn tell(out: &mut String, alloc: Global, text: &str) -> Shown {
    if text.len() > 2_000_000_000 {
        return Ok(());
    }
    match lex(alloc, text.as_bytes()) {
        Ok(tokens) => show(out, &parse(alloc, text.as_bytes(), &tokens)),
        Err(_) => out.push_str("no tokens"),
    }
}

/// What a text is read as is what is wanted, `read` where it is a program.
pub(crate) fn expect_read<R: Abort>(rt: &R, alloc: Global, text: &str, wanted: &str) -> Shown {
    let mut told = String::new(alloc);
    tell(&mut told, alloc, text)?;
    expect(rt, told.as_str(), wanted, text);
    Ok(())
}

fn expect_lines<R: Abort>(rt: &R, alloc: Global, lines: &str, wanted: &str) -> Shown {
    let mut text = String::new(alloc);
    write!(&mut text, "subroutine s\n{lines}end\n")?;
    expect_read(rt, alloc, text.as_str(), wanted)
}

/// The same of each row's lines between the first and the last of a unit.
pub(crate) fn expect_all_lines<R: Abort>(rt: &R, alloc: Global, rows: &[(&str, &str)]) -> Shown {
    for (lines, wanted) in rows {
        expect_lines(rt, alloc, lines, wanted)?;
    }
    Ok(())
}

/// The same of each row's text.
pub(crate) fn expect_all_read<R: Abort>(rt: &R, alloc: Global, rows: &[(&str, &str)]) -> Shown {
    for (text, wanted) in rows {
        expect_read(rt, alloc, text, wanted)?;
    }
    Ok(())
}
