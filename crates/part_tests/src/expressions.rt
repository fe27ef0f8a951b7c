//! Expressions of an adjoint's text.

use crate::shown::{show_adjoint, show_failure};
use crate::texts::{Shown, expect};
use adjoint_expressions::{AMeasured, adjoint_expr};
use fl_lexer::lex;
use parsing::{Cursor, Failure};
use std::alloc::Global;
use std::fmt::Write;
use std::process::Abort;

fn show(out: &mut String, outcome: &Result<AMeasured, Failure>, left: usize) -> Shown {
    match outcome {
        Ok(found) => {
            show_adjoint(out, found.expr.get())?;
            write!(out, " {left}")
        }
        Err(failure) => show_failure(out, failure),
    }
}

/// Shows what a text is read as, and how many tokens are left, the end of the line among them.
fn tell(out: &mut String, alloc: Global, text: &str, brackets: usize, levels: u32) -> Shown {
    if text.len() > 2_000_000_000 {
        return Ok(());
    }
    match lex(alloc, text.as_bytes()) {
        Ok(tokens) => {
            let mut cursor = Cursor::new(text.as_bytes(), &tokens);
            let outcome = adjoint_expr(alloc, &mut cursor, brackets, levels as usize);
            show(out, &outcome, cursor.len())
        }
        Err(_) => out.push_str("no tokens"),
    }
}

/// What a text is read as is what is wanted.
fn expect_told<R: Abort>(
    rt: &R,
    alloc: Global,
    text: &str,
    brackets: usize,
    levels: u32,
    wanted: &str,
) -> Shown {
    let mut got = String::new(alloc);
    tell(&mut got, alloc, text, brackets, levels)?;
    expect(rt, got.as_str(), wanted, text.as_bytes());
    Ok(())
}

/// A text, how many brackets and levels may open in it, and what it is read as.
type Row = (&'static str, usize, u32, &'static str);

fn expect_all<R: Abort>(rt: &R, alloc: Global, rows: &[Row]) -> Shown {
    for (text, brackets, levels, wanted) in rows {
        expect_told(rt, alloc, text, *brackets, *levels, wanted)?;
    }
    Ok(())
}

static EXPRESSIONS: [Row; 17] = [
    (
        "merge(1_8, 0_8, a >= b)",
        256,
        255,
        "[merge 1 0 [>= a b]] 1",
    ),
    (
        "x_b + p*merge(-1_8, 1_8, a < 0_8)",
        256,
        255,
        "[+ x_b [* p [merge [- 1] 1 [< a 0]]]] 1",
    ),
    (
        "merge(merge(1, 2, a < b), max(3, merge(4, 5, c < d)), .not. ((e) < f))",
        256,
        255,
        "[merge [merge 1 2 [< a b]] [max 3 [merge 4 5 [< c d]]] [not [< e f]]] 1",
    ),
    (
        "(merge(1, 2, a < b))**2",
        256,
        255,
        "[** [merge 1 2 [< a b]] 2] 1",
    ),
    ("-x(i)**2 - y", 256, 255, "[- [- [** x at i 2]] y] 1"),
    ("abs(x) / 2", 256, 255, "[/ [abs x] 2] 1"),
    // no merge in subscripts and conditions
    ("x(merge(1, 2, a < b))", 256, 255, "expected 12"),
    (
        "merge(1, 2, merge(1, 2, a < b) < 3)",
        256,
        255,
        "expected 14",
    ),
    (
        "merge(x(merge(1, 2, a < b)), 2, a < b)",
        256,
        255,
        "expected 19",
    ),
    // three arguments, of which the last is a condition
    ("merge(1, 2)", 256, 255, "expected 2"),
    ("merge(1, 2, a)", 256, 255, "expected 2"),
    ("merge(1, 2, a < b, 3)", 256, 255, "expected 4"),
    ("merge = 1", 256, 255, "expected 3"),
    // limits
    ("merge(1, 2, a < b)", 1, 2, "[merge 1 2 [< a b]] 1"),
    ("merge(1, 2, a < b)", 1, 1, "deep 11"),
    ("merge(1, 2, a < b)", 0, 2, "deep 11"),
    ("merge(1, 2, a + 1 < b)", 1, 2, "deep 6"),
];

#[test]
fn expressions_of_adjoints_are_read(rt: HostRuntime) -> Shown {
    expect_all(&rt, rt.alloc(), &EXPRESSIONS)
}
