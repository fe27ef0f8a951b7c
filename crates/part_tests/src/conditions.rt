//! Conditions.

use crate::shown::{show_cond, show_failure};
use crate::texts::{Shown, expect, push_times};
use fl_conditions::{Judged, cond};
use fl_lexer::lex;
use parsing::{Cursor, Failure};
use std::alloc::Global;
use std::fmt::Write;
use std::process::Abort;

fn show(out: &mut String, outcome: &Result<Judged, Failure>, left: usize) -> Shown {
    match outcome {
        Ok(found) => {
            show_cond(out, found.cond.get())?;
            write!(out, " {left}")
        }
        Err(failure) => show_failure(out, failure),
    }
}

/// Shows what a text is read as, and how many tokens are left, the end of the line among them.
fn tell(out: &mut String, alloc: Global, text: &str, brackets: usize, levels: u32) -> Shown {
    if text.len() > 2_000_000_000 {
        return Ok(());
    }
    match lex(alloc, text.as_bytes()) {
        Ok(tokens) => {
            let mut cursor = Cursor::new(text.as_bytes(), &tokens);
            let outcome = cond(alloc, &mut cursor, brackets, levels as usize);
            show(out, &outcome, cursor.len())
        }
        Err(_) => out.push_str("no tokens"),
    }
}

/// What a text is read as is what is wanted.
fn expect_told<R: Abort>(
    rt: &R,
    alloc: Global,
    text: &str,
    brackets: usize,
    levels: u32,
    wanted: &str,
) -> Shown {
    let mut got = String::new(alloc);
    tell(&mut got, alloc, text, brackets, levels)?;
    expect(rt, got.as_str(), wanted, text.as_bytes());
    Ok(())
}

fn expect_all<R: Abort>(rt: &R, alloc: Global, rows: &[(&str, &str)]) -> Shown {
    for (text, wanted) in rows {
        expect_told(rt, alloc, text, 256, 62, wanted)?;
    }
    Ok(())
}

static CONDITIONS: [(&str, &str); 34] = [
    // a bracket of an expression, of a condition, of both
    ("((a) < b)", "[< a b] 1"),
    ("((a < b))", "[< a b] 1"),
    ("(a) < (b)", "[< a b] 1"),
    ("((a)) < ((b))", "[< a b] 1"),
    (".not. (a < b) .and. c < d", "[and [not [< a b]] [< c d]] 1"),
    ("((a)+1 < b .or. (c < d))", "[or [< [+ a 1] b] [< c d]] 1"),
    ("((a)**2*b - c >= d)", "[>= [- [* [** a 2] b] c] d] 1"),
    ("(((a) + 1) * 2 == 3)", "[== [* [+ a 1] 2] 3] 1"),
    ("-(a) < b", "[< [- a] b] 1"),
    ("+(a) /= b", "[/= a b] 1"),
    ("(a(1)) .le. max((b), c)", "[<= a at 1 [max b c]] 1"),
    ("(.not. (a > b))", "[not [> a b]] 1"),
    // operations of one level group from the left, and .and. binds before .or.
    (
        "a < b .and. c < d .and. e < f",
        "[and [and [< a b] [< c d]] [< e f]] 1",
    ),
    (
        "a < b .or. c < d .or. e < f",
        "[or [or [< a b] [< c d]] [< e f]] 1",
    ),
    (
        "a < b .or. c < d .and. e < f",
        "[or [< a b] [and [< c d] [< e f]]] 1",
    ),
    (
        "(a < b .or. c < d) .and. e < f",
        "[and [or [< a b] [< c d]] [< e f]] 1",
    ),
    (
        "a < b .and. .not. c < d .or. e < f",
        "[or [and [< a b] [not [< c d]]] [< e f]] 1",
    ),
    ("a - b - c < 1", "[< [- [- a b] c] 1] 1"),
    ("-a**2 < 1", "[< [- [** a 2]] 1] 1"),
    // a condition ends where nothing goes on with it
    ("a < b) x", "[< a b] 3"),
    ("(a < b) + 1 < c", "[< a b] 5"),
    ("a < b < c", "[< a b] 3"),
    // an expression alone won't do
    ("a", "expected 1"),
    ("(a)", "expected 1"),
    ("(a + b) .and. c < d", "expected 5"),
    ("(a .and. b < c)", "expected 6"),
    ("((a) < b .and. (c))", "expected 2"),
    (".not. (a)", "expected 1"),
    // the rest
    (".not. .not. a < b", "expected 5"),
    ("a < .not. b < c", "expected 5"),
    ("(a < b .and.)", "expected 2"),
    ("((a) < b", "expected 1"),
    ("not(a < b)", "expected 4"),
    ("", "expected 0"),
];

#[test]
fn conditions_are_read(rt: HostRuntime) -> Shown {
    expect_all(&rt, rt.alloc(), &CONDITIONS)
}

/// A text, how many brackets may open in it, how many levels stand beneath the root of a relation's operand, and what it is
/// read as.
type Limit = (&'static str, usize, u32, &'static str);

fn expect_limits<R: Abort>(rt: &R, alloc: Global, rows: &[Limit]) -> Shown {
    for (text, brackets, levels, wanted) in rows {
        expect_told(rt, alloc, text, *brackets, *levels, wanted)?;
    }
    Ok(())
}

static LIMITS: [Limit; 17] = [
    ("((a) < b)", 2, 62, "[< a b] 1"),
    ("((a) < b)", 1, 62, "deep 7"),
    ("(a < b)", 1, 62, "[< a b] 1"),
    ("(a < b)", 0, 62, "deep 6"),
    ("(a) < (b)", 1, 62, "[< a b] 1"),
    ("(a) < (b(1))", 1, 62, "deep 5"),
    ("a < b", 256, 0, "[< a b] 1"),
    ("a + 1 < b", 256, 0, "deep 5"),
    ("a + 1 < b", 256, 1, "[< [+ a 1] b] 1"),
    (".not. a < b", 256, 0, "deep 5"),
    (".not. a < b", 256, 1, "[not [< a b]] 1"),
    (".not. a + 1 < b", 256, 1, "deep 5"),
    ("a < b .and. c < d", 256, 0, "deep 5"),
    ("a < b .and. c < d", 256, 1, "[and [< a b] [< c d]] 1"),
    ("a < b .or. .not. c < d", 256, 1, "deep 5"),
    (
        "a < b .or. .not. c < d",
        256,
        2,
        "[or [< a b] [not [< c d]]] 1",
    ),
    ("(a < b .and. c < d) .or. e < f", 256, 1, "deep 5"),
];

#[test]
fn limits_are_kept(rt: HostRuntime) -> Shown {
    expect_limits(&rt, rt.alloc(), &LIMITS)
}

fn push_nested(text: &mut String, open: usize, middle: &str, close: usize) -> Shown {
    push_times(text, "(", open)
        .and(text.push_str(middle))
        .and(push_times(text, ")", close))
}

fn expect_nested<R: Abort>(
    rt: &R,
    alloc: Global,
    open: usize,
    middle: &str,
    close: usize,
    wanted: &str,
) -> Shown {
    let mut text = String::new(alloc);
    push_nested(&mut text, open, middle, close)?;
    expect_told(rt, alloc, text.as_str(), 256, 62, wanted)
}

/// Brackets before, a text, brackets behind it, and what it is read as.
type Nested = (usize, &'static str, usize, &'static str);

fn expect_all_nested<R: Abort>(rt: &R, alloc: Global, rows: &[Nested]) -> Shown {
    for (open, middle, close, wanted) in rows {
        expect_nested(rt, alloc, *open, middle, *close, wanted)?;
    }
    Ok(())
}

static NESTED: [Nested; 4] = [
    (256, "a", 256, "expected 1"),
    (256, "a < b", 256, "[< a b] 1"),
    (255, "(a) < b", 255, "[< a b] 1"),
    (257, "a < b", 257, "deep 262"),
];

#[test]
fn nested_brackets_are_read_once(rt: HostRuntime) -> Shown {
    expect_all_nested(&rt, rt.alloc(), &NESTED)
}
