//! What programs are printed as.

use crate::rows::{Shown, expect, push_bytes};
use fl_ast::Program;
use fl_base::Memory;
use fl_lexer::lex;
use fl_parser::{ParseError, parse};
use fl_printer::print;
use std::alloc::{AllocError, Global};
use std::fmt::Write;
use std::process::Abort;

fn show_printed(out: &mut String, printed: &Result<Vec<u8>, Memory>) -> Shown {
    match printed {
        Ok(bytes) => push_bytes(out, bytes),
        Err(_) => out.push_str("memory"),
    }
}

fn show(out: &mut String, alloc: Global, outcome: &Result<Program, ParseError>) -> Shown {
    match outcome {
        Ok(program) => show_printed(out, &print(alloc, program)),
        Err(_) => out.push_str("not read"),
    }
}

/// Shows what a text of a program is printed as, once read.
fn tell(out: &mut String, alloc: Global, text: &str) -> Shown {
    if text.len() > 2_000_000_000 {
        return Ok(());
    }
    match lex(alloc, text.as_bytes()) {
        Ok(tokens) => show(out, alloc, &parse(alloc, text.as_bytes(), &tokens)),
        Err(_) => out.push_str("no tokens"),
    }
}

fn expect_printed<R: Abort>(rt: &R, alloc: Global, text: &str, wanted: &str) -> Shown {
    let mut told = String::new(alloc);
    tell(&mut told, alloc, text)?;
    expect(rt, told.as_str(), wanted, text);
    Ok(())
}

fn expect_all_printed<R: Abort>(rt: &R, alloc: Global, rows: &[(&str, &str)]) -> Shown {
    for (text, wanted) in rows {
        expect_printed(rt, alloc, text, wanted)?;
    }
    Ok(())
}

/// What the rows' texts are printed as is printed as it stands.
fn expect_all_alike<R: Abort>(rt: &R, alloc: Global, rows: &[(&str, &str)]) -> Shown {
    for (_, text) in rows {
        expect_printed(rt, alloc, text, text)?;
    }
    Ok(())
}

/// What a text is printed as is printed as it stands.
pub(crate) fn expect_reprinted<R: Abort>(rt: &R, alloc: Global, text: &str) -> Shown {
    let mut printed = String::new(alloc);
    tell(&mut printed, alloc, text)?;
    expect_printed(rt, alloc, printed.as_str(), printed.as_str())
}

/// Texts, with what they are printed as. Those at the end have lines of 118 to 121 bytes and more, before they are broken.
static TEXTS: [(&str, &str); 15] = [
    (
        "subroutine poly(x, y)\n  !\n  integer(kind=8) :: x, y\n  y = x*x + 3*x\nend subroutine poly\n",
        "subroutine poly(x, y)\n  implicit none\n  integer(kind=8) :: x\n  integer(kind=8) :: y\n  y = (x*x)+(3*x)\nend subroutine poly\n",
    ),
    (
        "subroutine s\nend",
        "subroutine s()\n  implicit none\nend subroutine s\n",
    ),
    (
        "SUBROUTINE S(X)\nINTEGER(8), INTENT(INOUT) :: X(2*N-1, -3:4), N\nX(1, -N) = -X(1,2)**2 - (1_8 - MAX(N, ABS(-2))) / 7 * MOD(N, 2)\nENDSUBROUTINE",
        "subroutine s(x)\n  implicit none\n  integer(kind=8), intent(inout) :: x(2*n-1, -3:4)\n  integer(kind=8), intent(inout) :: n\n  x(1, -n) = (-(x(1, 2)**2))-(((1_8-max(n, abs(-2)))/7)*mod(n, 2))\nend subroutine s\n",
    ),
    (
        "subroutine s(x)\ninteger, intent(in) :: x\ninteger(kind=4), intent(out) :: y\ny = +x-((-x)+1)-1\nx = (x**2)**3\nend\n",
        "subroutine s(x)\n  implicit none\n  integer(kind=4), intent(in) :: x\n  integer(kind=4), intent(out) :: y\n  y = (x-((-x)+1))-1\n  x = (x**2)**3\nend subroutine s\n",
    ),
    (
        "subroutine s\ny = max(min(-1, abs(x(c(c(1)), mod(-i, 3)))), -(2_8**3))*(-7)/(a**0)-(-(-(b)))\nend\n",
        "subroutine s()\n  implicit none\n  y = ((max(min(-1, abs(x(c(c(1)), mod(-i, 3)))), -(2_8**3))*(-7))/(a**0))-(-(-b))\nend subroutine s\n",
    ),
    (
        "subroutine s\ny = aaaaaaaaaaaaaaaaaaaaaaaaaaaaaaaaaaaaaaaaaaaaaaaaaaaaaaaaaaaaa+&\nbbbbbbbbbbbbbbbbbbbbbbbbbbbbbbbbbbbbbbbbbbbbbbbbbbb\nend\n",
        "subroutine s()\n  implicit none\n  y = aaaaaaaaaaaaaaaaaaaaaaaaaaaaaaaaaaaaaaaaaaaaaaaaaaaaaaaaaaaaa+bbbbbbbbbbbbbbbbbbbbbbbbbbbbbbbbbbbbbbbbbbbbbbbbbbb\nend subroutine s\n",
    ),
    (
        "subroutine s\ny = aaaaaaaaaaaaaaaaaaaaaaaaaaaaaaaaaaaaaaaaaaaaaaaaaaaaaaaaaaaaa+&\nbbbbbbbbbbbbbbbbbbbbbbbbbbbbbbbbbbbbbbbbbbbbbbbbbbbb\nend\n",
        "subroutine s()\n  implicit none\n  y = aaaaaaaaaaaaaaaaaaaaaaaaaaaaaaaaaaaaaaaaaaaaaaaaaaaaaaaaaaaaa+bbbbbbbbbbbbbbbbbbbbbbbbbbbbbbbbbbbbbbbbbbbbbbbbbbbb\nend subroutine s\n",
    ),
    (
        "subroutine s\ny = aaaaaaaaaaaaaaaaaaaaaaaaaaaaaaaaaaaaaaaaaaaaaaaaaaaaaaaaaaaaa+&\nbbbbbbbbbbbbbbbbbbbbbbbbbbbbbbbbbbbbbbbbbbbbbbbbbbbbb\nend\n",
        "subroutine s()\n  implicit none\n  y = aaaaaaaaaaaaaaaaaaaaaaaaaaaaaaaaaaaaaaaaaaaaaaaaaaaaaaaaaaaaa+ &\n      bbbbbbbbbbbbbbbbbbbbbbbbbbbbbbbbbbbbbbbbbbbbbbbbbbbbb\nend subroutine s\n",
    ),
    (
        "subroutine s\ny = aaaaaaaaaaaaaaaaaaaaaaaaaaaaaaaaaaaaaaaaaaaaaaaaaaaaaaaaaaaaa+&\nbbbbbbbbbbbbbbbbbbbbbbbbbbbbbbbbbbbbbbbbbbbbbbbbbbbbbb\nend\n",
        "subroutine s()\n  implicit none\n  y = aaaaaaaaaaaaaaaaaaaaaaaaaaaaaaaaaaaaaaaaaaaaaaaaaaaaaaaaaaaaa+ &\n      bbbbbbbbbbbbbbbbbbbbbbbbbbbbbbbbbbbbbbbbbbbbbbbbbbbbbb\nend subroutine s\n",
    ),
    (
        "subroutine s\ny = (aaaaaaaaaaaaaaaaaaaaaaaaaaaaaaaaaaaaaaaaaaaaaaaaaaaaaaaaaaaaa+&\nbbbbbbbbbbbbbbbbbbbbbbbbbbbbbbbbbbbbbbbbbbbbbb)+c\nend\n",
        "subroutine s()\n  implicit none\n  y = (aaaaaaaaaaaaaaaaaaaaaaaaaaaaaaaaaaaaaaaaaaaaaaaaaaaaaaaaaaaaa+bbbbbbbbbbbbbbbbbbbbbbbbbbbbbbbbbbbbbbbbbbbbbb)+c\nend subroutine s\n",
    ),
    (
        "subroutine s\ny = (aaaaaaaaaaaaaaaaaaaaaaaaaaaaaaaaaaaaaaaaaaaaaaaaaaaaaaaaaaaaa+&\nbbbbbbbbbbbbbbbbbbbbbbbbbbbbbbbbbbbbbbbbbbbbbbb)+c\nend\n",
        "subroutine s()\n  implicit none\n  y = (aaaaaaaaaaaaaaaaaaaaaaaaaaaaaaaaaaaaaaaaaaaaaaaaaaaaaaaaaaaaa+bbbbbbbbbbbbbbbbbbbbbbbbbbbbbbbbbbbbbbbbbbbbbbb)+c\nend subroutine s\n",
    ),
    (
        "subroutine s\ny = (aaaaaaaaaaaaaaaaaaaaaaaaaaaaaaaaaaaaaaaaaaaaaaaaaaaaaaaaaaaaa+&\nbbbbbbbbbbbbbbbbbbbbbbbbbbbbbbbbbbbbbbbbbbbbbbbb)+c\nend\n",
        "subroutine s()\n  implicit none\n  y = (aaaaaaaaaaaaaaaaaaaaaaaaaaaaaaaaaaaaaaaaaaaaaaaaaaaaaaaaaaaaa+bbbbbbbbbbbbbbbbbbbbbbbbbbbbbbbbbbbbbbbbbbbbbbbb)+c\nend subroutine s\n",
    ),
    (
        "subroutine s\ny = (aaaaaaaaaaaaaaaaaaaaaaaaaaaaaaaaaaaaaaaaaaaaaaaaaaaaaaaaaaaaa+&\nbbbbbbbbbbbbbbbbbbbbbbbbbbbbbbbbbbbbbbbbbbbbbbbbb)+c\nend\n",
        "subroutine s()\n  implicit none\n  y = (aaaaaaaaaaaaaaaaaaaaaaaaaaaaaaaaaaaaaaaaaaaaaaaaaaaaaaaaaaaaa+bbbbbbbbbbbbbbbbbbbbbbbbbbbbbbbbbbbbbbbbbbbbbbbbb &\n      )+c\nend subroutine s\n",
    ),
    (
        "subroutine s\ny = (aaaaaaaaaaaaaaaaaaaaaaaaaaaaaaaaaaaaaaaaaaaaaaaaaaaaaaaaaaaaa+&\nbbbbbbbbbbbbbbbbbbbbbbbbbbbbbbbbbbbbbbbbbbbbbbbbbb)+c\nend\n",
        "subroutine s()\n  implicit none\n  y = (aaaaaaaaaaaaaaaaaaaaaaaaaaaaaaaaaaaaaaaaaaaaaaaaaaaaaaaaaaaaa+ &\n      bbbbbbbbbbbbbbbbbbbbbbbbbbbbbbbbbbbbbbbbbbbbbbbbbb)+c\nend subroutine s\n",
    ),
    (
        "subroutine s\ny = (aaaaaaaaaaaaaaaaaaaaaaaaaaaaaaaaaaaaaaaaaaaaaaaaaaaaaaaaaaaaa+&\nbbbbbbbbbbbbbbbbbbbbbbbbbbbbbbbbbbbbbbbbbbbbbbbbbbb)+c\nend\n",
        "subroutine s()\n  implicit none\n  y = (aaaaaaaaaaaaaaaaaaaaaaaaaaaaaaaaaaaaaaaaaaaaaaaaaaaaaaaaaaaaa+ &\n      bbbbbbbbbbbbbbbbbbbbbbbbbbbbbbbbbbbbbbbbbbbbbbbbbbb)+c\nend subroutine s\n",
    ),
];

#[test]
fn texts_are_printed(rt: HostRuntime) -> Shown {
    expect_all_printed(&rt, rt.alloc(), &TEXTS)
}

#[test]
fn what_is_printed_is_printed_alike(rt: HostRuntime) -> Shown {
    expect_all_alike(&rt, rt.alloc(), &TEXTS)
}

/// A program of one loop, whose directive lists 500 names of 24 bytes, each in a line of its own.
fn push_listing(text: &mut String) -> Shown {
    text.push_str("subroutine s\n!$omp parallel do private(name_of_a_private_sc1000 &\n")?;
    for i in 1001..1500u32 {
        write!(text, "!$omp , name_of_a_private_sc{i} &\n")?;
    }
    text.push_str("!$omp )\ndo i = n, n\nend do\nend\n")
}

/// `(part+part)`, in two lines.
fn doubled(alloc: Global, part: &str) -> Result<String, AllocError> {
    let mut sum = String::new(alloc);
    sum.push('(')
        .and(sum.push_str(part))
        .and(sum.push_str("+&\n"))
        .and(sum.push_str(part))
        .and(sum.push(')'))?;
    Ok(sum)
}

/// A program of one statement, of more than 4,000 tokens.
fn push_sum(text: &mut String, alloc: Global) -> Shown {
    let mut sum = String::new(alloc);
    sum.push('x')?;
    for _ in 0..10u32 {
        sum = doubled(alloc, sum.as_str())?;
    }
    text.push_str("subroutine s\ny = ")
        .and(text.push_str(sum.as_str()))
        .and(text.push_str("\nend\n"))
}

/// The number of lines, and the length of the longest.
fn measured(text: &[u8]) -> (usize, usize) {
    let mut lines = 0usize;
    let mut longest = 0usize;
    let mut here = 0usize;
    for byte in text {
        if *byte == b'\n' {
            lines = lines.saturating_add(1);
            longest = longest.max(here);
            here = 0;
        } else {
            here = here.saturating_add(1);
        }
    }
    (lines, longest)
}

/// How many tokens a text has.
fn counted(alloc: Global, text: &[u8]) -> usize {
    if text.len() > 2_000_000_000 {
        return 0;
    }
    match lex(alloc, text) {
        Ok(tokens) => tokens.len(),
        Err(_) => 0,
    }
}

fn push_printed_listing(out: &mut String, alloc: Global) -> Shown {
    let mut text = String::new(alloc);
    push_listing(&mut text)?;
    tell(out, alloc, text.as_str())
}

fn push_printed_sum(out: &mut String, alloc: Global) -> Shown {
    let mut text = String::new(alloc);
    push_sum(&mut text, alloc)?;
    tell(out, alloc, text.as_str())
}

fn show_measures(out: &mut String, alloc: Global, text: &[u8]) -> Shown {
    let (lines, longest) = measured(text);
    let tokens = counted(alloc, text);
    write!(out, "lines {lines} longest {longest} tokens {tokens}")
}

fn expect_measures<R: Abort>(rt: &R, alloc: Global, printed: &str, wanted: &str) -> Shown {
    let mut told = String::new(alloc);
    show_measures(&mut told, alloc, printed.as_bytes())?;
    expect(rt, told.as_str(), wanted, printed);
    expect_printed(rt, alloc, printed, printed)
}

#[test]
fn a_long_directive_is_broken(rt: HostRuntime) -> Shown {
    let mut printed = String::new(rt.alloc());
    push_printed_listing(&mut printed, rt.alloc())?;
    expect_measures(
        &rt,
        rt.alloc(),
        printed.as_str(),
        "lines 131 longest 113 tokens 1028",
    )
}

#[test]
fn a_long_statement_is_broken(rt: HostRuntime) -> Shown {
    let mut printed = String::new(rt.alloc());
    push_printed_sum(&mut printed, rt.alloc())?;
    expect_measures(
        &rt,
        rt.alloc(),
        printed.as_str(),
        "lines 40 longest 120 tokens 4106",
    )
}
