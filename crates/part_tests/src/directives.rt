//! Directives from their texts.

use crate::texts::{Shown, expect, push_bytes};
use fl_ast::{Directive, ScheduleKind};
use fl_base::{Items, Name};
use fl_lexer::lex;
use omp_clauses::{ClauseError, DirectiveLine, read_directive};
use std::alloc::Global;
use std::fmt::Write;
use std::process::Abort;

fn show_names(out: &mut String, word: &str, names: &Items<Name>) -> Shown {
    if names.is_empty() {
        return Ok(());
    }
    out.push(' ')?;
    out.push_str(word)?;
    for name in names.as_slice() {
        out.push(' ')?;
        push_bytes(out, name.bytes())?;
    }
    Ok(())
}

fn kind_word(kind: ScheduleKind) -> &'static str {
    match kind {
        ScheduleKind::Static => " static",
        ScheduleKind::Dynamic => " dynamic",
        ScheduleKind::Guided => " guided",
        ScheduleKind::Auto => " auto",
        ScheduleKind::Runtime => " runtime",
    }
}

fn show_schedule(out: &mut String, schedule: (ScheduleKind, Option<u32>)) -> Shown {
    let (kind, size) = schedule;
    out.push_str(kind_word(kind))?;
    match size {
        Some(n) => write!(out, " {n}"),
        None => Ok(()),
    }
}

fn show_collapse(out: &mut String, loops: u32) -> Shown {
    if loops == 0 {
        return Ok(());
    }
    write!(out, " collapse {loops}")
}

fn show_numbers(out: &mut String, d: &Directive) -> Shown {
    if d.none {
        out.push_str(" none")?;
    }
    if let Some(schedule) = d.schedule {
        show_schedule(out, schedule)?;
    }
    show_collapse(out, d.collapse)
}

fn show_directive(out: &mut String, d: &Directive) -> Shown {
    let line = d.line;
    write!(out, "loop {line}")?;
    show_names(out, "privates", &d.privates)
        .and(show_names(out, "firsts", &d.firsts))
        .and(show_names(out, "shareds", &d.shareds))
        .and(show_names(out, "pluses", &d.pluses))
        .and(show_numbers(out, d))
}

fn show_word(out: &mut String, cause: &str, line: u32, word: &Name) -> Shown {
    write!(out, "{cause} {line} ")?;
    push_bytes(out, word.bytes())
}

fn show_error(out: &mut String, e: &ClauseError) -> Shown {
    match e {
        ClauseError::Unknown { line, word } => show_word(out, "unknown", *line, word),
        ClauseError::Twice { line, name } => show_word(out, "twice", *line, name),
        ClauseError::Form { line } => write!(out, "form {line}"),
        ClauseError::Memory => out.push_str("memory"),
    }
}

fn show(out: &mut String, outcome: &Result<DirectiveLine, ClauseError>) -> Shown {
    match outcome {
        Ok(DirectiveLine::ParallelDo(d)) => show_directive(out, d),
        Ok(DirectiveLine::EndParallelDo) => out.push_str("end loop"),
        Ok(DirectiveLine::Atomic) => out.push_str("atomic"),
        Ok(DirectiveLine::EndAtomic) => out.push_str("end atomic"),
        Err(e) => show_error(out, e),
    }
}

/// Shows what a text of one directive is read as.
fn tell(out: &mut String, alloc: Global, text: &str) -> Shown {
    if text.len() > 2_000_000_000 {
        return Ok(());
    }
    match lex(alloc, text.as_bytes()) {
        Ok(tokens) => show(out, &read_directive(alloc, text.as_bytes(), &tokens)),
        Err(_) => out.push_str("no tokens"),
    }
}

/// What a text of one directive is read as is what is wanted.
fn expect_told<R: Abort>(rt: &R, alloc: Global, text: &str, wanted: &str) -> Shown {
    let mut got = String::new(alloc);
    tell(&mut got, alloc, text)?;
    expect(rt, got.as_str(), wanted, text.as_bytes());
    Ok(())
}

/// Behind `!$omp parallel do `, with what each is read as.
static CLAUSES: [(&str, &str); 52] = [
    // each clause, smallest and largest
    ("", "loop 1"),
    ("private(a)", "loop 1 privates a"),
    ("private(A, b)", "loop 1 privates a b"),
    ("firstprivate(a)", "loop 1 firsts a"),
    ("shared(a, b, c)", "loop 1 shareds a b c"),
    ("reduction(+: a)", "loop 1 pluses a"),
    ("reduction(+:a,b)", "loop 1 pluses a b"),
    ("default(none)", "loop 1 none"),
    ("default(shared)", "loop 1"),
    ("schedule(static)", "loop 1 static"),
    ("schedule(static, 0)", "loop 1 static 0"),
    ("schedule(dynamic, 2147483647)", "loop 1 dynamic 2147483647"),
    ("schedule(guided, 3_4)", "loop 1 guided 3"),
    ("schedule(auto)", "loop 1 auto"),
    ("schedule(runtime)", "loop 1 runtime"),
    ("collapse(1)", "loop 1 collapse 1"),
    ("collapse(2_8)", "loop 1 collapse 2"),
    (
        ", private(a), shared(b) reduction(+:c) , firstprivate(d) private(e) default(none) schedule(static,4), collapse(2)",
        "loop 1 privates a e firsts d shareds b pluses c none static 4 collapse 2",
    ),
    // words that are names
    ("private(none, static, private, do, x)", "form 1"),
    (
        "private(none, static, private, collapse, parallel)",
        "loop 1 privates none static private collapse parallel",
    ),
    // names and clauses that stand twice
    ("private(a, a)", "twice 1 a"),
    ("private(a, A)", "twice 1 a"),
    ("private(a) private(b, a)", "twice 1 a"),
    ("firstprivate(a) shared(a)", "twice 1 a"),
    ("shared(a) reduction(+: b, a)", "twice 1 a"),
    ("private(a, a", "twice 1 a"),
    ("default(none) default(none)", "twice 1 default"),
    ("default(shared), default(none)", "twice 1 default"),
    ("schedule(auto) schedule(", "twice 1 schedule"),
    ("collapse(1) collapse", "twice 1 collapse"),
    ("collapse(1), private(x) collapse(2)", "twice 1 collapse"),
    // words that begin no clause
    ("nowait", "unknown 1 nowait"),
    ("private(a) NoWait", "unknown 1 nowait"),
    ("private(a), nowait", "unknown 1 nowait"),
    ("static", "unknown 1 static"),
    ("none", "unknown 1 none"),
    ("private static", "unknown 1 static"),
    ("if", "unknown 1 if"),
    ("private(a) a", "unknown 1 a"),
    // the rest
    ("private(if)", "form 1"),
    ("private()", "form 1"),
    ("private(a,)", "form 1"),
    ("private a", "unknown 1 a"),
    ("private private", "form 1"),
    ("do", "form 1"),
    ("private(a),", "form 1"),
    (",, private(a)", "form 1"),
    ("reduction(*: a)", "form 1"),
    ("default(private)", "form 1"),
    ("schedule(auto, 1)", "form 1"),
    ("schedule(static, 2147483648)", "form 1"),
    ("schedule(static, 1_8)", "form 1"),
];

/// Whole texts, with what each is read as.
static LINES: [(&str, &str); 20] = [
    ("!$omp end parallel do\n", "end loop"),
    ("!$omp atomic\n", "atomic"),
    ("!$OMP ATOMIC UPDATE", "atomic"),
    ("!$omp end atomic\r\n", "end atomic"),
    ("!$omp\n", "form 1"),
    ("!$omp parallel\n", "form 1"),
    ("!$omp end\n", "form 1"),
    ("!$omp end do\n", "form 1"),
    ("!$omp end atomic update\n", "form 1"),
    ("!$omp atomic read\n", "unknown 1 read"),
    ("!$omp atomic private(x)\n", "form 1"),
    ("!$omp simd\n", "unknown 1 simd"),
    ("!$omp parallel do collapse(0)\n", "form 1"),
    ("!$omp parallel do collapse(3)\n", "form 1"),
    (
        "! one\n!$omp parallel do &\n\n! two\n!$omp private(a, & ! three\n!$omp b)\n",
        "loop 2 privates a b",
    ),
    (
        "!$omp parallel do &\n!$omp private(a, &\n!$omp a)\n",
        "twice 3 a",
    ),
    ("!$omp parallel do &\n!$omp nowait\n", "unknown 2 nowait"),
    ("!$omp parallel do private(a &\n!$omp\n", "form 2"),
    ("!$omp parallel do private(a\n", "form 1"),
    ("!$omp parallel do private(a, &\n!$omp & b)\n", "form 2"),
];

fn expect_clauses<R: Abort>(rt: &R, alloc: Global, clauses: &str, wanted: &str) -> Shown {
    let mut text = String::new(alloc);
    write!(&mut text, "!$omp parallel do {clauses}\n")?;
    expect_told(rt, alloc, text.as_str(), wanted)
}

fn expect_all_clauses<R: Abort>(rt: &R, alloc: Global, rows: &[(&str, &str)]) -> Shown {
    for (clauses, wanted) in rows {
        expect_clauses(rt, alloc, clauses, wanted)?;
    }
    Ok(())
}

fn expect_all<R: Abort>(rt: &R, alloc: Global, rows: &[(&str, &str)]) -> Shown {
    for (text, wanted) in rows {
        expect_told(rt, alloc, text, wanted)?;
    }
    Ok(())
}

#[test]
fn clauses_are_read(rt: HostRuntime) -> Shown {
    expect_all_clauses(&rt, rt.alloc(), &CLAUSES)
}

#[test]
fn directives_are_read(rt: HostRuntime) -> Shown {
    expect_all(&rt, rt.alloc(), &LINES)
}

/// A directive that lists so many names, over as many lines.
fn push_names(text: &mut String, count: u32, last: &str) -> Shown {
    text.push_str("!$omp parallel do private(x &\n")?;
    for i in 0..count {
        write!(text, "!$omp ,n{i}&\n")?;
    }
    write!(text, "!$omp ,{last})\n")
}

#[test]
fn many_names_are_read(rt: HostRuntime) -> Shown {
    let mut text = String::new(rt.alloc());
    push_names(&mut text, 100_000, "n77")?;
    expect_told(&rt, rt.alloc(), text.as_str(), "twice 100002 n77")
}
