//! What texts of adjoints are read as, and where they are refused.

use crate::parsed::show_refusal;
use crate::rows::{Shown, expect};
use adjoint_parser::parse_adjoint;
use fl_ast::{AStmt, AdjointText};
use fl_lexer::lex;
use fl_parser::ParseError;
use std::alloc::Global;
use std::fmt::Write;
use std::process::Abort;

fn show_line(out: &mut String, word: &str, line: u32) -> Shown {
    write!(out, " {word} {line}")
}

fn show_if(out: &mut String, line: u32, arms: usize, other: usize) -> Shown {
    write!(out, " if {line} {arms} {other}")
}

fn show_do(out: &mut String, line: u32, number: u32, parallel: bool, body: usize) -> Shown {
    write!(out, " do {line} {number} {parallel} {body}")
}

fn show_stmt(out: &mut String, stmt: &AStmt) -> Shown {
    match stmt {
        AStmt::Assign { line, atomic, .. } => write!(out, " set {line} {atomic}"),
        AStmt::If { line, arms, other } => show_if(out, *line, arms.len(), other.len()),
        AStmt::Do {
            line,
            number,
            directive,
            body,
            ..
        } => show_do(out, *line, *number, directive.is_some(), body.len()),
        AStmt::Push { line, .. } => show_line(out, "push", *line),
        AStmt::Pop { line, .. } => show_line(out, "pop", *line),
        AStmt::Open { line, .. } => show_line(out, "open", *line),
        AStmt::Close { line } => show_line(out, "close", *line),
    }
}

fn show_text(out: &mut String, text: &AdjointText) -> Shown {
    let (args, decls) = (text.args.len(), text.decls.len());
    write!(out, "{args} {decls}:")?;
    for stmt in text.body.as_slice() {
        show_stmt(out, stmt)?;
    }
    Ok(())
}

fn show(out: &mut String, outcome: &Result<AdjointText, ParseError>) -> Shown {
    match outcome {
        Ok(found) => show_text(out, found),
        Err(error) => show_refusal(out, error),
    }
}

fn tell(out: &mut String, alloc: Global, text: &str) -> Shown {
    if text.len() > 2_000_000_000 {
        return Ok(());
    }
    match lex(alloc, text.as_bytes()) {
        Ok(tokens) => show(out, &parse_adjoint(alloc, text.as_bytes(), &tokens)),
        Err(_) => out.push_str("no tokens"),
    }
}

fn expect_adjoint<R: Abort>(rt: &R, alloc: Global, text: &str, wanted: &str) -> Shown {
    let mut told = String::new(alloc);
    tell(&mut told, alloc, text)?;
    expect(rt, told.as_str(), wanted, text);
    Ok(())
}

fn expect_adjoints<R: Abort>(rt: &R, alloc: Global, rows: &[(&str, &str)]) -> Shown {
    for (text, wanted) in rows {
        expect_adjoint(rt, alloc, text, wanted)?;
    }
    Ok(())
}

static TEXTS: [(&str, &str); 26] = [
    (
        "subroutine sq_b(n, x, x_b)
  implicit none
  integer(kind=4) :: n, i, formad_lo1, formad_hi1, formad_by1, formad_k, formad_w
  integer(kind=8) :: x(n), x_b(n), formad_t
  formad_lo1 = 1
  formad_hi1 = n
  formad_by1 = 1
  call formad_open(max(((formad_hi1-formad_lo1)+formad_by1)/formad_by1, 0))
  !$omp parallel do private(formad_k, formad_w, formad_t)
  do i = formad_lo1, formad_hi1, formad_by1
    formad_k = (i-formad_lo1)/formad_by1
    call formad_push(formad_k, x(i))
    x(i) = x(i)*x(i)
  end do
  call formad_close()
  call formad_push(-1, formad_lo1)
  call formad_pop(-1, formad_lo1)
end subroutine sq_b
",
        "3 10: set 5 false set 6 false set 7 false open 8 do 10 1 true 3 close 15 push 16 pop 17",
    ),
    // names of the tape's calls are names elsewhere
    (
        "subroutine s\nformad_push = formad_pop(1)\nend\n",
        "0 0: set 2 false",
    ),
    (
        "subroutine s\ncall formad_pop(k, formad_open(i))\nend\n",
        "0 0: pop 2",
    ),
    // a loop's number, with loops in it and before it
    (
        "subroutine s\ndo i = 1, 2\ndo j = 1, 2\nend do\nend do\ndo k = 1, 2, -1\nenddo\nend\n",
        "0 0: do 2 1 false 1 do 6 3 false 0",
    ),
    (
        "subroutine s\n!$omp atomic\nx = x + merge(1, 0, a < b)\n!$omp end atomic\ncall formad_close()\nend\n",
        "0 0: set 3 true close 5",
    ),
    (
        "subroutine s\nif (w == 0) then\nx = 1\nelse if (w == 1) then\ncall formad_close()\nelse\nx = 2\ny = 3\nend if\nend\n",
        "0 0: if 2 2 2",
    ),
    // no call stands under a one-line if, and none out of place is a construct
    (
        "subroutine s\nif (a < b) call formad_close()\nend\n",
        "syntax 2:12",
    ),
    ("subroutine s\nif (a < b) stop\nend\n", "construct 2 stop"),
    ("subroutine s\nend\ncall formad_close()\n", "syntax 3:1"),
    ("subroutine s\nend\nstop\n", "construct 3 stop"),
    (
        "subroutine s\n!$omp atomic\ncall formad_close()\nend\n",
        "syntax 3:1",
    ),
    ("subroutine s\ncall other(1)\nend\n", "syntax 2:6"),
    ("subroutine s\ncall formad_push(1)\nend\n", "syntax 2:19"),
    (
        "subroutine s\ncall formad_push(1, 2, 3)\nend\n",
        "syntax 2:22",
    ),
    ("subroutine s\ncall formad_pop(1, 2)\nend\n", "syntax 2:20"),
    (
        "subroutine s\ncall formad_pop(1, x+1)\nend\n",
        "syntax 2:21",
    ),
    ("subroutine s\ncall formad_open()\nend\n", "syntax 2:18"),
    ("subroutine s\ncall formad_close(1)\nend\n", "syntax 2:19"),
    ("subroutine s\ncall formad_close\nend\n", "syntax 2:18"),
    // no merge but on the right side of an assignment
    (
        "subroutine s\ncall formad_open(merge(1, 2, a < b))\nend\n",
        "syntax 2:18",
    ),
    (
        "subroutine s\ndo i = merge(1, 2, a < b), 3\nend do\nend\n",
        "syntax 2:8",
    ),
    (
        "subroutine s\nif (merge(1, 2, a < b) < 3) x = 1\nend\n",
        "syntax 2:5",
    ),
    // directives
    (
        "subroutine s\n!$omp parallel do private(a, a)\ndo i = 1, 2\nend do\nend\n",
        "twice 2 a",
    ),
    (
        "subroutine s\n!$omp parallel do\ndo i = 1, 2\n!$omp parallel do\ndo j = 1, 2\nend do\nend do\nend\n",
        "construct 4 parallel",
    ),
    ("subroutine s\n!$omp end atomic\nend\n", "syntax 2:7"),
    ("subroutine s\nx = 1\n", "syntax 3:1"),
];

#[test]
fn texts_of_adjoints_are_read_or_refused(rt: HostRuntime) -> Shown {
    expect_adjoints(&rt, rt.alloc(), &TEXTS)
}
