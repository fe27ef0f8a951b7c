//! Statements.

use crate::typed::expect_typed;
use fl_base::Memory;
use std::alloc::Global;
use std::process::Abort;

/// Five lines. Of the arguments `m`, `b`, `p` and `z` are read only. The locals `i`, `j` and `k` are indices, `t` and `u` data.
const HEAD: &str =
    "subroutine s(n, c, x, y, a, m, p, b, z)\n  integer :: n, c(n), i, j, k\n  integer(kind=8) :: x(n), y(n), a, t, u\n  integer, intent(in) :: m, p(n)\n  integer(kind=8), intent(in) :: b, z(n)\n";

/// Statements behind these lines, with the line and the rule that is broken first. Where several rules are broken at one token,
/// the earlier one is told.
static BODIES: [(&str, &str); 96] = [
    // names that aren't declared
    ("k = q\n", "6: undeclared q"),
    ("do q = 1, 2\nend do\n", "6: undeclared q"),
    (
        "!$omp parallel do private(q)\ndo i = 1, n\nend do\n",
        "6: undeclared q",
    ),
    // behind another fault; in place of: rank
    ("k = c(a)\nk = q\n", "6: data as index"),
    ("a = q(1)\n", "6: undeclared q"),
    // ranks
    ("x = 1\n", "6: rank x"),
    ("a(1) = 1\n", "6: rank a"),
    ("a = x(1, 2)\n", "6: rank x"),
    // in place of: kinds differ, self subscript, intent in
    ("a = max(1, x)\n", "6: rank x"),
    ("c(c) = 1\n", "6: rank c"),
    ("p = 1\n", "6: rank p"),
    // literals
    (
        "k = 2147483647\na = 9223372036854775807_8\na = b**2147483647\n",
        "typed",
    ),
    ("k = 2147483648\n", "6: literal out of range"),
    ("a = 2147483648_4\n", "6: literal out of range"),
    // behind another fault
    ("a = x(2147483648, 1)\n", "6: rank x"),
    // in place of: kinds differ, division of data
    ("a = max(b, 2147483648)\n", "6: literal out of range"),
    ("a = b/2147483648\n", "6: literal out of range"),
    // kinds that differ
    ("a = max(b, 1_8)\nk = min(n, 1)\n", "typed"),
    ("a = max(b, 1)\n", "6: kinds differ"),
    ("if (min(1, b) < 2) k = 1\n", "6: kinds differ"),
    // in place of: division of data, data as index
    ("a = max(1, b/2)\n", "6: kinds differ"),
    ("k = max(1, a)\n", "6: kinds differ"),
    // divisions
    ("k = n/2 + mod(m, 3)\n", "typed"),
    ("a = b/2\n", "6: division of data"),
    ("a = 2/b\n", "6: division of data"),
    ("a = mod(n, 2_8)\n", "6: division of data"),
    // in place of: data as index
    ("k = a/2\n", "6: division of data"),
    // data as an index
    ("k = a\n", "6: data as index"),
    ("k = 1_8\n", "6: data as index"),
    ("y(n*a) = 1\n", "6: data as index"),
    ("do i = 1, a\nend do\n", "6: data as index"),
    ("do i = 1, 2, b\nend do\n", "6: data as index"),
    ("a = k\na = b + 1 + k\n", "typed"),
    // in place of: private, loop variable, atomic form, unlisted
    (
        "!$omp parallel do private(t)\ndo i = 1, n\nend do\nk = t\n",
        "9: data as index",
    ),
    ("k = t\ndo t = 1, 2\nend do\n", "6: data as index"),
    ("!$omp atomic\nk = a\n", "7: data as index"),
    (
        "!$omp parallel do default(none) shared(x)\ndo i = 1, n\nx(a) = 1\nend do\n",
        "8: data as index",
    ),
    // intents
    ("m = 1\n", "6: intent in m"),
    ("if (n < 1) b = 1\n", "6: intent in b"),
    ("p(1) = 1\n", "6: intent in p"),
    // in place of: loop variable, private, self subscript, unlisted
    ("m = 1\ndo m = 1, 2\nend do\n", "6: intent in m"),
    ("p(p(1)) = 1\n", "6: intent in p"),
    (
        "!$omp parallel do firstprivate(b)\ndo i = 1, n\nb = 1\nend do\n",
        "8: intent in b",
    ),
    (
        "!$omp parallel do default(none)\ndo i = 1, n\nb = 1\nend do\n",
        "8: intent in b",
    ),
    // subscripts of an assigned array
    ("c(p(1)) = c(1)\n", "typed"),
    ("c(c(1)) = 1\n", "6: self subscript c"),
    (
        "x(c(1) + 2*p(k)) = 1\ny(c(k - c(1))) = 1\nc(p(k) - c(1)) = 1\n",
        "8: self subscript c",
    ),
    ("x(x(1)) = 1\n", "6: self subscript x"),
    // before: loop variable
    ("c(c(i)) = 1\ndo i = 1, 2\nend do\n", "6: self subscript c"),
    // variables of loops
    (
        "do i = 1, n\nk = i\nend do\ndo i = 1, n\ndo j = i, n\nk = j\nend do\nend do\n",
        "typed",
    ),
    ("do m = 1, 2\nend do\n", "6: loop variable m"),
    ("do a = 1, 2\nend do\n", "6: loop variable a"),
    ("do c = 1, 2\nend do\n", "6: loop variable c"),
    ("do i = 1, 2\ni = 1\nend do\n", "7: loop variable i"),
    (
        "do i = 1, 2\ndo i = 1, 2\nend do\nend do\n",
        "7: loop variable i",
    ),
    ("do i = 1, i\nend do\n", "6: loop variable i"),
    ("do i = 1, 2\nend do\nk = i\n", "8: loop variable i"),
    // in place of: private
    (
        "k = i\ndo i = 1, n\nend do\n!$omp parallel do private(i)\ndo j = 1, n\nend do\n",
        "6: loop variable i",
    ),
    // private names
    (
        "!$omp parallel do private(t, i) firstprivate(u)\ndo i = 1, n\nt = u\nx(i) = t\nend do\n",
        "typed",
    ),
    (
        "!$omp parallel do private(a)\ndo i = 1, n\nend do\n",
        "6: private a",
    ),
    (
        "t = 1\n!$omp parallel do private(t)\ndo i = 1, n\nend do\n",
        "6: private t",
    ),
    (
        "!$omp parallel do private(k)\ndo i = 1, k\nend do\n",
        "7: private k",
    ),
    (
        "!$omp parallel do firstprivate(t)\ndo i = 1, n\nt = 1\nend do\n",
        "8: private t",
    ),
    // in place of: not shareable, reduction, unlisted
    (
        "!$omp parallel do private(x)\ndo i = 1, n\nend do\n",
        "6: private x",
    ),
    (
        "!$omp parallel do private(t)\ndo i = 1, n\nend do\n!$omp parallel do reduction(+: t)\ndo i = 1, n\nx(i) = t\nend do\n",
        "11: private t",
    ),
    (
        "!$omp parallel do private(t)\ndo i = 1, n\nend do\n!$omp parallel do default(none)\ndo i = 1, n\nt = 1\nend do\n",
        "11: private t",
    ),
    // reductions
    (
        "!$omp parallel do reduction(+: a, t)\ndo i = 1, n\na = a + x(i) - 2\nt = x(i) + t\nend do\n",
        "typed",
    ),
    (
        "!$omp parallel do reduction(+: k)\ndo i = 1, n\nend do\n",
        "6: reduction k",
    ),
    (
        "!$omp parallel do reduction(+: x)\ndo i = 1, n\nend do\n",
        "6: reduction x",
    ),
    (
        "!$omp parallel do reduction(+: a)\ndo i = 1, n\na = 2*a\nend do\n",
        "8: reduction a",
    ),
    (
        "!$omp parallel do reduction(+: a)\ndo i = 1, n\na = a + x(i)\nx(i) = a\nend do\n",
        "9: reduction a",
    ),
    // in place of: not shareable, atomic form
    (
        "!$omp parallel do reduction(+: i)\ndo i = 1, n\nend do\n",
        "6: reduction i",
    ),
    (
        "!$omp parallel do reduction(+: t)\ndo i = 1, n\n!$omp atomic\na = t\nend do\n",
        "9: reduction t",
    ),
    // atomic statements
    (
        "!$omp parallel do\ndo i = 1, n\n!$omp atomic\na = b + a\n!$omp atomic\nx(i) = x(i) + b + 2*b\n!$omp atomic\na = a - b\nend do\n",
        "typed",
    ),
    ("!$omp atomic\na = a + 1\n", "7: atomic form"),
    (
        "do i = 1, n\n!$omp atomic\na = a + 1\nend do\n",
        "8: atomic form",
    ),
    (
        "!$omp parallel do\ndo i = 1, n\n!$omp atomic\nx(i) = 1\nend do\n",
        "9: atomic form",
    ),
    (
        "!$omp parallel do\ndo i = 1, n\n!$omp atomic\na = a + b - 1\nend do\n",
        "9: atomic form",
    ),
    (
        "!$omp parallel do\ndo i = 1, n\n!$omp atomic\nk = k + 1\nend do\n",
        "9: atomic form",
    ),
    // in place of: unlisted
    (
        "!$omp parallel do default(none) shared(x)\ndo i = 1, n\n!$omp atomic\nx(i) = a\nend do\n",
        "9: atomic form",
    ),
    // names that can't be shared so
    (
        "!$omp parallel do firstprivate(x)\ndo i = 1, n\nend do\n",
        "6: not shareable x",
    ),
    (
        "!$omp parallel do shared(x, i)\ndo i = 1, n\nend do\n",
        "6: not shareable i",
    ),
    (
        "!$omp parallel do firstprivate(j)\ndo i = 1, n\ndo j = 1, n\nend do\nend do\n",
        "6: not shareable j",
    ),
    // before: collapse form
    (
        "!$omp parallel do collapse(2) shared(i)\ndo i = 1, n\nend do\n",
        "6: not shareable i",
    ),
    // names that no clause lists
    (
        "!$omp parallel do default(none) shared(x, c) private(t)\ndo i = 1, m\ndo j = 1, 2\nt = 1\nx(c(j)) = t\nend do\nend do\n",
        "typed",
    ),
    (
        "!$omp parallel do default(none)\ndo i = 1, n\nx(i) = 1\nend do\n",
        "8: unlisted x",
    ),
    (
        "!$omp parallel do default(none) shared(x)\ndo i = 1, n\nx(c(i)) = 1\nend do\n",
        "8: unlisted c",
    ),
    (
        "!$omp parallel do default(none)\ndo i = 1, n\ndo j = 1, m\nend do\nend do\n",
        "8: unlisted m",
    ),
    // hidden by: rank
    (
        "!$omp parallel do default(none)\ndo i = 1, n\nx(i, 1) = 1\nend do\n",
        "8: rank x",
    ),
    // two loops in one
    (
        "!$omp parallel do collapse(2)\ndo i = 1, n\ndo j = 1, m, p(1)\nx(i) = j\nend do\nend do\n",
        "typed",
    ),
    (
        "!$omp parallel do collapse(1)\ndo i = 1, n\nx(i) = 1\nend do\n",
        "typed",
    ),
    (
        "!$omp parallel do collapse(2)\ndo i = 1, n\nx(i) = 1\nend do\n",
        "6: collapse form",
    ),
    (
        "!$omp parallel do collapse(2)\ndo i = 1, n\ndo j = 1, n\nend do\nk = 1\nend do\n",
        "6: collapse form",
    ),
    (
        "!$omp parallel do collapse(2)\ndo i = 1, n\ndo j = 1, i\nend do\nend do\n",
        "6: collapse form",
    ),
    (
        "!$omp parallel do collapse(2)\ndo i = 1, n\ndo j = 1, n, c(1)\nc(j) = 1\nend do\nend do\n",
        "6: collapse form",
    ),
    // before: unlisted
    (
        "!$omp parallel do collapse(2) default(none)\ndo i = 1, n\nx(i) = 1\nend do\n",
        "6: collapse form",
    ),
];

fn expect_body<R: Abort>(rt: &R, alloc: Global, lines: &str, wanted: &str) -> Result<(), Memory> {
    let mut text = String::new(alloc);
    text.push_str(HEAD)
        .and(text.push_str(lines))
        .and(text.push_str("end\n"))?;
    expect_typed(rt, alloc, text.as_str(), wanted)
}

fn expect_bodies<R: Abort>(rt: &R, alloc: Global, rows: &[(&str, &str)]) -> Result<(), Memory> {
    for (lines, wanted) in rows {
        expect_body(rt, alloc, lines, wanted)?;
    }
    Ok(())
}

#[test]
fn statements_are_typed(rt: HostRuntime) -> Result<(), Memory> {
    expect_bodies(&rt, rt.alloc(), &BODIES)
}
