//! Declarations.

use crate::typed::expect_all_typed;
use fl_base::Memory;

/// Whole texts, with the line and the rule that is broken first.
static UNITS: [(&str, &str); 31] = [
    // names that aren't declared
    ("subroutine s\nend\n", "typed"),
    ("subroutine s(q)\nend\n", "1: undeclared q"),
    // in place of: rank
    ("subroutine s(x)\ninteger x(2, q)\nend\n", "2: undeclared q"),
    // names that are declared twice
    (
        "subroutine s(n, n)\ninteger n\nend\n",
        "1: declared twice n",
    ),
    (
        "subroutine s\ninteger a, b\ninteger a\nend\n",
        "3: declared twice a",
    ),
    // hidden by: undeclared
    ("subroutine s(q, q)\nend\n", "1: undeclared q"),
    // in place of: local array, mixed data kinds
    (
        "subroutine s\ninteger a\ninteger a(3)\nend\n",
        "3: declared twice a",
    ),
    (
        "subroutine s\ninteger(8) a\ninteger(1) a\nend\n",
        "3: declared twice a",
    ),
    // reserved names
    ("subroutine s_b\nend\n", "1: reserved name s_b"),
    ("subroutine formad_(q)\nend\n", "1: reserved name formad_"),
    ("subroutine s\ninteger a_b\nend\n", "2: reserved name a_b"),
    (
        "subroutine formad\ninteger b_, formada, a_bb\nend\n",
        "typed",
    ),
    (
        "subroutine s\ninteger nnnnnnnnnnnnnnnnnnnnnnnnnnnnnnnnnnnnnnnnnnnnnnnnnnnnnnnnnnnnn\nend\n",
        "typed",
    ),
    (
        "subroutine s\ninteger nnnnnnnnnnnnnnnnnnnnnnnnnnnnnnnnnnnnnnnnnnnnnnnnnnnnnnnnnnnnnn\nend\n",
        "2: reserved name nnnnnnnnnnnnnnnnnnnnnnnnnnnnnnnnnnnnnnnnnnnnnnnnnnnnnnnnnnnnnn",
    ),
    // hidden by: declared twice, undeclared
    (
        "subroutine s(a_b, a_b)\ninteger a_b\nend\n",
        "1: declared twice a_b",
    ),
    ("subroutine s(a_b)\nend\n", "1: undeclared a_b"),
    // in place of: local array
    (
        "subroutine s\ninteger a_b(3)\nend\n",
        "2: reserved name a_b",
    ),
    // local arrays
    ("subroutine s\ninteger a(3)\nend\n", "2: local array a"),
    // in place of: rank, mixed data kinds
    (
        "subroutine s\ninteger a(1, 1, 1, 1, 1, 1, 1, 1)\nend\n",
        "2: local array a",
    ),
    (
        "subroutine s(x)\ninteger(8) x\ninteger(1) a(3)\nend\n",
        "3: local array a",
    ),
    // ranks
    (
        "subroutine s(x)\ninteger x(1, 1, 1, 1, 1, 1, 1)\nend\n",
        "typed",
    ),
    (
        "subroutine s(x)\ninteger x(1, 1, 1, 1, 1, 1, 1, 1)\nend\n",
        "2: rank x",
    ),
    ("subroutine s(x)\ninteger k, x(k)\nend\n", "2: rank k"),
    (
        "subroutine s(b, x)\ninteger(8) b\ninteger x(2*b)\nend\n",
        "3: rank b",
    ),
    (
        "subroutine s(c, x)\ninteger c(2), x(1:c)\nend\n",
        "2: rank c",
    ),
    ("subroutine s(n, x)\ninteger x(n:2*n), n\nend\n", "typed"),
    // in place of: loop variable
    (
        "subroutine s(x)\ninteger i, x(i)\ndo i = 1, 2\nend do\nend\n",
        "2: rank i",
    ),
    // bounds may have greater literals than expressions
    ("subroutine s(x)\ninteger x(4294967295)\nend\n", "typed"),
    // kinds of data
    (
        "subroutine s(x, y)\ninteger(1) x\ninteger(2) y\nend\n",
        "3: mixed data kinds y",
    ),
    (
        "subroutine s(x, y)\ninteger(1) x, y\ninteger(4) k\ninteger(1) z\nend\n",
        "typed",
    ),
    (
        "subroutine s(x, y)\ninteger(2) x\ninteger(8) y\ny = q\nend\n",
        "3: mixed data kinds y",
    ),
];

#[test]
fn declarations_are_typed(rt: HostRuntime) -> Result<(), Memory> {
    expect_all_typed(&rt, rt.alloc(), &UNITS)
}
