//! Units and their declarations.

use crate::parsed::{expect_all_lines, expect_all_read};
use crate::rows::Shown;

/// Whole texts.
static UNITS: [(&str, &str); 30] = [
    ("SUBROUTINE s\nEnd", "read"),
    ("subroutine s()\nend\n", "read"),
    (
        "subroutine s(a, b, c)\nimplicit none\ninteger a, b\ninteger c\na = b\nb = c\nEndSubroutine S\n",
        "read",
    ),
    ("subroutine s\nend subroutine\n", "read"),
    ("subroutine s\nendsubroutine\n", "read"),
    // the unit's name may be any word, and stands again behind its end
    ("subroutine block\nend subroutine Block\n", "read"),
    ("subroutine end\nendsubroutine end\n", "read"),
    ("subroutine s\nend subroutine t\n", "syntax 2:16"),
    ("subroutine s\nend s\n", "syntax 2:5"),
    ("subroutine s\nend subroutine s s\n", "syntax 2:18"),
    ("subroutine 1\nend\n", "syntax 1:12"),
    ("a subroutine s\nend\n", "syntax 1:1"),
    // arguments
    ("subroutine s(a,)\nend\n", "syntax 1:16"),
    ("subroutine s(a b)\nend\n", "syntax 1:16"),
    ("subroutine s(max)\nend\n", "syntax 1:14"),
    ("subroutine s(a) b\nend\n", "syntax 1:17"),
    // the end of input
    ("", "syntax 1:1"),
    ("\n! a comment\n", "syntax 3:1"),
    ("subroutine", "syntax 1:11"),
    ("subroutine s", "syntax 1:13"),
    ("subroutine s(\n", "syntax 1:14"),
    // the order of the parts
    ("subroutine s\nimplicit\nend\n", "syntax 2:9"),
    (
        "subroutine s\nimplicit none\nimplicit none\nend\n",
        "syntax 3:1",
    ),
    ("subroutine s\na = 1\ninteger a\nend\n", "syntax 3:1"),
    ("!$omp parallel do\nsubroutine s\nend\n", "syntax 1:1"),
    // behind the end, and words that begin what the language leaves out
    ("subroutine s\nend\nend\n", "syntax 3:1"),
    ("subroutine s\nend\nGoto\n", "construct 3 goto"),
    ("module m\n", "construct 1 module"),
    ("call s\n", "construct 1 call"),
    ("subroutine s\nend program\n", "syntax 2:5"),
];

/// Declarations, between the first line and the last.
static DECLARATIONS: [(&str, &str); 42] = [
    ("integer a\n", "read"),
    (
        "INTEGER(KIND=8), INTENT(IN OUT) :: a(2*n-1, -3:4*m+5, -2*k:7), b, c(n:m)\n",
        "read",
    ),
    ("integer(kind=1) :: a\ninteger(2) b\ninteger(4) c\n", "read"),
    (
        "integer, intent(in) :: a\ninteger, intent(out) :: b\n",
        "read",
    ),
    (
        "integer kind, none, then, in, integer1, static, do1\n",
        "read",
    ),
    ("integer if\n", "syntax 2:9"),
    ("integer function\n", "syntax 2:9"),
    ("real a\n", "construct 2 real"),
    // kinds
    ("integer(kind=3) a\n", "syntax 2:14"),
    ("integer(04) a\n", "syntax 2:9"),
    ("integer(4_4) a\n", "syntax 2:9"),
    ("integer(kind 4) a\n", "syntax 2:14"),
    ("integer(kind) a\n", "syntax 2:13"),
    ("integer() a\n", "syntax 2:9"),
    ("integer*8 a\n", "syntax 2:8"),
    // intents
    ("integer, intent(in) a\n", "syntax 2:21"),
    ("integer, intent(inin) :: a\n", "syntax 2:17"),
    ("integer, intent(in in) :: a\n", "syntax 2:20"),
    ("integer, intent(out in) :: a\n", "syntax 2:21"),
    ("integer, save :: a\n", "syntax 2:10"),
    // items
    ("integer\n", "syntax 2:8"),
    ("integer ::\n", "syntax 2:11"),
    ("integer a,\n", "syntax 2:11"),
    ("integer a b\n", "syntax 2:11"),
    ("integer a()\n", "syntax 2:11"),
    ("integer a(:n)\n", "syntax 2:11"),
    ("integer a(n:)\n", "syntax 2:13"),
    ("integer a(*)\n", "syntax 2:11"),
    // bounds
    ("integer a(0-1, 2*3-4*n, 1, 1, 1, 1, 1, 1)\n", "read"),
    ("integer a(4294967295, -4294967295, 1_4)\n", "read"),
    ("integer a(4294967296)\n", "syntax 2:11"),
    ("integer a(-4294967296)\n", "syntax 2:12"),
    ("integer a(n-4294967296)\n", "syntax 2:13"),
    ("integer a(1_8)\n", "syntax 2:11"),
    ("integer a(-n)\n", "syntax 2:12"),
    ("integer a(+1)\n", "syntax 2:11"),
    ("integer a((1))\n", "syntax 2:11"),
    ("integer a(2*-3)\n", "syntax 2:13"),
    ("integer a(1+2+3)\n", "syntax 2:14"),
    ("integer a(n*m*2)\n", "syntax 2:14"),
    ("integer a(n**2)\n", "syntax 2:12"),
    ("integer a(max(n, 1))\n", "syntax 2:11"),
];

#[test]
fn units_are_read(rt: HostRuntime) -> Shown {
    expect_all_read(&rt, rt.alloc(), &UNITS)
}

#[test]
fn declarations_are_read(rt: HostRuntime) -> Shown {
    expect_all_lines(&rt, rt.alloc(), &DECLARATIONS)
}
