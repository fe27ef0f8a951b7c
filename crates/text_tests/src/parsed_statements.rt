//! Statements and directives.

use crate::parsed::expect_all_lines;
use crate::rows::Shown;

/// Statements, between the first line and the last.
static STATEMENTS: [(&str, &str); 65] = [
    // words that are names
    ("then = 1\n", "read"),
    (
        "none = kind + in*out\nprivate = static\nparallel = atomic\n",
        "read",
    ),
    ("if (c < d) then = 1\n", "read"),
    ("if (c < d) then(1) = 2\n", "read"),
    ("if (c < d) then\nthen = 1\nend if\n", "read"),
    ("if (c < d) then then = 1\n", "syntax 2:17"),
    // words that are none
    ("a = 1\nimplicit = 1\n", "syntax 3:1"),
    ("a = int(b)\n", "syntax 2:5"),
    ("a = merge(1, 2, b < c)\n", "syntax 2:5"),
    ("a = b(max)\n", "syntax 2:10"),
    ("a = b + implicit\n", "syntax 2:9"),
    ("save = 1\n", "construct 2 save"),
    ("if (a < b) return\n", "construct 2 return"),
    ("if (a < b) call t\n", "construct 2 call"),
    ("if (a < b) if (c < d) e = 1\n", "syntax 2:12"),
    ("do while (a < b)\nend do\n", "syntax 2:4"),
    ("if (a < b) then\nelse where\nend if\n", "syntax 3:6"),
    ("else = 1\n", "syntax 2:1"),
    // assignments
    (
        "A(1, b(2), -c) = -a**2*max(1, min(2, 3))/mod(b, 4) + abs(-1) - (+2_8)\n",
        "read",
    ),
    ("a\n", "syntax 2:2"),
    ("a = \n", "syntax 2:5"),
    ("a == 1\n", "syntax 2:3"),
    ("a() = 1\n", "syntax 2:3"),
    ("a = b()\n", "syntax 2:7"),
    ("a = -+1\n", "syntax 2:6"),
    ("a = 1 + -2\n", "syntax 2:9"),
    ("a = b**2147483647\na = b**2_8\n", "read"),
    ("a = b**2147483648\n", "syntax 2:8"),
    ("a = b**c\n", "syntax 2:8"),
    ("a = b**2**3\n", "syntax 2:9"),
    ("a = max(1)\n", "syntax 2:10"),
    ("a = mod(1, 2, 3)\n", "syntax 2:13"),
    ("a = abs(1, 2)\n", "syntax 2:10"),
    ("a = 1 2\n", "syntax 2:7"),
    ("a = b < c\n", "syntax 2:7"),
    // Ifs
    ("if (a < b) c = 1\nif (a < b) then\nendif\n", "read"),
    (
        "if (a < b) then\nc = 1\nelse if (c < d) then\nelseif (e < f) then\nc = 2\nelse\nc = 3\nend if\n",
        "read",
    ),
    ("if (a < b) then\nelse\nelse\nend if\n", "syntax 4:1"),
    (
        "if (a < b) then\nelse\nelse if (c < d) then\nend if\n",
        "syntax 4:1",
    ),
    (
        "if (a < b) then\nelse\nelseif (c < d) then\nend if\n",
        "syntax 4:1",
    ),
    ("if (a < b) then\nelse if (c < d)\nend if\n", "syntax 3:16"),
    (
        "if (a < b) then\nelse if (c < d) e = 1\nend if\n",
        "syntax 3:17",
    ),
    ("if (a < b) then\nc = 1\n", "syntax 4:4"),
    ("if (a < b) then\nend do\n", "syntax 3:5"),
    ("if (a < b)\n", "syntax 2:11"),
    ("if a < b then\n", "syntax 2:4"),
    ("if () then\n", "syntax 2:5"),
    ("if (a) then\n", "syntax 2:6"),
    ("elseif (a < b) then\n", "syntax 2:1"),
    ("endif\n", "syntax 2:1"),
    // brackets of expressions and of conditions
    (
        "if ((a) < b) c = 1\nif ((a < b)) c = 1\nif ((a) < (b)) c = 1\nif (.not. (a < b) .and. c < d) e = 1\n",
        "read",
    ),
    ("if ((a) < b .and. (c)) d = 1\n", "syntax 2:22"),
    ("if ((a < b) < c) d = 1\n", "syntax 2:13"),
    // loops
    ("do i = 1, n\nend do\n", "read"),
    (
        "do i = 1, n, -2\ndo j = i, 2*n\na(i) = j\nenddo\nenddo\n",
        "read",
    ),
    ("do i = 1\nend do\n", "syntax 2:9"),
    ("do i = 1, 2, 3, 4\nend do\n", "syntax 2:15"),
    ("do i(1) = 1, 2\nend do\n", "syntax 2:5"),
    ("do do = 1, 2\nend do\n", "syntax 2:4"),
    ("do i = 1, 2\nend if\n", "syntax 3:5"),
    ("do i = 1, 2\n", "syntax 3:4"),
    ("do i = 1, 2\nelse\nend do\n", "syntax 3:1"),
    ("do i = 1, 2\nend do i\n", "syntax 3:8"),
    ("end do\n", "syntax 2:5"),
    ("enddo\n", "syntax 2:1"),
];

/// Directives among statements, between the first line and the last.
static DIRECTIVES: [(&str, &str); 35] = [
    ("!$omp parallel do\ndo i = 1, n\nend do\n", "read"),
    (
        "!$omp parallel do private(j) schedule(static)\ndo i = 1, n\ndo j = 1, n\n!$omp atomic\na = a + j\nend do\n!$omp atomic update\nb = b + 1\n!$omp end atomic\nend do\n!$omp end parallel do\n!$omp parallel do\ndo k = 1, n\nenddo\n",
        "read",
    ),
    ("!$omp atomic\na = 1\n", "read"),
    (
        "!$omp atomic\na = 1\n!$omp end atomic\n!$omp atomic\nb = 1\n",
        "read",
    ),
    // what has to stand behind a directive
    ("!$omp parallel do\na = 1\n", "syntax 3:1"),
    ("!$omp parallel do\n", "syntax 3:1"),
    ("!$omp parallel do\ninteger a\n", "syntax 3:1"),
    ("!$omp parallel do\n!$omp parallel do\n", "syntax 3:1"),
    ("!$omp parallel do\n!$omp atomic\n", "syntax 3:1"),
    ("!$omp atomic\ndo i = 1, n\nend do\n", "syntax 3:1"),
    ("!$omp atomic\nif (a < b) c = 1\n", "syntax 3:1"),
    ("!$omp atomic\n!$omp atomic\na = 1\n", "syntax 3:1"),
    ("!$omp atomic\n!$omp end atomic\n", "syntax 3:1"),
    ("!$omp atomic\n", "syntax 3:1"),
    // loops in loops
    (
        "!$omp parallel do\ndo i = 1, n\n!$omp parallel do\ndo j = 1, n\n",
        "construct 4 parallel",
    ),
    (
        "!$omp parallel do\ndo i = 1, n\nif (a < b) then\na = 1\nend if\ndo j = 1, n\n!$omp &\n!$omp parallel do\n",
        "construct 9 parallel",
    ),
    (
        "!$omp parallel do\ndo i = 1, n\n!$omp parallel nowait\n",
        "construct 4 parallel",
    ),
    (
        "do i = 1, n\n!$omp parallel do\ndo j = 1, n\nend do\n!$omp parallel do\ndo j = 1, n\nend do\nend do\n",
        "read",
    ),
    // ends of directives
    ("!$omp end parallel do\n", "syntax 2:7"),
    ("a = 1\n!$omp end atomic\n", "syntax 3:7"),
    ("do i = 1, n\nend do\n!$omp end parallel do\n", "syntax 4:7"),
    (
        "!$omp parallel do\ndo i = 1, n\nend do\n!$omp end atomic\n",
        "syntax 5:11",
    ),
    (
        "!$omp parallel do\ndo i = 1, n\nend do\na = 1\n!$omp end parallel do\n",
        "syntax 6:7",
    ),
    (
        "!$omp parallel do\ndo i = 1, n\nend do\n!$omp end parallel do\n!$omp end parallel do\n",
        "syntax 6:7",
    ),
    (
        "!$omp parallel do\ndo i = 1, n\ndo j = 1, n\nend do\n!$omp end parallel do\nend do\n",
        "syntax 6:7",
    ),
    (
        "!$omp atomic\na = 1\n!$omp end parallel do\n",
        "syntax 4:11",
    ),
    (
        "!$omp parallel do\ndo i = 1, n\n!$omp atomic\na = 1\nend do\n!$omp end atomic\n",
        "syntax 7:11",
    ),
    (
        "if (a < b) then\n!$omp atomic\na = 1\nend if\n!$omp end atomic\n",
        "syntax 6:7",
    ),
    // a directive's own fault, where it comes first
    ("!$omp parallel do nowait\n", "unknown 2 nowait"),
    ("!$omp parallel do private(a, b, a)\n", "twice 2 a"),
    ("!$omp critical\n", "unknown 2 critical"),
    ("a = 1\n!$omp\n", "form 3"),
    (
        "!$omp parallel do\ndo i = 1, n\nend do\n!$omp end do\n",
        "form 5",
    ),
    ("!$omp end do\n", "syntax 2:7"),
    (
        "!$omp parallel do\ndo i = 1, n\nend do\n!$omp end parallel nowait\n",
        "unknown 5 nowait",
    ),
];

#[test]
fn statements_are_read(rt: HostRuntime) -> Shown {
    expect_all_lines(&rt, rt.alloc(), &STATEMENTS)
}

#[test]
fn directives_stand_in_their_places(rt: HostRuntime) -> Shown {
    expect_all_lines(&rt, rt.alloc(), &DIRECTIVES)
}
