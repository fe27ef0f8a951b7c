//! Limits, on both sides. The token that is due to be refused stands on a line of its own.

use crate::parsed::expect_read;
use crate::rows::Shown;
use std::alloc::Global;
use std::process::Abort;

/// Lines between the first and the last: `front`, so many times `open`, `middle`, so many times `close`, and `back`.
struct Row {
    front: &'static str,
    open: (usize, &'static str),
    middle: &'static str,
    close: (usize, &'static str),
    back: &'static str,
    wanted: &'static str,
}

fn push_times(text: &mut String, piece: (usize, &str)) -> Shown {
    let (times, piece) = piece;
    for _ in 0..times {
        text.push_str(piece)?;
    }
    Ok(())
}

fn push_text(text: &mut String, row: &Row) -> Shown {
    text.push_str("subroutine s\n")
        .and(text.push_str(row.front))
        .and(push_times(text, row.open))
        .and(text.push_str(row.middle))
        .and(push_times(text, row.close))
        .and(text.push_str(row.back))
        .and(text.push_str("end\n"))
}

fn expect_row<R: Abort>(rt: &R, alloc: Global, row: &Row) -> Shown {
    let mut text = String::new(alloc);
    push_text(&mut text, row)?;
    expect_read(rt, alloc, text.as_str(), row.wanted)
}

fn expect_rows<R: Abort>(rt: &R, alloc: Global, rows: &[Row]) -> Shown {
    for row in rows {
        expect_row(rt, alloc, row)?;
    }
    Ok(())
}

static ROWS: [Row; 73] = [
    // names
    Row {
        front: "",
        open: (511, "integer a\n"),
        middle: "integer a\n",
        close: (0, ""),
        back: "",
        wanted: "read",
    },
    Row {
        front: "",
        open: (512, "integer a\n"),
        middle: "integer &\na\n",
        close: (0, ""),
        back: "",
        wanted: "many 514",
    },
    Row {
        front: "integer a",
        open: (511, "&\n,a"),
        middle: "\n",
        close: (0, ""),
        back: "",
        wanted: "read",
    },
    Row {
        front: "integer a",
        open: (511, "&\n,a"),
        middle: "&\n,&\na\n",
        close: (0, ""),
        back: "",
        wanted: "many 514",
    },
    // statements
    Row {
        front: "",
        open: (4096, "a=1\n"),
        middle: "",
        close: (0, ""),
        back: "",
        wanted: "read",
    },
    Row {
        front: "",
        open: (4096, "a=1\n"),
        middle: "a&\n=1\n",
        close: (0, ""),
        back: "",
        wanted: "many 4098",
    },
    Row {
        front: "",
        open: (4094, "a=1\n"),
        middle: "if(a<b)c=1\n",
        close: (0, ""),
        back: "",
        wanted: "read",
    },
    Row {
        front: "",
        open: (4095, "a=1\n"),
        middle: "if(a<b)then\nendif\n",
        close: (0, ""),
        back: "",
        wanted: "read",
    },
    Row {
        front: "",
        open: (4095, "a=1\n"),
        middle: "if(a<b)&\nc&\n=1\n",
        close: (0, ""),
        back: "",
        wanted: "many 4098",
    },
    Row {
        front: "",
        open: (4095, "a=1\n"),
        middle: "if(a<b)then&\n=&\n1\n",
        close: (0, ""),
        back: "",
        wanted: "many 4098",
    },
    Row {
        front: "",
        open: (4095, "a=1\n"),
        middle: "if(a<b)then&\n(&\n1)=1\n",
        close: (0, ""),
        back: "",
        wanted: "many 4098",
    },
    Row {
        front: "",
        open: (4095, "a=1\n"),
        middle: "do i=1,2\nenddo\n",
        close: (0, ""),
        back: "",
        wanted: "read",
    },
    Row {
        front: "do i=1,2\n",
        open: (4095, "a=1\n"),
        middle: "do&\nj=1,2\n",
        close: (0, ""),
        back: "",
        wanted: "many 4098",
    },
    Row {
        front: "",
        open: (4095, "a=1\n"),
        middle: "!$omp atomic\na=1\n!$omp end atomic\n",
        close: (0, ""),
        back: "",
        wanted: "read",
    },
    Row {
        front: "",
        open: (4096, "a=1\n"),
        middle: "!$omp &\n!$omp atomic\n",
        close: (0, ""),
        back: "",
        wanted: "many 4098",
    },
    Row {
        front: "",
        open: (4095, "a=1\n"),
        middle: "!$omp atomic\na=1\n!$omp &\n!$omp atomic\n",
        close: (0, ""),
        back: "",
        wanted: "many 4100",
    },
    Row {
        front: "",
        open: (4095, "a=1\n"),
        middle: "!$omp atomic\na=1\n!$omp &\n!$omp parallel\n",
        close: (0, ""),
        back: "",
        wanted: "many 4100",
    },
    // blocks
    Row {
        front: "",
        open: (64, "if(a<b)then\n"),
        middle: "a=1\n",
        close: (64, "endif\n"),
        back: "",
        wanted: "read",
    },
    Row {
        front: "",
        open: (63, "if(a<b)then\n"),
        middle: "if(a<b)c=1\ndo i=1,2\nenddo\n",
        close: (63, "endif\n"),
        back: "",
        wanted: "read",
    },
    Row {
        front: "",
        open: (64, "if(a<b)then\n"),
        middle: "if&\n(a<b)c=1\n",
        close: (0, ""),
        back: "",
        wanted: "deep 66",
    },
    Row {
        front: "",
        open: (64, "do i=1,2\n"),
        middle: "do&\ni=1,2\n",
        close: (0, ""),
        back: "",
        wanted: "deep 66",
    },
    Row {
        front: "",
        open: (64, "do i=1,2\n"),
        middle: "!$omp &\n!$omp parallel&\n!$omp do\n",
        close: (0, ""),
        back: "",
        wanted: "deep 67",
    },
    Row {
        front: "",
        open: (63, "do i=1,2\n"),
        middle: "!$omp parallel do\ndo i=1,2\nenddo\n",
        close: (63, "enddo\n"),
        back: "",
        wanted: "read",
    },
    Row {
        front: "",
        open: (64, "do i=1,2\n"),
        middle: "!$omp atomic\na=1\n",
        close: (64, "enddo\n"),
        back: "",
        wanted: "read",
    },
    // several causes at one token
    Row {
        front: "",
        open: (64, "if(a<b)then\n"),
        middle: "",
        close: (4032, "a=1\n"),
        back: "if&\n(a<b)c=1\n",
        wanted: "deep 4098",
    },
    Row {
        front: "",
        open: (64, "if(a<b)then\n"),
        middle: "",
        close: (4032, "a=1\n"),
        back: "c&\n=1\n",
        wanted: "many 4098",
    },
    Row {
        front: "",
        open: (64, "if(a<b)then\n"),
        middle: "",
        close: (4032, "a=1\n"),
        back: "goto&\n1\n",
        wanted: "construct 4098 goto",
    },
    // brackets
    Row {
        front: "a=",
        open: (256, "("),
        middle: "b",
        close: (256, ")"),
        back: "\n",
        wanted: "read",
    },
    Row {
        front: "a=",
        open: (256, "("),
        middle: "&\n(&\nb\n",
        close: (0, ""),
        back: "",
        wanted: "deep 3",
    },
    Row {
        front: "a=",
        open: (255, "("),
        middle: "b(c)",
        close: (255, ")"),
        back: "\n",
        wanted: "read",
    },
    Row {
        front: "a=",
        open: (256, "("),
        middle: "b&\n(&\nc\n",
        close: (0, ""),
        back: "",
        wanted: "deep 3",
    },
    Row {
        front: "a=",
        open: (255, "("),
        middle: "abs(b)",
        close: (255, ")"),
        back: "\n",
        wanted: "read",
    },
    Row {
        front: "a=",
        open: (256, "("),
        middle: "&\nmax&\n(b\n",
        close: (0, ""),
        back: "",
        wanted: "deep 3",
    },
    Row {
        front: "a=",
        open: (256, "("),
        middle: "&\nmin&\n(b\n",
        close: (0, ""),
        back: "",
        wanted: "deep 3",
    },
    Row {
        front: "a=",
        open: (256, "("),
        middle: "&\nmod&\n(b\n",
        close: (0, ""),
        back: "",
        wanted: "deep 3",
    },
    Row {
        front: "a=",
        open: (256, "("),
        middle: "&\nabs&\n(b\n",
        close: (0, ""),
        back: "",
        wanted: "deep 3",
    },
    Row {
        front: "a(",
        open: (255, "("),
        middle: "b",
        close: (255, ")"),
        back: ")=1\n",
        wanted: "read",
    },
    Row {
        front: "a(",
        open: (255, "("),
        middle: "&\n(&\nb\n",
        close: (0, ""),
        back: "",
        wanted: "deep 3",
    },
    Row {
        front: "if(",
        open: (255, "("),
        middle: "a<b",
        close: (255, ")"),
        back: ")c=1\n",
        wanted: "read",
    },
    Row {
        front: "if(",
        open: (255, "("),
        middle: "&\n(&\na<b\n",
        close: (0, ""),
        back: "",
        wanted: "deep 3",
    },
    // expressions
    Row {
        front: "a=",
        open: (63, "b("),
        middle: "1",
        close: (63, ")"),
        back: "\n",
        wanted: "read",
    },
    Row {
        front: "a=",
        open: (63, "b("),
        middle: "+1",
        close: (63, ")"),
        back: "\n",
        wanted: "read",
    },
    Row {
        front: "a=",
        open: (63, "b("),
        middle: "c&\n(&\n1\n",
        close: (0, ""),
        back: "",
        wanted: "deep 3",
    },
    Row {
        front: "a=",
        open: (63, "b("),
        middle: "&\n-&\n1\n",
        close: (0, ""),
        back: "",
        wanted: "deep 3",
    },
    Row {
        front: "a=",
        open: (62, "b("),
        middle: "-1",
        close: (62, ")"),
        back: "\n",
        wanted: "read",
    },
    Row {
        front: "a=",
        open: (62, "b("),
        middle: "max(1,2)",
        close: (62, ")"),
        back: "\n",
        wanted: "read",
    },
    Row {
        front: "a=",
        open: (63, "b("),
        middle: "&\nmax&\n(1\n",
        close: (0, ""),
        back: "",
        wanted: "deep 3",
    },
    Row {
        front: "a=",
        open: (63, "b("),
        middle: "&\nmin&\n(1\n",
        close: (0, ""),
        back: "",
        wanted: "deep 3",
    },
    Row {
        front: "a=",
        open: (63, "b("),
        middle: "&\nmod&\n(1\n",
        close: (0, ""),
        back: "",
        wanted: "deep 3",
    },
    Row {
        front: "a=",
        open: (63, "b("),
        middle: "&\nabs&\n(1\n",
        close: (0, ""),
        back: "",
        wanted: "deep 3",
    },
    Row {
        front: "a=",
        open: (62, "b("),
        middle: "1+2",
        close: (62, ")"),
        back: "\n",
        wanted: "read",
    },
    Row {
        front: "a=",
        open: (62, "b("),
        middle: "1**2",
        close: (62, ")"),
        back: "\n",
        wanted: "read",
    },
    Row {
        front: "a=",
        open: (63, "b("),
        middle: "1&\n+&\n2\n",
        close: (0, ""),
        back: "",
        wanted: "deep 3",
    },
    Row {
        front: "a=",
        open: (63, "b("),
        middle: "1&\n-&\n2\n",
        close: (0, ""),
        back: "",
        wanted: "deep 3",
    },
    Row {
        front: "a=",
        open: (63, "b("),
        middle: "1&\n*&\n2\n",
        close: (0, ""),
        back: "",
        wanted: "deep 3",
    },
    Row {
        front: "a=",
        open: (63, "b("),
        middle: "1&\n/&\n2\n",
        close: (0, ""),
        back: "",
        wanted: "deep 3",
    },
    Row {
        front: "a=",
        open: (63, "b("),
        middle: "1&\n**&\n2\n",
        close: (0, ""),
        back: "",
        wanted: "deep 3",
    },
    Row {
        front: "a=1",
        open: (63, "-1"),
        middle: "\n",
        close: (0, ""),
        back: "",
        wanted: "read",
    },
    Row {
        front: "a=1",
        open: (63, "-1"),
        middle: "&\n-&\n1\n",
        close: (0, ""),
        back: "",
        wanted: "deep 3",
    },
    Row {
        front: "a=1",
        open: (63, "*1"),
        middle: "&\n*&\n1\n",
        close: (0, ""),
        back: "",
        wanted: "deep 3",
    },
    Row {
        front: "a(",
        open: (63, "b("),
        middle: "1",
        close: (63, ")"),
        back: ")=1\n",
        wanted: "read",
    },
    Row {
        front: "a(",
        open: (63, "b("),
        middle: "c&\n(&\n1\n",
        close: (0, ""),
        back: "",
        wanted: "deep 3",
    },
    // conditions
    Row {
        front: "if(",
        open: (61, ".not.("),
        middle: ".not.a<b",
        close: (61, ")"),
        back: ")c=1\n",
        wanted: "read",
    },
    Row {
        front: "if(",
        open: (62, ".not.("),
        middle: "a<b",
        close: (62, ")"),
        back: ")c=1\n",
        wanted: "read",
    },
    Row {
        front: "if(",
        open: (62, ".not.("),
        middle: "&\n.not.&\na<b\n",
        close: (0, ""),
        back: "",
        wanted: "deep 3",
    },
    Row {
        front: "if(",
        open: (62, ".not.("),
        middle: "a<b&\n.and.&\nc<d\n",
        close: (0, ""),
        back: "",
        wanted: "deep 3",
    },
    Row {
        front: "if(",
        open: (62, ".not.("),
        middle: "a<b&\n.or.&\nc<d\n",
        close: (0, ""),
        back: "",
        wanted: "deep 3",
    },
    Row {
        front: "if(",
        open: (62, ".not.("),
        middle: "a&\n+&\n1<b\n",
        close: (0, ""),
        back: "",
        wanted: "deep 3",
    },
    Row {
        front: "if(",
        open: (62, ".not.("),
        middle: "a<b&\n(&\n1)\n",
        close: (0, ""),
        back: "",
        wanted: "deep 3",
    },
    Row {
        front: "if(",
        open: (62, ".not.("),
        middle: "&\n-&\na<b\n",
        close: (0, ""),
        back: "",
        wanted: "deep 3",
    },
    Row {
        front: "if(a<b",
        open: (62, ".and.a<b"),
        middle: ")c=1\n",
        close: (0, ""),
        back: "",
        wanted: "read",
    },
    Row {
        front: "if(a<b",
        open: (62, ".and.a<b"),
        middle: "&\n.and.&\nc<d\n",
        close: (0, ""),
        back: "",
        wanted: "deep 3",
    },
    Row {
        front: "if(a<b",
        open: (62, ".or.a<b"),
        middle: "&\n.or.&\nc<d\n",
        close: (0, ""),
        back: "",
        wanted: "deep 3",
    },
];

#[test]
fn limits_are_exact(rt: HostRuntime) -> Shown {
    expect_rows(&rt, rt.alloc(), &ROWS)
}
