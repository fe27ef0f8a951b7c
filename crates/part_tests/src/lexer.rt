use crate::texts::{Shown, expect, push_times};
use fl_lexer::{LexError, Token, TokenKind, lex};
use std::alloc::Global;
use std::fmt::Write;
use std::process::Abort;

fn kind_letter(kind: TokenKind) -> char {
    match kind {
        TokenKind::Word => 'w',
        TokenKind::Number { .. } => 'n',
        TokenKind::Mark => 'm',
        TokenKind::Dots => 'd',
        TokenKind::Sentinel => 's',
        TokenKind::LineEnd => 'e',
    }
}

fn show_value(out: &mut String, kind: TokenKind) -> Shown {
    match kind {
        TokenKind::Number { value, suffix } => {
            let suffix = suffix.unwrap_or(0);
            write!(out, "={value}_{suffix}")
        }
        _ => Ok(()),
    }
}

/// A letter of the kind, the place and the number of bytes, as `w1:1+3`, and of a number its value and suffix.
fn show_token(out: &mut String, token: &Token) -> Shown {
    let kind = kind_letter(token.kind);
    let (line, col) = (token.line, token.col);
    let len = token.end.saturating_sub(token.start);
    write!(out, " {kind}{line}:{col}+{len}")?;
    show_value(out, token.kind)
}

fn show_tokens(out: &mut String, tokens: &[Token]) -> Shown {
    for token in tokens {
        show_token(out, token)?;
    }
    Ok(())
}

fn show(out: &mut String, outcome: &Result<Vec<Token>, LexError>) -> Shown {
    match outcome {
        Ok(tokens) => show_tokens(out, tokens),
        Err(LexError::BadByte { line, col }) => write!(out, " bad byte {line}:{col}"),
        Err(LexError::LongName { line }) => write!(out, " long name {line}"),
        Err(LexError::LongLine { line }) => write!(out, " long line {line}"),
        Err(LexError::OpenContinuation { line }) => write!(out, " open continuation {line}"),
        Err(LexError::WideLiteral { line }) => write!(out, " wide literal {line}"),
        Err(LexError::Memory) => out.push_str(" memory"),
    }
}

/// Shows what a text is read as.
fn tell(out: &mut String, alloc: Global, text: &[u8]) -> Shown {
    if text.len() > 2_000_000_000 {
        return Ok(());
    }
    show(out, &lex(alloc, text))
}

/// What a text is read as is what is wanted.
fn expect_told<R: Abort>(rt: &R, alloc: Global, text: &[u8], wanted: &str) -> Shown {
    let mut got = String::new(alloc);
    tell(&mut got, alloc, text)?;
    expect(rt, got.as_str(), wanted, text);
    Ok(())
}

static LINES: [(&str, &str); 44] = [
    // Lines.
    ("", ""),
    ("\n\n", ""),
    ("a", " w1:1+1 e1:2+0"),
    ("a\n", " w1:1+1 e1:2+1"),
    ("a\r\n", " w1:1+1 e1:2+2"),
    ("a\n b", " w1:1+1 e1:2+1 w2:2+1 e2:3+0"),
    ("a\rb", " bad byte 1:2"),
    ("a\r", " bad byte 1:2"),
    ("a\r\r\n", " bad byte 1:2"),
    ("! a\rb\r\n", ""),
    // Comments.
    (" \t! x = @\n", ""),
    ("a ! b\n", " w1:1+1 e1:6+1"),
    ("a!\n", " w1:1+1 e1:3+1"),
    ("a!$omp b\n", " w1:1+1 e1:9+1"),
    // Directives.
    ("!$omp a\n", " s1:1+5 w1:7+1 e1:8+1"),
    ("  !$OmP\ta\n", " s1:3+5 w1:9+1 e1:10+1"),
    ("!$omp", " s1:1+5 e1:6+0"),
    ("!$omp\r\n", " s1:1+5 e1:6+2"),
    ("!$ompa\n!$omp&\n!$omp!\n!$om p\n!$o\n!$\n!\n", ""),
    ("!$omp ! a\n", " s1:1+5 e1:10+1"),
    ("!$ a\n", " bad byte 1:1"),
    (" !$\ta\n", " bad byte 1:2"),
    ("!$", ""),
    // Continuation.
    ("a &\nb\n", " w1:1+1 w2:1+1 e2:2+1"),
    ("a & ! c\n\n ! d\n & b\n", " w1:1+1 w4:4+1 e4:5+1"),
    ("a &\n&\n& &\n&b&\nc\n", " w1:1+1 w4:2+1 w5:1+1 e5:2+1"),
    ("&\na\n", " w2:1+1 e2:2+1"),
    ("& a\n", " m1:1+1 w1:3+1 e1:4+1"),
    ("a & b\n", " w1:1+1 m1:3+1 w1:5+1 e1:6+1"),
    ("a & &\nb\n", " w1:1+1 m1:3+1 w2:1+1 e2:2+1"),
    ("a &\n& & b\n", " w1:1+1 m2:3+1 w2:5+1 e2:6+1"),
    ("a &", " open continuation 1"),
    ("a &\n\n! b\n", " open continuation 1"),
    ("\na &\n!$omp b\n", " open continuation 2"),
    ("a &\n& \n", " open continuation 2"),
    ("&", " open continuation 1"),
    ("a &\n!$ b\n", " bad byte 2:1"),
    ("a &\n& !$omp b\nc\n", " w1:1+1 w3:1+1 e3:2+1"),
    (
        "!$omp a &\n\n! c\n !$OMP b\n",
        " s1:1+5 w1:7+1 w4:8+1 e4:9+1",
    ),
    (
        "!$omp &\n!$omp &\n!$omp & a\n",
        " s1:1+5 m3:7+1 w3:9+1 e3:10+1",
    ),
    ("!$omp a &\n!$omp\n", " s1:1+5 w1:7+1 e2:6+1"),
    ("!$omp a &\nb\n", " open continuation 1"),
    ("!$omp a &\n!$ b\n", " open continuation 1"),
    ("!$omp a &\n", " open continuation 1"),
];

static TOKENS: [(&str, &str); 21] = [
    ("aB_9 _a", " bad byte 1:6"),
    ("a_ 9a", " w1:1+2 n1:4+1=9_0 w1:5+1 e1:6+0"),
    ("1_8 1_4 0", " n1:1+3=1_8 n1:5+3=1_4 n1:9+1=0_0 e1:10+0"),
    ("12_45", " n1:1+4=12_4 n1:5+1=5_0 e1:6+0"),
    ("1_8a", " n1:1+3=1_8 w1:4+1 e1:5+0"),
    ("1_2", " bad byte 1:2"),
    ("1_", " bad byte 1:2"),
    ("1_4_8", " bad byte 1:4"),
    (
        "9223372036854775807",
        " n1:1+19=9223372036854775807_0 e1:20+0",
    ),
    ("9223372036854775808", " wide literal 1"),
    (
        "\n 99999999999999999999999999999999999999999999_8",
        " wide literal 2",
    ),
    (
        "00000000000000000000000000000000000007",
        " n1:1+38=7_0 e1:39+0",
    ),
    (
        "***==/=<=>=:::<>",
        " m1:1+2 m1:3+1 m1:4+2 m1:6+2 m1:8+2 m1:10+2 m1:12+2 m1:14+1 m1:15+1 m1:16+1 e1:17+0",
    ),
    (
        "(),=+-*/",
        " m1:1+1 m1:2+1 m1:3+1 m1:4+1 m1:5+1 m1:6+1 m1:7+1 m1:8+1 e1:9+0",
    ),
    (
        "a.eq.1.NE.b",
        " w1:1+1 d1:2+4 n1:6+1=1_0 d1:7+4 w1:11+1 e1:12+0",
    ),
    (
        ".lt..le..gt..ge..and..or..not.",
        " d1:1+4 d1:5+4 d1:9+4 d1:13+4 d1:17+5 d1:22+4 d1:26+5 e1:31+0",
    ),
    (".eq.ne.", " bad byte 1:7"),
    (".eqv.", " bad byte 1:1"),
    ("a.eq", " bad byte 1:2"),
    ("1.5", " bad byte 1:2"),
    ("a;b", " bad byte 1:2"),
];

/// A front, a middle so many times, and a back, with what they are read as.
type Limit = (
    &'static str,
    &'static str,
    usize,
    &'static str,
    &'static str,
);

static LIMITS: [Limit; 22] = [
    // 1,024 bytes, and one more, of each kind of line.
    ("!", "x", 1023, "", ""),
    ("!", "x", 1023, "\r\n", ""),
    ("!", "x", 1024, "\n", " long line 1"),
    ("!", "x", 1023, "\r", " long line 1"),
    ("a", " ", 1023, "\n", " w1:1+1 e1:1025+1"),
    ("a", " ", 1024, "\n", " long line 1"),
    ("\na", " ", 1023, "b\n", " long line 2"),
    // What is refused before the byte of the limit, at it and behind it.
    ("", " ", 1023, "_ ", " bad byte 1:1024"),
    ("", " ", 1024, "_", " long line 1"),
    ("a & !", "x", 1024, "\n", " open continuation 1"),
    ("a & !", "x", 1024, "\nb", " long line 1"),
    ("", " ", 1023, "& ", " open continuation 1"),
    ("", " ", 1024, "&", " long line 1"),
    ("a &\n!", "x", 1024, "\n", " open continuation 1"),
    ("a &\n!", "x", 1024, "\nb", " long line 2"),
    ("", " ", 1019, "99999999999999999999", " wide literal 1"),
    ("", "0", 1025, "", " long line 1"),
    // Names of 63 and 64 bytes.
    ("a", "b", 62, "", " w1:1+63 e1:64+0"),
    ("a", "b", 63, "", " long name 1"),
    ("_a", "b", 63, "", " bad byte 1:1"),
    ("a", "b", 63, "_ _", " long name 1"),
    ("a", "b", 2000, "", " long name 1"),
];

fn expect_all<R: Abort>(rt: &R, alloc: Global, rows: &[(&str, &str)]) -> Shown {
    for (text, wanted) in rows {
        expect_told(rt, alloc, text.as_bytes(), wanted)?;
    }
    Ok(())
}

#[test]
fn lines_are_read(rt: HostRuntime) -> Shown {
    expect_all(&rt, rt.alloc(), &LINES)
}

#[test]
fn tokens_are_read(rt: HostRuntime) -> Shown {
    expect_all(&rt, rt.alloc(), &TOKENS)
}

fn push_limit(text: &mut String, row: &Limit) -> Shown {
    let (front, middle, times, back, _) = row;
    text.push_str(front)
        .and(push_times(text, middle, *times))
        .and(text.push_str(back))
}

fn expect_limit<R: Abort>(rt: &R, alloc: Global, row: &Limit) -> Shown {
    let mut text = String::new(alloc);
    push_limit(&mut text, row)?;
    expect_told(rt, alloc, text.as_bytes(), row.4)
}

fn expect_limits<R: Abort>(rt: &R, alloc: Global, rows: &[Limit]) -> Shown {
    for row in rows {
        expect_limit(rt, alloc, row)?;
    }
    Ok(())
}

#[test]
fn limits_are_exact(rt: HostRuntime) -> Shown {
    expect_limits(&rt, rt.alloc(), &LIMITS)
}

#[test]
fn a_comment_holds_any_bytes(rt: HostRuntime) -> Shown {
    expect_told(&rt, rt.alloc(), b"! \xc3\xa9\n \xc3", " bad byte 2:2")
}
