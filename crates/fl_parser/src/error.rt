//! Refusals and their places.

ghost use Rattle.std.specs.Prelude.{◌≡◌, ◌+◌, ◌<◌, ◌≤◌, ◌-◌, ◌^◌, IfOk, IsTrue, length, drop, slice_get};
ghost use Rattle.fl_statements.specs.Terminals.{is_construct as is_construct_lem};
ghost use Rattle.tokens.specs.Spans.{Are_spans};
ghost use Rattle.fl_parser.specs.Parsed as spec;

use fl_base::{Memory, Name};
use omp_clauses::own_cause;
use parsing::{Cause, ClauseError, Fault, Symbol, lowered_text, symbol_of};
use std::alloc::Global;
use thiserror::Error;
use tokens::{Token, TokenKind};

/// Why a text isn't parsed.
#[derive(Debug, Drop, Error)]
pub enum ParseError {
    /// The first token, or the end of input, at which no program goes on.
    #[error("syntax")]
    Expected { line: u32, col: u32 },
    /// Such a token that begins a statement, and is a word of a construct outside the language.
    #[error("construct")]
    Construct { line: u32, which: Name },
    /// Such a token at which the directive is refused by itself. It holds no want of memory.
    #[error("clause")]
    Clause(ClauseError),
    /// A token with which a program would be too deep.
    #[error("too deep")]
    Deep { line: u32 },
    /// A token with which a program would have too many statements or names.
    #[error("too many")]
    Many { line: u32 },
    #[error("no memory")]
    Memory,
}

impl From<Memory> for ParseError {
    ghost use Rattle.std.specs.Prelude.{◌≡◌};
    ghost use Rattle.fl_parser.specs.declared.error.ParseError.TheVariants.{Memory as wanting};

    ghost from_gives = { λ _ e. e ≡ wanting };

    fn from(_: Memory) -> ParseError {
        ParseError::Memory
    }
}

/// A line and a column, both counted from 1.
#[derive(Clone, Copy, Debug, PartialEq, Eq)]
pub struct Position {
    pub line: u32,
    pub col: u32,
}

/// Where one more byte of the text would be.
fn end_of(text: &[u8]) -> Position
    requires { length text.now + 1 < 2 ^ 32 }
    ensures { result ≡ spec.end_of text.now }
{
    let mut line = 1;
    let mut col = 1;
    for b in text {
        if *b == b'\n' {
            line += 1;
            col = 1;
        } else {
            col += 1;
        }
    }
    Position { line, col }
}

/// The token with so many before it.
pub fn token_at(tokens: &[Token], at: usize) -> Option<Token>
    ensures { result ≡ slice_get tokens.now at }
{
    tokens.get(at).copied()
}

/// Where that token is, or the end of the text.
pub fn spot_at(text: &[u8], tokens: &[Token], at: usize) -> Position
    requires { length text.now + 1 < 2 ^ 32 }
    ensures { result ≡ spec.spot_of text.now (slice_get tokens.now at) }
{
    match token_at(tokens, at) {
        Some(token) => Position {
            line: token.line,
            col: token.col,
        },
        None => end_of(text),
    }
}

/// Whether the token with so many before it is the first of its line.
pub fn begins_line(tokens: &[Token], before: usize) -> bool
    ensures { result ≡ spec.begins_line tokens.now before }
{
    if before == 0 {
        return true;
    }
    match token_at(tokens, before - 1) {
        Some(token) => token.kind == TokenKind::LineEnd,
        None => false,
    }
}

fn is_construct(symbol: Symbol) -> bool
    ensures { result ≡ is_construct_lem symbol }
{
    matches!(symbol, Symbol::Construct | Symbol::Call)
}

/// Whether the token is a word that begins a construct outside the language.
#[tactic(auto, using(crate::proofs::Spans::span_at))]
fn names_construct(text: &[u8], tokens: &[Token], at: usize) -> bool
    requires { Are_spans text.now tokens.now }
    ensures { result ≡ spec.names_construct text.now (slice_get tokens.now at) }
{
    match token_at(tokens, at) {
        Some(token) => is_construct(symbol_of(text, token)),
        None => false,
    }
}

/// How many tokens stand before the line of the token with so many before it.
fn line_start(tokens: &[Token], at: usize) -> usize
    ensures { result ≡ spec.line_start tokens.now at }
{
    let mut start = 0;
    for before in 0..at {
        if is_line_end(tokens, before) {
            start = before + 1;
        }
    }
    start
}

/// The tokens with so many before them.
fn behind(tokens: &[Token], start: usize) -> &[Token]
    requires { start ≤ length tokens.now }
    ensures { result.now ≡ drop start tokens.now }
{
    &tokens[start..]
}

fn is_line_end(tokens: &[Token], at: usize) -> bool
    ensures { result ≡ spec.is_line_end (slice_get tokens.now at) }
{
    match token_at(tokens, at) {
        Some(token) => token.kind == TokenKind::LineEnd,
        None => false,
    }
}

fn is_sentinel(tokens: &[Token], at: usize) -> bool
    ensures is { result ≡ spec.is_sentinel (slice_get tokens.now at) }
    ensures inside { IsTrue result → at ≤ length tokens.now }
{
    match token_at(tokens, at) {
        Some(token) => token.kind == TokenKind::Sentinel,
        None => false,
    }
}

/// The cause of the directive that begins with the token with `start` before it, where it is refused by itself at the
/// token with `at` before it.
#[tactic(auto, using(crate::proofs::Spans::spans_behind))]
fn in_directive(
    alloc: Global,
    text: &[u8],
    tokens: &[Token],
    start: usize,
    at: usize,
    found: Cause,
) -> Result<Cause, Memory>
    requires { Are_spans text.now tokens.now }
    ensures { IfOk result (λ c. c ≡ spec.in_directive text.now tokens.now start at found) }
{
    if !is_sentinel(tokens, start) {
        return Ok(found);
    }
    let own = own_cause(
        alloc,
        text,
        behind(tokens, start),
        tokens.len().saturating_sub(at),
    )?;
    Ok(own.unwrap_or(found))
}

/// The cause, that of the directive itself where the token stands in one.
pub fn told_apart(
    alloc: Global,
    text: &[u8],
    tokens: &[Token],
    at: usize,
    found: Cause,
) -> Result<Cause, Memory>
    requires { Are_spans text.now tokens.now }
    ensures { IfOk result (λ c. c ≡ spec.told_apart text.now tokens.now at found) }
{
    match found {
        Cause::Expected => Ok(in_directive(
            alloc,
            text,
            tokens,
            line_start(tokens, at),
            at,
            found,
        )?),
        _ => Ok(found),
    }
}

fn cause_at(
    alloc: Global,
    text: &[u8],
    tokens: &[Token],
    at: usize,
    found: Cause,
) -> Result<Cause, Memory>
    requires { Are_spans text.now tokens.now }
    ensures { IfOk result (λ c. c ≡ spec.cause_at text.now tokens.now at found) }
{
    if begins_line(tokens, at) && names_construct(text, tokens, at) {
        return Ok(Cause::Construct);
    }
    told_apart(alloc, text, tokens, at, found)
}

/// The word that stands there, letters lowered.
#[tactic(auto, using(crate::proofs::Spans::span_at))]
pub fn word_at(alloc: Global, text: &[u8], tokens: &[Token], at: usize) -> Result<Name, Memory>
    requires { Are_spans text.now tokens.now }
    ensures { IfOk result (λ word. word ≡ spec.word_of text.now (slice_get tokens.now at)) }
{
    match token_at(tokens, at) {
        Some(token) => lowered_text(alloc, text, token),
        None => Name::of(alloc, b""),
    }
}

/// The error of a token of this cause, with its place and its letters.
pub fn error_by(cause: Cause, spot: Position, word: Name) -> ParseError
    ensures { result ≡ spec.error_by cause spot word }
{
    let Position { line, col } = spot;
    match cause {
        Cause::Expected => ParseError::Expected { line, col },
        Cause::Deep => ParseError::Deep { line },
        Cause::Many => ParseError::Many { line },
        Cause::Construct => ParseError::Construct { line, which: word },
        Cause::Unknown => ParseError::Clause(ClauseError::Unknown { line, word }),
        Cause::Twice => ParseError::Clause(ClauseError::Twice { line, name: word }),
        Cause::Form => ParseError::Clause(ClauseError::Form { line }),
    }
}

fn error_at(
    alloc: Global,
    text: &[u8],
    tokens: &[Token],
    at: usize,
    found: Cause,
) -> Result<ParseError, Memory>
    requires spans { Are_spans text.now tokens.now }
    requires fits { length text.now + 1 < 2 ^ 32 }
    ensures { IfOk result (λ e. e ≡ spec.error_at text.now tokens.now at found) }
{
    let spot = spot_at(text, tokens, at);
    let word = word_at(alloc, text, tokens, at)?;
    let cause = cause_at(alloc, text, tokens, at, found)?;
    Ok(error_by(cause, spot, word))
}

/// The error of a refused token.
pub fn error_of(
    alloc: Global,
    text: &[u8],
    tokens: &[Token],
    fault: Fault,
) -> Result<ParseError, Memory>
    requires spans { Are_spans text.now tokens.now }
    requires fits { length text.now + 1 < 2 ^ 32 }
    ensures { IfOk result (λ e. e ≡ spec.error_of text.now tokens.now fault) }
{
    let at = tokens.len().saturating_sub(fault.left);
    error_at(alloc, text, tokens, at, fault.cause)
}
