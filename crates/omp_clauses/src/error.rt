//! Refusals and their places.

ghost use Rattle.std.specs.Prelude.{◌≡◌, ◌≤◌, IfOk, length, slice_get, take};
ghost use Rattle.tokens.specs.Spans.{Are_spans};
ghost use Rattle.omp_clauses.specs.Refused as spec;

use crate::clause::begins_clause;
use fl_base::{Memory, Name};
use parsing::{Cause, ClauseError, Fault, Symbol, lowered_text, symbol_of};
use std::alloc::Global;
use tokens::Token;

fn token_at(tokens: &[Token], at: usize) -> Option<Token>
    ensures { result ≡ slice_get tokens.now at }
{
    tokens.get(at).copied()
}

fn is_directive_word(symbol: Symbol) -> bool
    ensures { result ≡ spec.is_directive_word symbol }
{
    matches!(
        symbol,
        Symbol::Parallel | Symbol::Do | Symbol::End | Symbol::Atomic | Symbol::Update
    )
}

fn is_unknown(symbol: Symbol) -> bool
    ensures { result ≡ spec.is_unknown symbol }
{
    if !symbol.words() {
        return false;
    }
    !is_directive_word(symbol) && !begins_clause(symbol)
}

/// Whether a word stands there that no directive has outside brackets.
#[tactic(auto, using(crate::proofs::Spans::span_at))]
fn names_unknown(text: &[u8], tokens: &[Token], at: usize) -> bool
    requires { Are_spans text.now tokens.now }
    ensures { result ≡ spec.names_unknown text.now (slice_get tokens.now at) }
{
    match token_at(tokens, at) {
        Some(token) => is_unknown(symbol_of(text, token)),
        None => false,
    }
}

/// How many of these tokens have the symbol.
#[tactic(auto, using(crate::proofs::Spans::span_in))]
fn count_of(text: &[u8], symbol: Symbol, tokens: &[Token]) -> usize
    requires { Are_spans text.now tokens.now }
    ensures { result ≡ spec.count_of text.now symbol tokens.now }
{
    let mut count = 0;
    for token in tokens {
        if symbol.is(symbol_of(text, *token)) {
            count += 1;
        }
    }
    count
}

fn is_outside(text: &[u8], tokens: &[Token]) -> bool
    requires { Are_spans text.now tokens.now }
    ensures { result ≡ spec.is_outside text.now tokens.now }
{
    count_of(text, Symbol::Open, tokens) == count_of(text, Symbol::Close, tokens)
}

/// Why the token with so many before it is refused, all of one directive from its sentinel on: `found` is the cause
/// that the reader gave.
#[tactic(auto, using(crate::proofs::Spans::spans_before))]
pub fn cause_at(text: &[u8], tokens: &[Token], at: usize, found: Cause) -> Cause
    requires spans { Are_spans text.now tokens.now }
    requires inside { at ≤ length tokens.now }
    ensures { result ≡ spec.cause_at text.now tokens.now at found }
{
    if found == Cause::Twice {
        return Cause::Twice;
    }
    if is_outside(text, &tokens[..at]) && names_unknown(text, tokens, at) {
        Cause::Unknown
    } else {
        Cause::Form
    }
}

fn line_at(tokens: &[Token], at: usize) -> u32
    ensures { result ≡ spec.line_at tokens.now at }
{
    match token_at(tokens, at) {
        Some(token) => token.line,
        None => match token_at(tokens, tokens.len().saturating_sub(1)) {
            Some(last) => last.line,
            None => 1,
        },
    }
}

/// The word that stands there, letters lowered.
#[tactic(auto, using(crate::proofs::Spans::span_at))]
fn word_at(alloc: Global, text: &[u8], tokens: &[Token], at: usize) -> Result<Name, Memory>
    requires { Are_spans text.now tokens.now }
    ensures { IfOk result (λ word. word ≡ spec.word_of text.now (slice_get tokens.now at)) }
{
    match token_at(tokens, at) {
        Some(token) => lowered_text(alloc, text, token),
        None => Name::of(alloc, b""),
    }
}

fn error_at(
    alloc: Global,
    text: &[u8],
    tokens: &[Token],
    at: usize,
    found: Cause,
) -> Result<ClauseError, Memory>
    requires spans { Are_spans text.now tokens.now }
    requires inside { at ≤ length tokens.now }
    ensures { IfOk result (λ e. e ≡ spec.error_at text.now tokens.now at found) }
{
    let line = line_at(tokens, at);
    let word = word_at(alloc, text, tokens, at)?;
    Ok(match cause_at(text, tokens, at, found) {
        Cause::Unknown => ClauseError::Unknown { line, word },
        Cause::Twice => ClauseError::Twice { line, name: word },
        _ => ClauseError::Form { line },
    })
}

/// The error of a refused token.
pub fn error_of(
    alloc: Global,
    text: &[u8],
    tokens: &[Token],
    fault: Fault,
) -> Result<ClauseError, Memory>
    requires { Are_spans text.now tokens.now }
    ensures { IfOk result (λ e. e ≡ spec.error_of text.now tokens.now fault) }
{
    let at = tokens.len().saturating_sub(fault.left);
    error_at(alloc, text, tokens, at, fault.cause)
}
