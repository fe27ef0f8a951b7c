//! Refusals and their places. They are told as those of programs, but that `call` begins a statement of an adjoint.

ghost use Rattle.std.specs.Prelude.{◌≡◌, ◌+◌, ◌<◌, ◌^◌, IfOk, length, slice_get};
ghost use Rattle.tokens.specs.Spans.{Are_spans};
ghost use Rattle.adjoint_parser.specs.Parsed as spec;

use fl_base::Memory;
use fl_parser::{ParseError, begins_line, error_by, spot_at, token_at, told_apart, word_at};
use parsing::{Cause, Fault, Symbol, symbol_of};
use std::alloc::Global;
use tokens::Token;

/// Whether the token is a word that begins a construct outside the language.
#[tactic(auto, using(fl_parser::proofs::Spans::span_at))]
fn names_construct(text: &[u8], tokens: &[Token], at: usize) -> bool
    requires { Are_spans text.now tokens.now }
    ensures { result ≡ spec.names_construct text.now (slice_get tokens.now at) }
{
    match token_at(tokens, at) {
        Some(token) => Symbol::Construct.is(symbol_of(text, token)),
        None => false,
    }
}

fn cause_at(
    alloc: Global,
    text: &[u8],
    tokens: &[Token],
    at: usize,
    found: Cause,
) -> Result<Cause, Memory>
    requires { Are_spans text.now tokens.now }
    ensures { IfOk result (λ c. c ≡ spec.cause_at text.now tokens.now at found) }
{
    if begins_line(tokens, at) && names_construct(text, tokens, at) {
        return Ok(Cause::Construct);
    }
    told_apart(alloc, text, tokens, at, found)
}

fn error_at(
    alloc: Global,
    text: &[u8],
    tokens: &[Token],
    at: usize,
    found: Cause,
) -> Result<ParseError, Memory>
    requires spans { Are_spans text.now tokens.now }
    requires fits { length text.now + 1 < 2 ^ 32 }
    ensures { IfOk result (λ e. e ≡ spec.error_at text.now tokens.now at found) }
{
    let spot = spot_at(text, tokens, at);
    let word = word_at(alloc, text, tokens, at)?;
    let cause = cause_at(alloc, text, tokens, at, found)?;
    Ok(error_by(cause, spot, word))
}

/// The error of a refused token.
pub fn error_of(
    alloc: Global,
    text: &[u8],
    tokens: &[Token],
    fault: Fault,
) -> Result<ParseError, Memory>
    requires spans { Are_spans text.now tokens.now }
    requires fits { length text.now + 1 < 2 ^ 32 }
    ensures { IfOk result (λ e. e ≡ spec.error_of text.now tokens.now fault) }
{
    let at = tokens.len().saturating_sub(fault.left);
    error_at(alloc, text, tokens, at, fault.cause)
}
