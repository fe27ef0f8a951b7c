//! The lines of a derivation.

ghost use Rattle.std.specs.Prelude.{◌≡◌, IfOk, option_and_then, option_map};
ghost use Rattle.certificate.specs.declared.derivation.Line.TheVariants.{Comb};
ghost use Rattle.certificate.specs.declared.derivation.Close.TheVariants.{Residue, Range};
ghost use Rattle.certificate.specs.Reading.{texts, numbers_in, multiples_in, hyp_of, cong_of, line_of as line_of_lem, line_by as line_by_lem, line_in, distinct_of, one_of, fact_of, close_of as close_of_lem, close_in, heading_of as heading_of_lem, heading_in};

use crate::derivation::{Close, Heading, Line};
use crate::number::is_text;
use crate::words::{read_multiples, read_numbers};
use fl_base::{Items, Memory};
use std::alloc::Global;

fn hyp(numbers: &[u32]) -> Option<Line>
    ensures { result ≡ hyp_of numbers.now }
{
    match numbers {
        [number] => Some(Line::Hyp(*number)),
        _ => None,
    }
}

fn cong(alloc: Global, numbers: &[u32]) -> Result<Option<Line>, Memory>
    ensures { IfOk result (λ o. o ≡ cong_of numbers.now) }
{
    match numbers {
        [first, second, lines @ ..] => Ok(Some(Line::Cong {
            first: *first,
            second: *second,
            lines: Items::from_slice(alloc, lines)?,
        })),
        _ => Ok(None),
    }
}

fn line_of(alloc: Global, word: &[u8], numbers: &[u32]) -> Result<Option<Line>, Memory>
    ensures { IfOk result (λ o. o ≡ line_of_lem word.now numbers.now) }
{
    if is_text(word, b"hyp") {
        return Ok(hyp(numbers));
    }
    if is_text(word, b"cong") {
        return Ok(cong(alloc, numbers)?);
    }
    Ok(None)
}

fn numbered_line(alloc: Global, word: &[u8], words: &[&[u8]]) -> Result<Option<Line>, Memory>
    ensures { IfOk result (λ o. o ≡ option_and_then (line_of_lem word.now) (numbers_in (texts words.now))) }
{
    match read_numbers(alloc, words)? {
        Some(numbers) => Ok(line_of(alloc, word, numbers.as_slice())?),
        None => Ok(None),
    }
}

fn comb(alloc: Global, words: &[&[u8]]) -> Result<Option<Line>, Memory>
    ensures { IfOk result (λ o. o ≡ option_map Comb (multiples_in (texts words.now))) }
{
    match read_multiples(alloc, words)? {
        Some(multiples) => Ok(Some(Line::Comb(multiples))),
        None => Ok(None),
    }
}

fn line_by(alloc: Global, word: &[u8], words: &[&[u8]]) -> Result<Option<Line>, Memory>
    ensures { IfOk result (λ o. o ≡ line_by_lem word.now (texts words.now)) }
{
    if is_text(word, b"comb") {
        return Ok(comb(alloc, words)?);
    }
    Ok(numbered_line(alloc, word, words)?)
}

/// `hyp D`, `comb` with multiples, or `cong A B` with lines.
#[tactic(auto, unfolding(crate::specs::Reading::line_in))]
pub(crate) fn read_line(alloc: Global, words: &[&[u8]]) -> Result<Option<Line>, Memory>
    ensures { IfOk result (λ o. o ≡ line_in (texts words.now)) }
{
    match words {
        [word, rest @ ..] => Ok(line_by(alloc, word, rest)?),
        [] => Ok(None),
    }
}

fn distinct(numbers: &[u32]) -> Option<Close>
    ensures { result ≡ distinct_of numbers.now }
{
    match numbers {
        [line] => Some(Close::Distinct {
            line: *line,
            second: None,
        }),
        [line, second] => Some(Close::Distinct {
            line: *line,
            second: Some(*second),
        }),
        _ => None,
    }
}

fn residue(numbers: &[u32]) -> Option<Close>
    ensures { result ≡ one_of Residue numbers.now }
{
    match numbers {
        [line] => Some(Close::Residue(*line)),
        _ => None,
    }
}

fn range(numbers: &[u32]) -> Option<Close>
    ensures { result ≡ one_of Range numbers.now }
{
    match numbers {
        [line] => Some(Close::Range(*line)),
        _ => None,
    }
}

fn fact(alloc: Global, numbers: &[u32]) -> Result<Option<Close>, Memory>
    ensures { IfOk result (λ o. o ≡ fact_of numbers.now) }
{
    match numbers {
        [number, lines @ ..] => Ok(Some(Close::Fact {
            number: *number,
            lines: Items::from_slice(alloc, lines)?,
        })),
        [] => Ok(None),
    }
}

fn close_of(alloc: Global, kind: &[u8], numbers: &[u32]) -> Result<Option<Close>, Memory>
    ensures { IfOk result (λ o. o ≡ close_of_lem kind.now numbers.now) }
{
    if is_text(kind, b"distinct") {
        return Ok(distinct(numbers));
    }
    if is_text(kind, b"residue") {
        return Ok(residue(numbers));
    }
    if is_text(kind, b"range") {
        return Ok(range(numbers));
    }
    if is_text(kind, b"fact") {
        return Ok(fact(alloc, numbers)?);
    }
    Ok(None)
}

fn close_by(alloc: Global, kind: &[u8], words: &[&[u8]]) -> Result<Option<Close>, Memory>
    ensures { IfOk result (λ o. o ≡ option_and_then (close_of_lem kind.now) (numbers_in (texts words.now))) }
{
    match read_numbers(alloc, words)? {
        Some(numbers) => Ok(close_of(alloc, kind, numbers.as_slice())?),
        None => Ok(None),
    }
}

/// `close` with its kind and numbers.
#[tactic(auto, unfolding(crate::specs::Reading::close_in))]
pub(crate) fn read_close(alloc: Global, words: &[&[u8]]) -> Result<Option<Close>, Memory>
    ensures { IfOk result (λ o. o ≡ close_in (texts words.now)) }
{
    match words {
        [word, kind, rest @ ..] => {
            if is_text(word, b"close") {
                Ok(close_by(alloc, kind, rest)?)
            } else {
                Ok(None)
            }
        }
        _ => Ok(None),
    }
}

fn heading_of(number: usize, numbers: &[u32]) -> Option<Heading>
    ensures { result ≡ heading_of_lem number numbers.now }
{
    match numbers {
        [loop_number, first, second] => Some(Heading {
            line: number,
            loop_number: *loop_number,
            first: *first,
            second: *second,
        }),
        _ => None,
    }
}

fn heading_by(alloc: Global, number: usize, words: &[&[u8]]) -> Result<Option<Heading>, Memory>
    ensures { IfOk result (λ o. o ≡ option_and_then (heading_of_lem number) (numbers_in (texts words.now))) }
{
    match read_numbers(alloc, words)? {
        Some(numbers) => Ok(heading_of(number, numbers.as_slice())),
        None => Ok(None),
    }
}

/// `pair LOOP F G` in the line with this number.
#[tactic(auto, unfolding(crate::specs::Reading::heading_in))]
pub(crate) fn read_heading(
    alloc: Global,
    number: usize,
    words: &[&[u8]],
) -> Result<Option<Heading>, Memory>
    ensures { IfOk result (λ o. o ≡ heading_in number (texts words.now)) }
{
    match words {
        [word, rest @ ..] => {
            if is_text(word, b"pair") {
                Ok(heading_by(alloc, number, rest)?)
            } else {
                Ok(None)
            }
        }
        [] => Ok(None),
    }
}
