//! The text of a certificate.

ghost use Rattle.std.specs.Prelude.{◌≡◌, ◌++◌, OnOk, IfOk, codes};
ghost use Rattle.certificate.specs.Text.{number_text, numbers_text, multiple_text, multiples_text, line_words, line_text, lines_text, close_words, second_text, pair_words, given_text, givens_text, cert_text};

use crate::derivation::{Close, Given, Heading, Line, Multiple};
use fl_base::Memory;
use itoa::Buffer;
use std::alloc::{AllocError, Global};

fn push_number(text: &mut Vec<u8>, number: u32) -> Result<(), AllocError>
    ensures { OnOk result (text.new.items ≡ text.old.items ++ number_text number) }
{
    let mut buffer = Buffer::new();
    text.extend_from_slice(b" ")?;
    text.extend_from_slice(buffer.format(number).as_bytes())?;
    Ok(())
}

fn push_numbers(text: &mut Vec<u8>, numbers: &[u32]) -> Result<(), AllocError>
    ensures { OnOk result (text.new.items ≡ text.old.items ++ numbers_text numbers.now) }
{
    for number in numbers {
        push_number(text, *number)?;
    }
    Ok(())
}

fn push_multiple(text: &mut Vec<u8>, multiple: Multiple) -> Result<(), AllocError>
    ensures { OnOk result (text.new.items ≡ text.old.items ++ multiple_text multiple) }
{
    let mut buffer = Buffer::new();
    text.extend_from_slice(b" ")?;
    text.extend_from_slice(buffer.format(multiple.multiplier).as_bytes())?;
    push_number(text, multiple.line)?;
    Ok(())
}

fn push_multiples(text: &mut Vec<u8>, multiples: &[Multiple]) -> Result<(), AllocError>
    ensures { OnOk result (text.new.items ≡ text.old.items ++ multiples_text multiples.now) }
{
    for multiple in multiples {
        push_multiple(text, *multiple)?;
    }
    Ok(())
}

/// Adds a word, a number and further numbers.
fn push_row(text: &mut Vec<u8>, word: &[u8], number: u32, numbers: &[u32]) -> Result<(), AllocError>
    ensures { OnOk result (text.new.items ≡ text.old.items ++ (word.now ++ number_text number ++ numbers_text numbers.now)) }
{
    text.extend_from_slice(word)?;
    push_number(text, number)?;
    push_numbers(text, numbers)?;
    Ok(())
}

fn push_cong(text: &mut Vec<u8>, first: u32, second: u32, lines: &[u32]) -> Result<(), AllocError>
    ensures { OnOk result (text.new.items ≡ text.old.items ++ (codes "cong" ++ (number_text first ++ (number_text second ++ numbers_text lines.now)))) }
{
    text.extend_from_slice(b"cong")?;
    push_number(text, first)?;
    push_number(text, second)?;
    push_numbers(text, lines)?;
    Ok(())
}

fn push_comb(text: &mut Vec<u8>, multiples: &[Multiple]) -> Result<(), AllocError>
    ensures { OnOk result (text.new.items ≡ text.old.items ++ (codes "comb" ++ multiples_text multiples.now)) }
{
    text.extend_from_slice(b"comb")?;
    push_multiples(text, multiples)?;
    Ok(())
}

fn push_worded(text: &mut Vec<u8>, word: &[u8], number: u32) -> Result<(), AllocError>
    ensures { OnOk result (text.new.items ≡ text.old.items ++ (word.now ++ number_text number)) }
{
    text.extend_from_slice(word)?;
    push_number(text, number)?;
    Ok(())
}

fn push_line_words(text: &mut Vec<u8>, line: &Line) -> Result<(), AllocError>
    ensures { OnOk result (text.new.items ≡ text.old.items ++ line_words line.now) }
{
    match line {
        Line::Hyp(number) => push_worded(text, b"hyp", *number),
        Line::Comb(multiples) => push_comb(text, multiples.as_slice()),
        Line::Cong {
            first,
            second,
            lines,
        } => push_cong(text, *first, *second, lines.as_slice()),
    }
}

fn push_line(text: &mut Vec<u8>, line: &Line) -> Result<(), AllocError>
    ensures { OnOk result (text.new.items ≡ text.old.items ++ line_text line.now) }
{
    push_line_words(text, line)?;
    text.extend_from_slice(b"\n")?;
    Ok(())
}

fn push_lines(text: &mut Vec<u8>, lines: &[Line]) -> Result<(), AllocError>
    ensures { OnOk result (text.new.items ≡ text.old.items ++ lines_text lines.now) }
{
    for line in lines {
        push_line(text, line)?;
    }
    Ok(())
}

fn push_distinct(text: &mut Vec<u8>, line: u32, second: Option<u32>) -> Result<(), AllocError>
    ensures { OnOk result (text.new.items ≡ text.old.items ++ (codes "close distinct" ++ number_text line ++ second_text second)) }
{
    push_worded(text, b"close distinct", line)?;
    match second {
        Some(number) => push_number(text, number),
        None => Ok(()),
    }
}

fn push_close(text: &mut Vec<u8>, close: &Close) -> Result<(), AllocError>
    ensures { OnOk result (text.new.items ≡ text.old.items ++ close_words close.now) }
{
    match close {
        Close::Distinct { line, second } => push_distinct(text, *line, *second),
        Close::Residue(line) => push_worded(text, b"close residue", *line),
        Close::Range(line) => push_worded(text, b"close range", *line),
        Close::Fact { number, lines } => push_row(text, b"close fact", *number, lines.as_slice()),
    }
}

fn push_pair(text: &mut Vec<u8>, heading: Heading) -> Result<(), AllocError>
    ensures { OnOk result (text.new.items ≡ text.old.items ++ pair_words heading) }
{
    push_worded(text, b"pair", heading.loop_number)?;
    push_number(text, heading.first)?;
    push_number(text, heading.second)?;
    Ok(())
}

fn push_given(text: &mut Vec<u8>, given: &Given) -> Result<(), AllocError>
    ensures { OnOk result (text.new.items ≡ text.old.items ++ given_text given.now) }
{
    push_pair(text, given.heading)?;
    text.extend_from_slice(b"\n")?;
    push_lines(text, given.derivation.lines.as_slice())?;
    push_close(text, &given.derivation.close)?;
    text.extend_from_slice(b"\nend\n")?;
    Ok(())
}

fn push_givens(text: &mut Vec<u8>, list: &[Given]) -> Result<(), AllocError>
    ensures { OnOk result (text.new.items ≡ text.old.items ++ givens_text list.now) }
{
    for given in list {
        push_given(text, given)?;
    }
    Ok(())
}

/// The text of these derivations. Where their `pair` lines stood isn't asked: the text has each where it comes.
#[tactic(auto, unfolding(crate::specs::Text::cert_text))]
pub fn print_cert(alloc: Global, list: &[Given]) -> Result<Vec<u8>, Memory>
    ensures text { IfOk result (λ text. text.items ≡ cert_text list.now) }
{
    let mut text = Vec::from_slice(alloc, b"formad 1\n")?;
    push_givens(&mut text, list)?;
    Ok(text)
}
