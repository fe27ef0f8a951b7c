//! Certificates from their text.

ghost use Rattle.std.specs.Prelude.{◌≡◌, ◌++◌, ◌∷◌, [], codes, Some, IfOk, IsOkAnd};
ghost use Rattle.certificate.specs.declared.stage.Stage.TheVariants.{Inside, Closed, Opening};
ghost use Rattle.certificate.specs.Reading.{texts, words_of, line_in, close_in, heading_in, with_done, between_if, begun as begun_lem, closed_by as closed_by_lem, inside_by as inside_by_lem, stepped, ended as ended_lem, read_from, cert_in, Reads};

use crate::derivation::{Close, Derivation, Given, Heading, Line};
use crate::error::CertError;
use crate::line::{read_close, read_heading, read_line};
use crate::number::is_text;
use crate::stage::Stage;
use crate::words::{cut_in_lines, cut_in_words};
use fl_base::{Items, Memory};
use std::alloc::Global;

fn between_if(line: &[u8], text: &[u8]) -> Option<Stage>
    ensures { result ≡ between_if line.now text.now }
{
    if is_text(line, text) {
        Some(Stage::Between)
    } else {
        None
    }
}

fn heading_in(alloc: Global, number: usize, line: &[u8]) -> Result<Option<Heading>, Memory>
    ensures { IfOk result (λ o. o ≡ heading_in number (words_of line.now)) }
{
    let words = cut_in_words(alloc, line)?;
    Ok(read_heading(alloc, number, &words)?)
}

fn begun(alloc: Global, number: usize, line: &[u8]) -> Result<Option<Stage>, Memory>
    ensures { IfOk result (λ o. o ≡ begun_lem (heading_in number (words_of line.now))) }
{
    match heading_in(alloc, number, line)? {
        Some(heading) => Ok(Some(Stage::Inside(heading, Items::new(alloc)))),
        None => Ok(None),
    }
}

fn with_line(heading: Heading, lines: Items<Line>, line: Line) -> Result<Option<Stage>, Memory>
    ensures { IfOk result (λ o. o ≡ Some (Inside heading (lines ++ line ∷ []))) }
{
    let mut lines = lines;
    match lines.push(line) {
        Ok(()) => Ok(Some(Stage::Inside(heading, lines))),
        Err(error) => Err(error),
    }
}

fn with_close(
    heading: Heading,
    lines: Items<Line>,
    close: Result<Option<Close>, Memory>,
) -> Result<Option<Stage>, Memory>
    ensures { IfOk result (λ o. IsOkAnd close (λ c. o ≡ closed_by_lem heading lines c)) }
{
    match close {
        Ok(Some(close)) => Ok(Some(Stage::Closed(heading, Derivation { lines, close }))),
        Ok(None) => Ok(None),
        Err(error) => Err(error),
    }
}

fn inside_by(
    alloc: Global,
    heading: Heading,
    lines: Items<Line>,
    words: &[&[u8]],
) -> Result<Option<Stage>, Memory>
    ensures { IfOk result (λ o. o ≡ inside_by_lem heading lines (line_in (texts words.now)) (close_in (texts words.now))) }
{
    match read_line(alloc, words) {
        Ok(Some(line)) => with_line(heading, lines, line),
        Ok(None) => with_close(heading, lines, read_close(alloc, words)),
        Err(error) => Err(error),
    }
}

fn inside(
    alloc: Global,
    heading: Heading,
    lines: Items<Line>,
    line: &[u8],
) -> Result<Option<Stage>, Memory>
    ensures { IfOk result (λ o. o ≡ inside_by_lem heading lines (line_in (words_of line.now)) (close_in (words_of line.now))) }
{
    match cut_in_words(alloc, line) {
        Ok(words) => inside_by(alloc, heading, lines, &words),
        Err(_) => Err(Memory),
    }
}

fn whole(
    heading: Heading,
    derivation: Derivation,
    line: &[u8],
    done: &mut Items<Given>,
) -> Result<Option<Stage>, Memory>
    ensures { IfOk result (λ o. with_done done.new o ≡ stepped 0 line.now (Closed heading derivation) done.old) }
{
    if !is_text(line, b"end") {
        return Ok(None);
    }
    match done.push(Given {
        heading,
        derivation,
    }) {
        Ok(()) => Ok(Some(Stage::Between)),
        Err(error) => Err(error),
    }
}

/// What the line with this number leads to, None where no certificate goes on with it.
fn step(
    alloc: Global,
    stage: Stage,
    number: usize,
    line: &[u8],
    done: &mut Items<Given>,
) -> Result<Option<Stage>, Memory>
    ensures { IfOk result (λ o. with_done done.new o ≡ stepped number line.now stage done.old) }
{
    match stage {
        Stage::Opening => Ok(between_if(line, b"formad 1")),
        Stage::Between => begun(alloc, number, line),
        Stage::Inside(heading, lines) => inside(alloc, heading, lines, line),
        Stage::Closed(heading, derivation) => whole(heading, derivation, line, done),
    }
}

fn ended(
    number: usize,
    last: &[u8],
    stage: Stage,
    done: Items<Given>,
) -> Result<Items<Given>, CertError>
    ensures { Reads (ended_lem number last.now stage done) result }
{
    if !last.is_empty() {
        return Err(CertError::Syntax { line: number });
    }
    match stage {
        Stage::Between => Ok(done),
        Stage::Opening | Stage::Inside(..) | Stage::Closed(..) => {
            Err(CertError::Syntax { line: number })
        }
    }
}

fn read_lines(alloc: Global, lines: &[&[u8]]) -> Result<Items<Given>, CertError>
    ensures { Reads (read_from 1 (texts lines.now) Opening []) result }
{
    let mut done = Items::new(alloc);
    let mut stage = Stage::Opening;
    for i in 0..lines.len() {
        if i + 1 == lines.len() {
            return ended(i + 1, lines[i], stage, done);
        }
        match step(alloc, stage, i + 1, lines[i], &mut done) {
            Ok(Some(next)) => {
                stage = next;
            }
            Ok(None) => {
                return Err(CertError::Syntax { line: i + 1 });
            }
            Err(_) => {
                return Err(CertError::Memory);
            }
        }
    }
    Err(CertError::Syntax {
        line: lines.len() + 1,
    })
}

/// The derivations of a certificate. Syntax has the number of the first line with which no certificate goes on; where the text ends too
/// early behind a whole line, that of the line behind it.
#[tactic(auto, unfolding(crate::specs::Reading::cert_in))]
pub fn read_cert(alloc: Global, bytes: &[u8]) -> Result<Items<Given>, CertError>
    ensures reads { Reads (cert_in bytes.now) result }
{
    let lines = cut_in_lines(alloc, bytes)?;
    read_lines(alloc, &lines)
}
