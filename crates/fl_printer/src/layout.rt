//! Rows laid out in lines.

ghost use Rattle.std.specs.Prelude.{◌≡◌, ◌+◌, ◌++◌, ◌∷◌, [], replicate, length, codes, OnOk, IfOk, true, false};
ghost use Rattle.fl_lexer.specs.Printing.{opening};
ghost use Rattle.fl_printer.specs.Layout as spec;
ghost use Rattle.fl_printer.specs.Rows as rows;

use crate::spaced::Spaced;
use fl_base::Memory;
use std::alloc::Global;

/// A sum of lengths. There is memory for none that is too large.
pub fn plus(a: usize, b: usize) -> Result<usize, Memory>
    ensures { IfOk result (λ c. c ≡ a + b) }
{
    match a.checked_add(b) {
        Some(c) => Ok(c),
        None => Err(Memory),
    }
}

fn width(word: &Spaced) -> Result<usize, Memory>
    ensures { IfOk result (λ n. n ≡ spec.width word.now) }
{
    if word.blank {
        plus(1, word.text.bytes().len())
    } else {
        Ok(word.text.bytes().len())
    }
}

/// Whether a line of so many bytes is too long with the tokens behind it.
fn is_long(at: usize, words: &[Spaced]) -> Result<bool, Memory>
    ensures { IfOk result (λ b. b ≡ spec.is_long (at + spec.width_of_all words.now)) }
{
    let mut end = at;
    for word in words {
        if end > 120 {
            return Ok(true);
        }
        end = plus(end, width(word)?)?;
    }
    Ok(end > 120)
}

fn push_blanks(text: &mut Vec<u8>, count: usize) -> Result<(), Memory>
    ensures { OnOk result (text.new.items ≡ text.old.items ++ replicate count 32) }
{
    for _blank in 0..count {
        text.push(b' ')?;
    }
    Ok(())
}

fn push_opening(text: &mut Vec<u8>, directive: bool) -> Result<(), Memory>
    ensures { OnOk result (text.new.items ≡ text.old.items ++ opening directive) }
{
    if directive {
        text.extend_from_slice(b"!$omp")?;
    }
    Ok(())
}

fn push_blank(text: &mut Vec<u8>, blank: bool) -> Result<(), Memory>
    ensures { OnOk result (text.new.items ≡ text.old.items ++ spec.blank_bytes blank) }
{
    if blank {
        text.push(b' ')?;
    }
    Ok(())
}

/// Where the first token of a later line begins.
fn start(margin: usize, directive: bool) -> Result<usize, Memory>
    ensures { IfOk result (λ n. n ≡ spec.start margin directive) }
{
    plus(margin, if directive { 6 } else { 4 })
}

/// Where the first text of a later line begins.
fn indent(margin: usize, directive: bool) -> Result<usize, Memory>
    ensures { IfOk result (λ n. n ≡ spec.indent margin directive) }
{
    plus(margin, if directive { 0 } else { 4 })
}

/// Ends a line that goes on, and begins the next one.
fn break_line(text: &mut Vec<u8>, margin: usize, directive: bool) -> Result<(), Memory>
    ensures { OnOk result (text.new.items ≡ text.old.items ++ spec.break_text margin directive) }
{
    let indent = indent(margin, directive)?;
    text.extend_from_slice(b" &\n")?;
    push_blanks(text, indent)
        .and(push_opening(text, directive))
        .and(push_blank(text, directive))
}

fn is_past(at: usize, word: &Spaced) -> Result<bool, Memory>
    ensures { IfOk result (λ b. b ≡ spec.is_past (at + spec.width word.now)) }
{
    Ok(plus(at, width(word)?)? > 118)
}

/// Adds a token on a later line, and tells where that line stands then.
fn broken(
    text: &mut Vec<u8>,
    margin: usize,
    directive: bool,
    word: &Spaced,
) -> Result<usize, Memory>
    ensures text { OnOk result (text.new.items ≡ text.old.items ++ (spec.break_text margin directive ++ word.now.text)) }
    ensures at { IfOk result (λ n. n ≡ spec.start margin directive + length word.now.text) }
{
    break_line(text, margin, directive)?;
    text.extend_from_slice(word.text.bytes())?;
    plus(start(margin, directive)?, word.text.bytes().len())
}

/// Adds a token on the same line, and tells where the line stands then.
fn continued(text: &mut Vec<u8>, at: usize, word: &Spaced) -> Result<usize, Memory>
    ensures text { OnOk result (text.new.items ≡ text.old.items ++ (spec.blank_bytes word.now.blank ++ word.now.text)) }
    ensures at { IfOk result (λ n. n ≡ at + spec.width word.now) }
{
    push_blank(text, word.blank)?;
    text.extend_from_slice(word.text.bytes())?;
    plus(at, width(word)?)
}

/// Adds the tokens that stand behind so many bytes of a line.
fn lay(
    text: &mut Vec<u8>,
    margin: usize,
    directive: bool,
    from: usize,
    words: &[Spaced],
) -> Result<(), Memory>
    ensures { OnOk result (text.new.items ≡ text.old.items ++ spec.laid_text (spec.laid_behind margin directive from words.now)) }
{
    let mut at = from;
    let mut long = is_long(at, words)?;
    for i in 0..words.len() {
        let word = &words[i];
        let past = is_past(at, word)?;
        if long && past {
            at = broken(text, margin, directive, word)?;
            long = is_long(at, &words[i + 1..])?;
        } else {
            at = continued(text, at, word)?;
        }
    }
    text.push(b'\n')?;
    Ok(())
}

/// Adds a directive's row.
pub fn directive_row(text: &mut Vec<u8>, margin: usize, words: &[Spaced]) -> Result<(), Memory>
    ensures { OnOk result (text.new.items ≡ text.old.items ++ spec.rows_text (rows.directive_row margin words.now ∷ [])) }
{
    push_blanks(text, margin)?;
    push_opening(text, true)?;
    lay(text, margin, true, plus(margin, 5)?, words)?;
    Ok(())
}

/// Adds the first token of a statement's row and those behind it.
fn begun(text: &mut Vec<u8>, margin: usize, first: &Spaced, behind: &[Spaced]) -> Result<(), Memory>
    ensures { OnOk result (text.new.items ≡ text.old.items ++ spec.begun_text margin first.now behind.now) }
{
    push_blank(text, first.blank)?;
    text.extend_from_slice(first.text.bytes())?;
    lay(text, margin, false, plus(margin, width(first)?)?, behind)
}

/// Adds a statement's row.
pub fn statement_row(text: &mut Vec<u8>, margin: usize, words: &[Spaced]) -> Result<(), Memory>
    ensures { OnOk result (text.new.items ≡ text.old.items ++ spec.rows_text (rows.statement_row margin words.now ∷ [])) }
{
    push_blanks(text, margin)?;
    if words.is_empty() {
        text.push(b'\n')?;
        return Ok(());
    }
    begun(text, margin, &words[0], &words[1..])?;
    Ok(())
}
