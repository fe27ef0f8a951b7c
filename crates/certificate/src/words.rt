//! Lines, words, and lists of numbers in words.

ghost use Rattle.std.specs.Prelude.{◌≡◌, IfOk};
ghost use Rattle.certificate.specs.Reading.{lines_of, words_of, texts, numbers_in, multiple_in, multiples_in};

use crate::derivation::Multiple;
use crate::number::{read_multiplier, read_number};
use fl_base::{Items, Memory};
use std::alloc::{AllocError, Global};

pub(crate) fn cut_in_lines(alloc: Global, bytes: &[u8]) -> Result<Vec<&[u8]>, AllocError>
    ensures { IfOk result (λ lines. texts lines.items ≡ lines_of bytes.now) }
{
    bytes.split(|byte| *byte == b'\n').collect(alloc)
}

pub(crate) fn cut_in_words(alloc: Global, line: &[u8]) -> Result<Vec<&[u8]>, AllocError>
    ensures { IfOk result (λ words. texts words.items ≡ words_of line.now) }
{
    line.split(|byte| *byte == b' ').collect(alloc)
}

/// The numbers, where each word is one.
pub(crate) fn read_numbers(alloc: Global, words: &[&[u8]]) -> Result<Option<Items<u32>>, Memory>
    ensures { IfOk result (λ o. o ≡ numbers_in (texts words.now)) }
{
    let mut all = Items::new(alloc);
    for word in words {
        match read_number(word, 4_294_967_295) {
            Some(number) => all.push(number)?,
            None => {
                return Ok(None);
            }
        }
    }
    Ok(Some(all))
}

fn read_multiple(multiplier: &[u8], line: &[u8]) -> Option<Multiple>
    ensures { result ≡ multiple_in multiplier.now line.now }
{
    match read_multiplier(multiplier) {
        Some(multiplier) => match read_number(line, 4_294_967_295) {
            Some(line) => Some(Multiple { multiplier, line }),
            None => None,
        },
        None => None,
    }
}

/// The multiples, where the words are multipliers and lines in turn.
pub(crate) fn read_multiples(
    alloc: Global,
    words: &[&[u8]],
) -> Result<Option<Items<Multiple>>, Memory>
    ensures { IfOk result (λ o. o ≡ multiples_in (texts words.now)) }
{
    let mut all = Items::new(alloc);
    let mut rest = words;
    while let [multiplier, line, others @ ..] = rest {
        match read_multiple(multiplier, line) {
            Some(multiple) => all.push(multiple)?,
            None => {
                return Ok(None);
            }
        }
        rest = others;
    }
    if rest.is_empty() {
        Ok(Some(all))
    } else {
        Ok(None)
    }
}
