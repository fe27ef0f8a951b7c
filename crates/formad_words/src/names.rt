ghost use Rattle.std.specs.Prelude.{◌≡◌, ◌==◌, IfOk, map};
ghost use Rattle.std.specs.List.{slice_split, list_all, list_any};
ghost use Rattle.std.specs.Str.{str_to_ascii_lowercase, bytes_eq};
ghost use Rattle.formad_words.specs.Names.{is_name_byte as is_name_byte_lem, is_name as is_name_lem, is_distinct, name_in, names_in};
ghost use Rattle.formad_words.specs.Reads.{Reads};

use crate::error::WordsError;
use fl_base::{Items, Memory, Name};
use std::alloc::{AllocError, Global};

fn is_name_byte(byte: u8) -> bool
    ensures { result ≡ is_name_byte_lem byte }
{
    byte.is_ascii_alphanumeric() || byte == b'_'
}

fn are_name_bytes(bytes: &[u8]) -> bool
    ensures { result ≡ list_all is_name_byte_lem bytes.now }
{
    for byte in bytes {
        if !is_name_byte(*byte) {
            return false;
        }
    }
    true
}

/// A letter, and then letters, digits and underscores, at most 63.
fn is_name(bytes: &[u8]) -> bool
    ensures { result ≡ is_name_lem bytes.now }
{
    let [first, ..] = bytes else {
        return false;
    };
    if !first.is_ascii_alphabetic() || bytes.len() > 63 {
        return false;
    }
    are_name_bytes(bytes)
}

/// What stands between the commas.
fn parts(alloc: Global, text: &[u8]) -> Result<Vec<&[u8]>, AllocError>
    ensures { IfOk result (λ parts. map (λ part. part.now) parts.items ≡ slice_split (λ b. b == 44) text.now) }
{
    text.split(|byte| *byte == b',').collect(alloc)
}

fn are_names(parts: &[&[u8]]) -> bool
    ensures { result ≡ list_all (λ part. is_name_lem part.now) parts.now }
{
    for part in parts {
        if !is_name(part) {
            return false;
        }
    }
    true
}

/// The name with its letters lowered.
fn lowered(alloc: Global, bytes: &[u8]) -> Result<Name, AllocError>
    ensures { IfOk result (λ name. name ≡ str_to_ascii_lowercase bytes.now) }
{
    let lowered: Vec<u8> = bytes
        .iter()
        .map(|byte| byte.to_ascii_lowercase())
        .collect(alloc)?;
    Ok(Name::from_vec(lowered))
}

/// A name, lowered.
pub(crate) fn read_name(alloc: Global, text: &[u8]) -> Result<Name, WordsError>
    ensures { Reads (name_in text.now) result }
{
    if !is_name(text) {
        return Err(WordsError::Bad);
    }
    Ok(lowered(alloc, text)?)
}

fn all_lowered(alloc: Global, parts: &[&[u8]]) -> Result<Vec<Name>, AllocError>
    ensures { IfOk result (λ names. names.items ≡ map (λ part. str_to_ascii_lowercase part.now) parts.now) }
{
    let mut names = Vec::new(alloc);
    for part in parts {
        names.push(lowered(alloc, part)?)?;
    }
    Ok(names)
}

fn is_among(name: &Name, names: &[Name]) -> bool
    ensures { result ≡ list_any (bytes_eq name.now) names.now }
{
    for other in names {
        if name.is(other) {
            return true;
        }
    }
    false
}

fn are_distinct(names: &[Name]) -> bool
    ensures { result ≡ is_distinct names.now }
{
    let mut rest = names;
    while let [name, others @ ..] = rest {
        if is_among(name, others) {
            return false;
        }
        rest = others;
    }
    true
}

/// The names of a list with commas between.
pub(crate) fn read_names(alloc: Global, text: &[u8]) -> Result<Items<Name>, WordsError>
    ensures { Reads (names_in text.now) result }
{
    let parts = parts(alloc, text)?;
    if !are_names(&parts) {
        return Err(WordsError::Bad);
    }
    let names = all_lowered(alloc, &parts)?;
    if !are_distinct(&names) {
        return Err(WordsError::Bad);
    }
    Ok(Items::from_vec(names))
}
