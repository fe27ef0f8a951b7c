ghost use Rattle.std.specs.Prelude.{◌≡◌};
ghost use Rattle.formad_words.specs.Reads.{Reads};
ghost use Rattle.formad_words.specs.SettingWords.{file_in, force_in, setting_by, setting_in};

use crate::error::WordsError;
use crate::names::{read_name, read_names};
use crate::number::read_number;
use crate::schedule::read_schedule;
use crate::text::{is_text, mark_at};
use fl_ast::Schedule;
use fl_base::{Items, Name};
use std::alloc::Global;

/// The most workers of a run.
const WORKERS: u32 = 64;

/// The greatest number of a loop.
const LOOPS: u32 = 4096;

/// A name whose choice in a loop is forced.
#[derive(Drop)]
pub struct Force {
    pub loop_number: u32,
    pub name: Name,
}

/// What one word of the form name=value sets.
#[derive(Drop)]
pub(crate) enum Setting {
    Of(Items<Name>),
    Wrt(Items<Name>),
    Workers(u32),
    Schedule(Schedule),
    Certificate(Name),
    Force(Force),
}

/// A word that isn't empty, as it stands.
pub(crate) fn read_file(alloc: Global, word: &[u8]) -> Result<Name, WordsError>
    ensures { Reads (file_in word.now) result }
{
    if word.is_empty() {
        return Err(WordsError::Bad);
    }
    Ok(Name::of(alloc, word)?)
}

#[tactic(auto, unfolding(crate::specs::SettingWords::force_in))]
fn read_force(alloc: Global, text: &[u8]) -> Result<Force, WordsError>
    ensures { Reads (force_in text.now) result }
{
    let Some(at) = mark_at(text, b':') else {
        return Err(WordsError::Bad);
    };
    let Some(loop_number) = read_number(&text[..at], LOOPS) else {
        return Err(WordsError::Bad);
    };
    let name = read_name(alloc, &text[at + 1..])?;
    Ok(Force { loop_number, name })
}

fn setting_of(alloc: Global, key: &[u8], value: &[u8]) -> Result<Setting, WordsError>
    ensures { Reads (setting_by key.now value.now) result }
{
    if is_text(key, b"of") {
        return Ok(Setting::Of(read_names(alloc, value)?));
    }
    if is_text(key, b"wrt") {
        return Ok(Setting::Wrt(read_names(alloc, value)?));
    }
    if is_text(key, b"cert") {
        return Ok(Setting::Certificate(read_file(alloc, value)?));
    }
    if is_text(key, b"force") {
        return Ok(Setting::Force(read_force(alloc, value)?));
    }
    if is_text(key, b"workers") {
        return read_number(value, WORKERS)
            .map(Setting::Workers)
            .ok_or(WordsError::Bad);
    }
    if is_text(key, b"schedule") {
        return read_schedule(value)
            .map(Setting::Schedule)
            .ok_or(WordsError::Bad);
    }
    Err(WordsError::Bad)
}

#[tactic(auto, unfolding(crate::specs::SettingWords::setting_in))]
/// What a word sets: its key is what stands before the first `=`.
pub(crate) fn read_setting(alloc: Global, word: &[u8]) -> Result<Setting, WordsError>
    ensures { Reads (setting_in word.now) result }
{
    let Some(at) = mark_at(word, b'=') else {
        return Err(WordsError::Bad);
    };
    setting_of(alloc, &word[..at], &word[at + 1..])
}
