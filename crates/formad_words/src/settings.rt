ghost use Rattle.std.specs.Prelude.{◌≡◌, Some, None, MatchResult};
ghost use Rattle.formad_words.specs.Reads.{Reads};
ghost use Rattle.formad_words.specs.SettingsWords.{with_setting, settings_in, pair_of, is_plain as is_plain_lem};

use crate::error::WordsError;
use crate::setting::{Force, Setting, read_setting};
use fl_ast::Schedule;
use fl_base::{Items, Name};
use std::alloc::Global;

/// What the words of the form name=value set.
#[derive(Drop)]
pub(crate) struct Settings {
    pub of: Option<Items<Name>>,
    pub wrt: Option<Items<Name>>,
    pub workers: Option<u32>,
    pub schedule: Option<Schedule>,
    pub certificate: Option<Name>,
    pub force: Option<Force>,
}

/// Sets what isn't set yet.
fn add(settings: &mut Settings, setting: Setting) -> Result<(), WordsError>
    ensures { MatchResult result (λ _. with_setting settings.old setting ≡ Some settings.new)
        (λ _. with_setting settings.old setting ≡ None) }
{
    match setting {
        Setting::Of(names) => {
            if settings.of.is_some() {
                return Err(WordsError::Bad);
            }
            settings.of = Some(names);
        }
        Setting::Wrt(names) => {
            if settings.wrt.is_some() {
                return Err(WordsError::Bad);
            }
            settings.wrt = Some(names);
        }
        Setting::Workers(workers) => {
            if settings.workers.is_some() {
                return Err(WordsError::Bad);
            }
            settings.workers = Some(workers);
        }
        Setting::Schedule(schedule) => {
            if settings.schedule.is_some() {
                return Err(WordsError::Bad);
            }
            settings.schedule = Some(schedule);
        }
        Setting::Certificate(file) => {
            if settings.certificate.is_some() {
                return Err(WordsError::Bad);
            }
            settings.certificate = Some(file);
        }
        Setting::Force(force) => {
            if settings.force.is_some() {
                return Err(WordsError::Bad);
            }
            settings.force = Some(force);
        }
    }
    Ok(())
}

/// The settings of words, each key at most once, in any order.
pub(crate) fn read_settings(alloc: Global, words: &[Name]) -> Result<Settings, WordsError>
    ensures { Reads (settings_in words.now) result }
{
    let mut settings = Settings {
        of: None,
        wrt: None,
        workers: None,
        schedule: None,
        certificate: None,
        force: None,
    };
    for word in words {
        add(&mut settings, read_setting(alloc, word.bytes())?)?;
    }
    Ok(settings)
}

/// Whether nothing is set but the names of `of` and `wrt`.
pub(crate) fn is_plain(settings: &Settings) -> bool
    ensures { result ≡ is_plain_lem settings.now }
{
    settings.workers.is_none()
        && settings.schedule.is_none()
        && settings.certificate.is_none()
        && settings.force.is_none()
}

/// The names of `of` and those of `wrt`, which have to stand.
pub(crate) fn both(
    of: Option<Items<Name>>,
    wrt: Option<Items<Name>>,
) -> Result<(Items<Name>, Items<Name>), WordsError>
    ensures { Reads (pair_of of wrt) result }
{
    let Some(of) = of else {
        return Err(WordsError::Bad);
    };
    let Some(wrt) = wrt else {
        return Err(WordsError::Bad);
    };
    Ok((of, wrt))
}
