ghost use Rattle.formad_words.specs.Grammar.{subject_by, subject_in, check_by, check_in, tangent_by, tangent_in, run_by, run_in, replay_by, replay_in, load_by, load_in, of_command, words_in};
ghost use Rattle.formad_words.specs.Reads.{Reads};

use crate::command::{Command, command_named};
use crate::error::WordsError;
use crate::number::read_number;
use crate::setting::{Force, read_file};
use crate::settings::{Settings, both, is_plain, read_settings};
use fl_ast::Schedule;
use fl_base::{Items, Name};
use std::alloc::Global;

/// The most edges of a generated workload.
const EDGES: u32 = 100_000;

/// A program, its dependent arguments `of`, and its independent arguments `wrt`.
#[derive(Drop)]
pub struct Subject {
    pub program: Name,
    pub of: Items<Name>,
    pub wrt: Items<Name>,
}

/// A run: of a program, over a data file, for a seed file.
#[derive(Drop)]
pub struct Request {
    pub program: Name,
    pub data: Name,
    pub seed: Name,
    pub of: Items<Name>,
    pub wrt: Items<Name>,
    pub workers: u32,
    pub schedule: Schedule,
    pub certificate: Option<Name>,
}

/// A run whose threads are played by a list of steps.
#[derive(Drop)]
pub struct Replay {
    pub program: Name,
    pub data: Name,
    pub seed: Name,
    pub steps: Name,
    pub of: Items<Name>,
    pub wrt: Items<Name>,
    pub workers: u32,
    pub force: Option<Force>,
}

/// The words of a command.
#[derive(Drop)]
pub enum Words {
    /// The adjoint's text.
    Adjoint(Subject),
    /// The certificate.
    Prove(Subject),
    /// Whether a certificate is accepted.
    Check {
        subject: Subject,
        certificate: Name,
    },
    /// The choices.
    Report(Subject),
    /// Values and tangents in a direction.
    Tangent {
        program: Name,
        data: Name,
        direction: Name,
    },
    /// Values and adjoints.
    Run(Request),
    /// The same by a list of steps.
    Replay(Replay),
    /// A generated workload.
    Load {
        edges: u32,
        workers: u32,
    },
}

fn subject_of(alloc: Global, program: &Name, settings: Settings) -> Result<Subject, WordsError>
    ensures { Reads (subject_by program.now settings) result }
{
    if !is_plain(&settings) {
        return Err(WordsError::Bad);
    }
    let program = read_file(alloc, program.bytes())?;
    let (of, wrt) = both(settings.of, settings.wrt)?;
    Ok(Subject { program, of, wrt })
}

/// A program, and what is differentiated.
fn read_subject(alloc: Global, words: &[Name]) -> Result<Subject, WordsError>
    ensures { Reads (subject_in words.now) result }
{
    match words {
        [program, keys @ ..] => subject_of(alloc, program, read_settings(alloc, keys)?),
        _ => Err(WordsError::Bad),
    }
}

fn check_of(
    alloc: Global,
    program: &Name,
    certificate: &Name,
    settings: Settings,
) -> Result<Words, WordsError>
    ensures { Reads (check_by program.now certificate.now settings) result }
{
    let certificate = read_file(alloc, certificate.bytes())?;
    let subject = subject_of(alloc, program, settings)?;
    Ok(Words::Check {
        subject,
        certificate,
    })
}

fn read_check(alloc: Global, words: &[Name]) -> Result<Words, WordsError>
    ensures { Reads (check_in words.now) result }
{
    match words {
        [program, certificate, keys @ ..] => {
            check_of(alloc, program, certificate, read_settings(alloc, keys)?)
        }
        _ => Err(WordsError::Bad),
    }
}

fn tangent_of(
    alloc: Global,
    program: &Name,
    values: &Name,
    direction: &Name,
) -> Result<Words, WordsError>
    ensures { Reads (tangent_by program.now values.now direction.now) result }
{
    let program = read_file(alloc, program.bytes())?;
    let data = read_file(alloc, values.bytes())?;
    let direction = read_file(alloc, direction.bytes())?;
    Ok(Words::Tangent {
        program,
        data,
        direction,
    })
}

fn read_tangent(alloc: Global, words: &[Name]) -> Result<Words, WordsError>
    ensures { Reads (tangent_in words.now) result }
{
    match words {
        [program, values, direction, more @ ..] => {
            if more.is_empty() {
                tangent_of(alloc, program, values, direction)
            } else {
                Err(WordsError::Bad)
            }
        }
        _ => Err(WordsError::Bad),
    }
}

fn run_of(
    alloc: Global,
    program: &Name,
    values: &Name,
    seed: &Name,
    settings: Settings,
) -> Result<Words, WordsError>
    ensures { Reads (run_by program.now values.now seed.now settings) result }
{
    if settings.force.is_some() {
        return Err(WordsError::Bad);
    }
    let program = read_file(alloc, program.bytes())?;
    let data = read_file(alloc, values.bytes())?;
    let seed = read_file(alloc, seed.bytes())?;
    let (of, wrt) = both(settings.of, settings.wrt)?;
    Ok(Words::Run(Request {
        program,
        data,
        seed,
        of,
        wrt,
        workers: settings.workers.unwrap_or(1),
        schedule: settings.schedule.unwrap_or(Schedule::Static),
        certificate: settings.certificate,
    }))
}

fn read_run(alloc: Global, words: &[Name]) -> Result<Words, WordsError>
    ensures { Reads (run_in words.now) result }
{
    match words {
        [program, values, seed, keys @ ..] => {
            run_of(alloc, program, values, seed, read_settings(alloc, keys)?)
        }
        _ => Err(WordsError::Bad),
    }
}

fn replay_of(
    alloc: Global,
    program: &Name,
    values: &Name,
    seed: &Name,
    steps: &Name,
    settings: Settings,
) -> Result<Words, WordsError>
    ensures { Reads (replay_by program.now values.now seed.now steps.now settings) result }
{
    if settings.schedule.is_some() || settings.certificate.is_some() {
        return Err(WordsError::Bad);
    }
    let Some(workers) = settings.workers else {
        return Err(WordsError::Bad);
    };
    let program = read_file(alloc, program.bytes())?;
    let data = read_file(alloc, values.bytes())?;
    let seed = read_file(alloc, seed.bytes())?;
    let steps = read_file(alloc, steps.bytes())?;
    let (of, wrt) = both(settings.of, settings.wrt)?;
    Ok(Words::Replay(Replay {
        program,
        data,
        seed,
        steps,
        of,
        wrt,
        workers,
        force: settings.force,
    }))
}

fn read_replay(alloc: Global, words: &[Name]) -> Result<Words, WordsError>
    ensures { Reads (replay_in words.now) result }
{
    match words {
        [program, values, seed, steps, keys @ ..] => {
            replay_of(
                alloc,
                program,
                values,
                seed,
                steps,
                read_settings(alloc, keys)?,
            )
        }
        _ => Err(WordsError::Bad),
    }
}

fn load_of(edges: &Name, settings: Settings) -> Result<Words, WordsError>
    ensures { Reads (load_by edges.now settings) result }
{
    if settings.of.is_some() || settings.wrt.is_some() {
        return Err(WordsError::Bad);
    }
    if settings.schedule.is_some() || settings.certificate.is_some() || settings.force.is_some() {
        return Err(WordsError::Bad);
    }
    let Some(workers) = settings.workers else {
        return Err(WordsError::Bad);
    };
    match read_number(edges.bytes(), EDGES) {
        Some(edges) => Ok(Words::Load { edges, workers }),
        None => Err(WordsError::Bad),
    }
}

fn read_load(alloc: Global, words: &[Name]) -> Result<Words, WordsError>
    ensures { Reads (load_in words.now) result }
{
    match words {
        [edges, keys @ ..] => load_of(edges, read_settings(alloc, keys)?),
        _ => Err(WordsError::Bad),
    }
}

/// The words after the command's name.
fn words_of(alloc: Global, command: Command, words: &[Name]) -> Result<Words, WordsError>
    ensures { Reads (of_command command words.now) result }
{
    match command {
        Command::Adjoint => Ok(Words::Adjoint(read_subject(alloc, words)?)),
        Command::Prove => Ok(Words::Prove(read_subject(alloc, words)?)),
        Command::Check => read_check(alloc, words),
        Command::Report => Ok(Words::Report(read_subject(alloc, words)?)),
        Command::Tangent => read_tangent(alloc, words),
        Command::Run => read_run(alloc, words),
        Command::Replay => read_replay(alloc, words),
        Command::Load => read_load(alloc, words),
    }
}

/// Reads the words of a command: its name, then its files, and then words of the form name=value in any order. A file word
/// keeps its letters, names are lowered.
pub fn read_words(alloc: Global, words: &[Name]) -> Result<Words, WordsError>
    ensures { Reads (words_in words.now) result }
{
    match words {
        [name, rest @ ..] => match command_named(name.bytes()) {
            Some(command) => words_of(alloc, command, rest),
            None => Err(WordsError::Bad),
        },
        _ => Err(WordsError::Bad),
    }
}
