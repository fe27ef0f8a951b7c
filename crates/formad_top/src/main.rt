//! The program `formad`: it reads a Fortran subroutine, its data and a seed, and writes what its adjoint gives.
#![tactic(auto)]

#[cfg(test)]
mod tests;
pub mod top;
mod words;
#[cfg(test)]
mod worked;

ghost use Rattle.std.specs.Prelude.{◌≡◌, ◌<◌};

use ending::{Status, put_as};
use fl_base::Name;
use outside::{FileFolder, OpenGate, StdSink};
use ring_core::Steps;
use std::alloc::Global;
use std::marker::Brand;
use std::process::ExitCode;
use std::rt::Files;
use std::sync::ledger::{Blank, Ledger};
use std::thread::Threads;
use words::{ArgsError, args};

/// Runs the words over the system's files and standard output.
fn run<R: Threads + Sync + Files + Print, L: Ledger>(
    rt: &R,
    alloc: Global,
    blank: Blank,
    words: &[Name],
) -> Status
    requires name { blank.name ≡ L.name }
    requires parts { blank.parts ≡ L.parts }
    requires some { 0 < L.parts }
{
    let mut steps = Steps::<L>::new(blank);
    let mut folder = FileFolder::new(rt);
    let mut sink = StdSink::new(rt);
    top::formad(
        rt,
        alloc,
        words,
        &mut folder,
        &mut sink,
        &OpenGate,
        &mut steps,
    )
}

/// The same with the one ledger of the process.
fn run_counted<R: Threads + Sync + Files + Print>(
    rt: &R,
    alloc: Global,
    blank: Blank,
    words: &[Name],
) -> Status
    requires { blank.parts ≡ 1 }
{
    run::<R, Brand>(rt, alloc, blank, words)
}

/// Words that are no text are none of a command. Where they find no memory nothing is written.
fn main(rt: HostRuntime) -> ExitCode {
    let status = match args(&rt, rt.alloc()) {
        Ok(words) => run_counted(&rt, rt.alloc(), Blank::new(1), &words),
        Err(ArgsError::NoText) => {
            put_as(&mut StdSink::new(&rt), Status::BadWords, b"bad words\n")
        }
        Err(ArgsError::Memory) => Status::NoMemory,
    };
    ExitCode::from(status.number())
}
