//! Whole certificates.

ghost use Rattle.std.specs.Prelude.{◌≡◌, Ok};
ghost use Rattle.certificate_check.specs.Flaws.{loops_of, checked, checked_by, Checks};

use crate::fault::CheckError;
use crate::flaw::first_flaw;
use crate::pairing::LoopPairs;
use certificate::{CertError, Given, read_cert};
use fl_base::{Held, Items, Memory, Name};
use std::alloc::Global;

fn unless_flawed(
    alloc: Global,
    active: &[Name],
    loops: &[Option<LoopPairs>],
    givens: Held<Items<Given>>,
) -> Result<Items<Given>, CheckError>
    ensures { Checks (checked_by active.now (loops_of loops.now) (Ok givens)) result }
{
    match first_flaw(alloc, active, loops, givens.get().as_slice()) {
        Ok(None) => Ok(givens.into_inner()),
        Ok(Some(flaw)) => Err(CheckError::Flawed(flaw)),
        Err(Memory) => Err(CheckError::Memory),
    }
}

/// The derivations of a certificate for a program with these active names and loops, each accepted for its pair. Else the first line with
/// which no certificate goes on, or where there is none, the first derivation, in the text's order, that is for no pair or isn't accepted.
pub fn check_cert(
    alloc: Global,
    active: &[Name],
    loops: &[Option<LoopPairs>],
    text: &[u8],
) -> Result<Items<Given>, CheckError>
    ensures checks { Checks (checked active.now (loops_of loops.now) text.now) result }
{
    match read_cert(alloc, text) {
        Ok(givens) => unless_flawed(alloc, active, loops, Held::of(givens)),
        Err(CertError::Syntax { line }) => Err(CheckError::Syntax { line }),
        Err(CertError::Memory) => Err(CheckError::Memory),
    }
}
