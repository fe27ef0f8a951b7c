//! The first derivation that is for no pair, or isn't accepted.

ghost use Rattle.std.specs.Prelude.{◌≡◌, option_map, Some, IfOk};
ghost use Rattle.index_knowledge.specs.Told.{pair_told};
ghost use Rattle.certificate_check.specs.Pairs.{loop_of, pair_at as pair_at_lem};
ghost use Rattle.certificate_check.specs.Flaws.{loops_of, flaw_of_pair, flaw_in as flaw_in_lem, flaw_of as flaw_of_lem, first_flaw as first_flaw_lem};

use crate::pairing::{LoopPairs, pair_at};
use acceptance::{accept, numbered};
use certificate::Given;
use fl_base::{Boxed, Memory, Name};
use index_knowledge::Pair;
use std::alloc::Global;

/// What is wrong with a derivation, with the number of the line where its `pair` stands.
#[derive(Clone, Copy, Debug, PartialEq, Eq)]
pub enum Flaw {
    /// The line names no pair of a parallel loop.
    NoSuchPair { line: usize },
    /// The derivation isn't accepted.
    Refused { line: usize },
}

fn flaw_of_derivation(
    alloc: Global,
    around: &LoopPairs,
    pair: &Pair,
    given: &Given,
) -> Result<Option<Flaw>, Memory>
    ensures { IfOk result (λ o. o ≡ flaw_of_pair given.now.heading.line (loop_of around.now) (Some (pair_told pair.now)) given.now) }
{
    if accept(alloc, &around.knowledge, pair, &given.derivation)? {
        Ok(None)
    } else {
        Ok(Some(Flaw::Refused {
            line: given.heading.line,
        }))
    }
}

fn flaw_with(
    alloc: Global,
    around: &LoopPairs,
    pair: Option<Boxed<Pair>>,
    given: &Given,
) -> Result<Option<Flaw>, Memory>
    ensures { IfOk result (λ o. o ≡ flaw_of_pair given.now.heading.line (loop_of around.now) (option_map pair_told pair) given.now) }
{
    match pair {
        Some(pair) => flaw_of_derivation(alloc, around, pair.get(), given),
        None => Ok(Some(Flaw::NoSuchPair {
            line: given.heading.line,
        })),
    }
}

fn flaw_in(
    alloc: Global,
    active: &[Name],
    around: &LoopPairs,
    given: &Given,
) -> Result<Option<Flaw>, Memory>
    ensures { IfOk result (λ o. o ≡ flaw_of_pair given.now.heading.line (loop_of around.now) (pair_at_lem active.now (loop_of around.now) given.now.heading.first given.now.heading.second) given.now) }
{
    let pair = pair_at(
        alloc,
        active,
        around,
        given.heading.first,
        given.heading.second,
    )?;
    flaw_with(alloc, around, pair, given)
}

fn flaw_at(
    alloc: Global,
    active: &[Name],
    entry: &Option<LoopPairs>,
    given: &Given,
) -> Result<Option<Flaw>, Memory>
    ensures { IfOk result (λ o. o ≡ flaw_in_lem active.now (Some (option_map loop_of entry.now)) given.now) }
{
    match entry {
        Some(around) => Ok(flaw_in(alloc, active, around, given)?),
        None => Ok(Some(Flaw::NoSuchPair {
            line: given.heading.line,
        })),
    }
}

/// What is wrong with a derivation.
fn flaw_of(
    alloc: Global,
    active: &[Name],
    loops: &[Option<LoopPairs>],
    given: &Given,
) -> Result<Option<Flaw>, Memory>
    ensures { IfOk result (λ o. o ≡ flaw_of_lem active.now (loops_of loops.now) given.now) }
{
    match numbered(loops, given.heading.loop_number) {
        Some(entry) => Ok(flaw_at(alloc, active, entry, given)?),
        None => Ok(Some(Flaw::NoSuchPair {
            line: given.heading.line,
        })),
    }
}

/// What is wrong with the first of these derivations that is for no pair of the loops, or isn't accepted. `loops` says of each loop of the
/// program, in textual order, whether it is parallel, and what is known of it then.
pub fn first_flaw(
    alloc: Global,
    active: &[Name],
    loops: &[Option<LoopPairs>],
    givens: &[Given],
) -> Result<Option<Flaw>, Memory>
    ensures { IfOk result (λ o. o ≡ first_flaw_lem active.now (loops_of loops.now) givens.now) }
{
    for i in 0..givens.len() {
        let given = &givens[i];
        let flaw = flaw_of(alloc, active, loops, given)?;
        match flaw {
            Some(flaw) => {
                return Ok(Some(flaw));
            }
            None => {}
        }
    }
    Ok(None)
}
