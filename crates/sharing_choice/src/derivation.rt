//! The derivation of a pair.

ghost use Rattle.std.specs.Prelude.{◌≡◌, ◌&&◌, option_map, IfOk};
ghost use Rattle.index_knowledge.specs.Told.{pair_told};
ghost use Rattle.certificate_rules.specs.Tests.{accepts};
ghost use Rattle.acceptance.specs.Told.{derivation_told};
ghost use Rattle.certificate_check.specs.Pairs.{loop_of};
ghost use Rattle.sharing_choice.specs.Choosing as spec;

use crate::copied::copied;
use acceptance::accept;
use certificate::{Derivation, Given};
use certificate_check::LoopPairs;
use disjoint_prover::prove;
use fl_base::Memory;
use index_knowledge::Pair;
use std::alloc::Global;

fn is_for(pair: &Pair, given: &Given) -> bool
    ensures { result ≡ spec.is_for (pair_told pair.now) given.now }
{
    if given.heading.loop_number != pair.loop_number {
        return false;
    }
    given.heading.first == pair.first && given.heading.second == pair.second
}

fn is_accepted_for(
    alloc: Global,
    around: &LoopPairs,
    pair: &Pair,
    given: &Given,
) -> Result<bool, Memory>
    ensures { IfOk result (λ b. b ≡ (spec.is_for (pair_told pair.now) given.now && accepts (loop_of around.now).survey (pair_told pair.now) (derivation_told given.now.derivation))) }
{
    if !is_for(pair, given) {
        return Ok(false);
    }
    Ok(accept(alloc, &around.knowledge, pair, &given.derivation)?)
}

/// A copy of the first of the derivations given for the pair that is accepted.
pub fn given_for(
    alloc: Global,
    around: &LoopPairs,
    pair: &Pair,
    givens: &[Given],
) -> Result<Option<Derivation>, Memory>
    ensures { IfOk result (λ o. option_map derivation_told o ≡ spec.given_for (loop_of around.now) givens.now (pair_told pair.now)) }
{
    for i in 0..givens.len() {
        let given = &givens[i];
        if is_accepted_for(alloc, around, pair, given)? {
            return Ok(Some(copied(alloc, &given.derivation)?));
        }
    }
    Ok(None)
}

/// The derivation that is stated for the pair, where it is plain; else a copy of the first accepted one of those that are given.
pub fn derivation_for(
    alloc: Global,
    around: &LoopPairs,
    pair: &Pair,
    givens: &[Given],
) -> Result<Option<Derivation>, Memory>
    ensures { IfOk result (λ o. option_map derivation_told o ≡ spec.derivation_for (loop_of around.now) givens.now (pair_told pair.now)) }
{
    match prove(alloc, &around.knowledge, pair)? {
        Some(derivation) => Ok(Some(derivation)),
        None => Ok(given_for(alloc, around, pair, givens)?),
    }
}
