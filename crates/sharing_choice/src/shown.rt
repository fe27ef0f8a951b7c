//! Whether each pair of some names is shown to be disjoint.

ghost use Rattle.std.specs.Prelude.{◌≡◌, ◌||◌, ◌≤◌, [], drop, length, if◌then◌else◌, is_some, option_map, Some, IfOk};
ghost use Rattle.std.specs.List.{list_all};
ghost use Rattle.fl_types.specs.Sharing.{has_name as has_name_lem};
ghost use Rattle.index_knowledge.specs.Told.{pair_told};
ghost use Rattle.certificate_rules.specs.Plain.{stated};
ghost use Rattle.certificate_rules.specs.Surveys.{numbered as numbered_lem};
ghost use Rattle.certificate_check.specs.Pairs.{loop_of, pair_at as pair_at_lem};
ghost use Rattle.certificate_check.specs.Flaws.{loops_of};
ghost use Rattle.sharing_choice.specs.Choosing as spec;

use crate::derivation::given_for;
use acceptance::numbered;
use certificate::Given;
use certificate_check::{LoopPairs, pair_at};
use disjoint_prover::is_plain;
use fl_base::{Memory, Name};
use fl_types::Access;
use index_knowledge::Pair;
use std::alloc::Global;

pub fn has_name(name: &Name, names: &[Name]) -> bool
    ensures { result ≡ has_name_lem name.now names.now }
{
    names.iter().any(|other| name.is(other))
}

fn is_given(
    alloc: Global,
    around: &LoopPairs,
    pair: &Pair,
    givens: &[Given],
) -> Result<bool, Memory>
    ensures { IfOk result (λ b. b ≡ is_some (spec.given_for (loop_of around.now) givens.now (pair_told pair.now))) }
{
    match given_for(alloc, around, pair, givens)? {
        Some(_) => Ok(true),
        None => Ok(false),
    }
}

fn is_plain_or_given(
    alloc: Global,
    around: &LoopPairs,
    pair: &Pair,
    givens: &[Given],
) -> Result<bool, Memory>
    ensures { IfOk result (λ b. b ≡ (is_some (stated (loop_of around.now).survey (pair_told pair.now)) || is_some (spec.given_for (loop_of around.now) givens.now (pair_told pair.now)))) }
{
    if is_plain(alloc, &around.knowledge, pair)? {
        return Ok(true);
    }
    Ok(is_given(alloc, around, pair, givens)?)
}

/// Whether the pair has a derivation, without making the one that is stated for it.
#[tactic(auto, using(crate::proofs::Either::shown_is))]
fn is_shown(
    alloc: Global,
    around: &LoopPairs,
    pair: &Pair,
    givens: &[Given],
) -> Result<bool, Memory>
    ensures { IfOk result (λ b. b ≡ spec.is_shown (loop_of around.now) givens.now (pair_told pair.now)) }
{
    Ok(is_plain_or_given(alloc, around, pair, givens)?)
}

/// Whether the pair of the accesses with two numbers is shown, where they make one of these names.
fn is_shown_at(
    alloc: Global,
    around: &LoopPairs,
    names: &[Name],
    first: u32,
    second: u32,
    givens: &[Given],
) -> Result<bool, Memory>
    ensures { IfOk result (λ b. b ≡ list_all (spec.is_shown (loop_of around.now) givens.now) (spec.listed (pair_at_lem names.now (loop_of around.now) first second))) }
{
    match pair_at(alloc, names, around, first, second)? {
        Some(pair) => Ok(is_shown(alloc, around, pair.get(), givens)?),
        None => Ok(true),
    }
}

/// Whether the pairs of an access with those from a position on are shown.
fn are_shown_with(
    alloc: Global,
    around: &LoopPairs,
    names: &[Name],
    first: u32,
    from: usize,
    accesses: &[Access],
    givens: &[Given],
) -> Result<bool, Memory>
    requires { from ≤ length accesses.now }
    ensures { IfOk result (λ b. b ≡ list_all (spec.is_shown (loop_of around.now) givens.now) (spec.pairs_with names.now (loop_of around.now) first (drop from accesses.now))) }
{
    for i in from..accesses.len() {
        let second = &accesses[i];
        if !is_shown_at(alloc, around, names, first, second.number, givens)? {
            return Ok(false);
        }
    }
    Ok(true)
}

/// Whether the pairs of the access at a position with itself and those behind it are shown.
fn are_shown_from(
    alloc: Global,
    around: &LoopPairs,
    names: &[Name],
    first: &Access,
    from: usize,
    accesses: &[Access],
    givens: &[Given],
) -> Result<bool, Memory>
    requires { from ≤ length accesses.now }
    ensures { IfOk result (λ b. b ≡ list_all (spec.is_shown (loop_of around.now) givens.now)
        (if has_name_lem first.now.place.name names.now then spec.pairs_with names.now (loop_of around.now) first.now.number (drop from accesses.now) else [])) }
{
    if !has_name(&first.place.name, names) {
        return Ok(true);
    }
    Ok(are_shown_with(alloc, around, names, first.number, from, accesses, givens)?)
}

fn are_shown_among(
    alloc: Global,
    around: &LoopPairs,
    names: &[Name],
    accesses: &[Access],
    givens: &[Given],
) -> Result<bool, Memory>
    ensures { IfOk result (λ b. b ≡ list_all (spec.is_shown (loop_of around.now) givens.now) (spec.pairs_among names.now (loop_of around.now) accesses.now)) }
{
    for i in 0..accesses.len() {
        let first = &accesses[i];
        if !are_shown_from(alloc, around, names, first, i, accesses, givens)? {
            return Ok(false);
        }
    }
    Ok(true)
}

fn are_shown_in(
    alloc: Global,
    around: &LoopPairs,
    names: &[Name],
    givens: &[Given],
) -> Result<bool, Memory>
    ensures { IfOk result (λ b. b ≡ list_all (spec.is_shown (loop_of around.now) givens.now) (spec.pairs_of names.now (loop_of around.now))) }
{
    let accesses = around.knowledge.accesses.as_slice();
    Ok(are_shown_among(alloc, around, names, accesses, givens)?)
}

fn are_shown_at(
    alloc: Global,
    entry: &Option<LoopPairs>,
    names: &[Name],
    givens: &[Given],
) -> Result<bool, Memory>
    ensures { IfOk result (λ b. b ≡ spec.are_shown givens.now names.now (Some (option_map loop_of entry.now))) }
{
    match entry {
        Some(around) => Ok(are_shown_in(alloc, around, names, givens)?),
        None => Ok(false),
    }
}

/// Whether each pair of the names in the loop with a number is shown.
#[tactic(auto, using(crate::proofs::Numbered::none_numbered, crate::proofs::Numbered::some_numbered))]
pub fn are_shown(
    alloc: Global,
    loops: &[Option<LoopPairs>],
    loop_number: u32,
    names: &[Name],
    givens: &[Given],
) -> Result<bool, Memory>
    ensures { IfOk result (λ b. b ≡ spec.are_shown givens.now names.now (numbered_lem (loops_of loops.now) loop_number)) }
{
    match numbered(loops, loop_number) {
        Some(entry) => Ok(are_shown_at(alloc, entry, names, givens)?),
        None => Ok(false),
    }
}
