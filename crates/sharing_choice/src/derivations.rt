//! The derivations that choices rest on.

ghost use Rattle.std.specs.Prelude.{◌≡◌, ◌++◌, ◌∷◌, ◌≤◌, [], drop, length, map, if◌then◌else◌, option_map, OnOk, IfOk};
ghost use Rattle.fl_types.specs.Sharing.{has_name as has_name_lem};
ghost use Rattle.index_knowledge.specs.Told.{pair_told};
ghost use Rattle.acceptance.specs.Told.{derivation_told};
ghost use Rattle.certificate_check.specs.Pairs.{loop_of, pair_at as pair_at_lem};
ghost use Rattle.certificate_check.specs.Flaws.{loops_of};
ghost use Rattle.sharing_choice.specs.Choosing as spec;
ghost use Rattle.sharing_choice.specs.Shown.{given_told};

use crate::derivation::derivation_for;
use crate::shown::has_name;
use certificate::{Derivation, Given, Heading};
use certificate_check::{LoopPairs, pair_at};
use fl_base::{Items, Memory, Name};
use fl_types::{Access, Choice, Chosen};
use index_knowledge::Pair;
use std::alloc::Global;

/// Which names of a loop.
#[derive(Clone, Copy)]
pub enum Which {
    Shared,
    /// Those whose increments aren't collected by iteration.
    Uncollected,
}

/// Adds a derivation for a pair, where there is one. It stands in no text yet, so its line is 0.
fn push_given(
    pair: &Pair,
    derivation: Option<Derivation>,
    all: &mut Items<Given>,
) -> Result<(), Memory>
    ensures { OnOk result (map given_told all.new ≡ map given_told all.old ++ spec.derived_pair (pair_told pair.now) (option_map derivation_told derivation)) }
{
    match derivation {
        Some(derivation) => {
            all.push(Given {
                heading: Heading {
                    line: 0,
                    loop_number: pair.loop_number,
                    first: pair.first,
                    second: pair.second,
                },
                derivation,
            })?;
            Ok(())
        }
        None => Ok(()),
    }
}

fn push_pair(
    alloc: Global,
    around: &LoopPairs,
    pair: &Pair,
    givens: &[Given],
    all: &mut Items<Given>,
) -> Result<(), Memory>
    ensures { OnOk result (map given_told all.new ≡ map given_told all.old ++ spec.derived_pair (pair_told pair.now) (spec.derivation_for (loop_of around.now) givens.now (pair_told pair.now))) }
{
    push_given(pair, derivation_for(alloc, around, pair, givens)?, all)
}

/// Adds the derivation of the pair of two accesses, where they make one of these names.
fn push_at(
    alloc: Global,
    around: &LoopPairs,
    names: &[Name],
    first: u32,
    second: u32,
    givens: &[Given],
    all: &mut Items<Given>,
) -> Result<(), Memory>
    ensures { OnOk result (map given_told all.new ≡ map given_told all.old ++ spec.derived_pairs (loop_of around.now) givens.now (spec.listed (pair_at_lem names.now (loop_of around.now) first second))) }
{
    match pair_at(alloc, names, around, first, second)? {
        Some(pair) => push_pair(alloc, around, pair.get(), givens, all),
        None => Ok(()),
    }
}

fn push_with(
    alloc: Global,
    around: &LoopPairs,
    names: &[Name],
    first: u32,
    from: usize,
    accesses: &[Access],
    givens: &[Given],
    all: &mut Items<Given>,
) -> Result<(), Memory>
    requires { from ≤ length accesses.now }
    ensures { OnOk result (map given_told all.new ≡ map given_told all.old
        ++ spec.derived_pairs (loop_of around.now) givens.now (spec.pairs_with names.now (loop_of around.now) first (drop from accesses.now))) }
{
    for i in from..accesses.len() {
        let second = &accesses[i];
        push_at(alloc, around, names, first, second.number, givens, all)?;
    }
    Ok(())
}

fn push_from(
    alloc: Global,
    around: &LoopPairs,
    names: &[Name],
    first: &Access,
    from: usize,
    accesses: &[Access],
    givens: &[Given],
    all: &mut Items<Given>,
) -> Result<(), Memory>
    requires { from ≤ length accesses.now }
    ensures { OnOk result (map given_told all.new ≡ map given_told all.old
        ++ spec.derived_pairs (loop_of around.now) givens.now (if has_name_lem first.now.place.name names.now then spec.pairs_with names.now (loop_of around.now) first.now.number (drop from accesses.now) else [])) }
{
    if !has_name(&first.place.name, names) {
        return Ok(());
    }
    push_with(
        alloc,
        around,
        names,
        first.number,
        from,
        accesses,
        givens,
        all,
    )?;
    Ok(())
}

fn push_among(
    alloc: Global,
    around: &LoopPairs,
    names: &[Name],
    accesses: &[Access],
    givens: &[Given],
    all: &mut Items<Given>,
) -> Result<(), Memory>
    ensures { OnOk result (map given_told all.new ≡ map given_told all.old ++ spec.derived_pairs (loop_of around.now) givens.now (spec.pairs_among names.now (loop_of around.now) accesses.now)) }
{
    for i in 0..accesses.len() {
        let first = &accesses[i];
        push_from(alloc, around, names, first, i, accesses, givens, all)?;
    }
    Ok(())
}

fn takes(which: Which, choice: Choice) -> bool
    ensures { result ≡ spec.takes which choice }
{
    match which {
        Which::Shared => match choice {
            Choice::Shared => true,
            Choice::Atomic | Choice::Reduction => false,
        },
        Which::Uncollected => match choice {
            Choice::Shared | Choice::Atomic => true,
            Choice::Reduction => false,
        },
    }
}

fn push_taken_name(
    alloc: Global,
    which: Which,
    number: u32,
    chosen: &Chosen,
    names: &mut Items<Name>,
) -> Result<(), Memory>
    ensures { OnOk result (names.new ≡ names.old ++ spec.taken_name which number chosen.now) }
{
    if chosen.loop_number != number {
        return Ok(());
    }
    if takes(which, chosen.choice) {
        names.push(chosen.name.clone(alloc)?)?;
    }
    Ok(())
}

fn taken_names(
    alloc: Global,
    which: Which,
    number: u32,
    chosen: &[Chosen],
) -> Result<Items<Name>, Memory>
    ensures { IfOk result (λ names. names ≡ spec.taken_names which number chosen.now) }
{
    let mut names = Items::new(alloc);
    for i in 0..chosen.len() {
        push_taken_name(alloc, which, number, &chosen[i], &mut names)?;
    }
    Ok(names)
}

/// Adds the derivations of a loop's names.
fn push_loop(
    alloc: Global,
    which: Which,
    around: &LoopPairs,
    chosen: &[Chosen],
    givens: &[Given],
    all: &mut Items<Given>,
) -> Result<(), Memory>
    ensures { OnOk result (map given_told all.new ≡ map given_told all.old
        ++ spec.derived_pairs (loop_of around.now) givens.now (spec.pairs_of (spec.taken_names which (loop_of around.now).number chosen.now) (loop_of around.now))) }
{
    let names = taken_names(alloc, which, around.number, chosen)?;
    let accesses = around.knowledge.accesses.as_slice();
    push_among(alloc, around, names.as_slice(), accesses, givens, all)?;
    Ok(())
}

fn push_entry(
    alloc: Global,
    which: Which,
    entry: &Option<LoopPairs>,
    chosen: &[Chosen],
    givens: &[Given],
    all: &mut Items<Given>,
) -> Result<(), Memory>
    ensures { OnOk result (map given_told all.new ≡ map given_told all.old ++ spec.derivations which chosen.now (option_map loop_of entry.now ∷ []) givens.now) }
{
    match entry {
        Some(around) => {
            push_loop(alloc, which, around, chosen, givens, all)?;
            Ok(())
        }
        None => Ok(()),
    }
}

/// For each pair of these names its derivation, where it has one, by loop, first and second access. These stand in no text, so their lines
/// are 0.
pub fn derivations(
    alloc: Global,
    which: Which,
    loops: &[Option<LoopPairs>],
    chosen: &[Chosen],
    givens: &[Given],
) -> Result<Items<Given>, Memory>
    ensures { IfOk result (λ all. map given_told all ≡ spec.derivations which chosen.now (loops_of loops.now) givens.now) }
{
    let mut all = Items::new(alloc);
    for i in 0..loops.len() {
        push_entry(alloc, which, &loops[i], chosen, givens, &mut all)?;
    }
    Ok(all)
}
