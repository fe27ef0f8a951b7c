//! The choices.

ghost use Rattle.std.specs.Prelude.{◌≡◌, ◌∷◌, [], map, IfOk};
ghost use Rattle.std.specs.List.{AllByRecursion};
ghost use Rattle.fl_types.specs.declared.choice.Choice.TheVariants as choice;
ghost use Rattle.fl_types.specs.Sharing.{has_name as has_name_lem};
ghost use Rattle.certificate_rules.specs.Surveys.{numbered};
ghost use Rattle.certificate_check.specs.Flaws.{loops_of};
ghost use Rattle.sharing_choice.specs.declared.derivations.Which.TheVariants as which;
ghost use Rattle.sharing_choice.specs.Choosing as spec;
ghost use Rattle.sharing_choice.specs.Shown.{HoldsOf, given_told};

use crate::derivations::{Which, derivations};
use crate::shown::are_shown;
use adjoint_choices::unproved_choices;
use certificate::Given;
use certificate_check::LoopPairs;
use fl_ast::Program;
use fl_base::{Held, Items, Memory, Name};
use fl_types::{Choice, Choices, Chosen, NameSet};
use std::alloc::Global;

/// The choices of a program, with a derivation for each pair of each name that is Shared, by loop, first and second access. These stand in
/// no text, so their lines are 0.
#[derive(Drop)]
pub struct SharingChoice {
    pub choices: Choices,
    pub derivations: Items<Given>,
}

fn only(alloc: Global, name: &Name) -> Result<Items<Name>, Memory>
    ensures { IfOk result (λ names. names ≡ name.now ∷ []) }
{
    let mut names = Items::new(alloc);
    names.push(name.clone(alloc)?)?;
    Ok(names)
}

fn are_pairs_shown(
    alloc: Global,
    loops: &[Option<LoopPairs>],
    entry: &Chosen,
    givens: &[Given],
) -> Result<bool, Memory>
    ensures { IfOk result (λ b. b ≡ spec.are_shown givens.now (entry.now.name ∷ []) (numbered (loops_of loops.now) entry.now.loop_number)) }
{
    let names = only(alloc, &entry.name)?;
    Ok(are_shown(alloc, loops, entry.loop_number, names.as_slice(), givens)?)
}

fn if_shown(shown: bool) -> Choice
    ensures { result ≡ spec.raised shown choice.Atomic }
{
    if shown {
        Choice::Shared
    } else {
        Choice::Atomic
    }
}

fn choice_of(
    alloc: Global,
    loops: &[Option<LoopPairs>],
    entry: &Chosen,
    givens: &[Given],
) -> Result<Choice, Memory>
    ensures { IfOk result (λ c. c ≡ (spec.chosen (loops_of loops.now) givens.now entry.now).choice) }
{
    match entry.choice {
        Choice::Reduction => Ok(Choice::Reduction),
        Choice::Atomic | Choice::Shared => {
            Ok(if_shown(are_pairs_shown(alloc, loops, entry, givens)?))
        }
    }
}

fn chosen_by(
    alloc: Global,
    loops: &[Option<LoopPairs>],
    entry: &Chosen,
    givens: &[Given],
) -> Result<Chosen, Memory>
    ensures { IfOk result (λ c. c ≡ spec.chosen (loops_of loops.now) givens.now entry.now) }
{
    let choice = choice_of(alloc, loops, entry, givens)?;
    Ok(Chosen {
        loop_number: entry.loop_number,
        name: entry.name.clone(alloc)?,
        choice,
    })
}

fn chosen_all(
    alloc: Global,
    loops: &[Option<LoopPairs>],
    entries: &[Chosen],
    givens: &[Given],
) -> Result<Items<Chosen>, Memory>
    ensures { IfOk result (λ all. all ≡ map (spec.chosen (loops_of loops.now) givens.now) entries.now) }
{
    let mut all = Items::new(alloc);
    for i in 0..entries.len() {
        all.push(chosen_by(alloc, loops, &entries[i], givens)?)?;
    }
    Ok(all)
}

/// The choices for a program's active names, `loops` saying of each of its loops, in textual order, whether it is parallel and what is known
/// of it then. A scalar that a loop only reads is collected by iteration. Another name is Shared exactly where each of its pairs in the loop is
/// plain or has an accepted derivation among those that are given, and else Atomic. It fails only where memory is wanting.
pub fn choose(
    alloc: Global,
    program: &Program,
    active: &NameSet,
    loops: &[Option<LoopPairs>],
    givens: &[Given],
) -> Result<SharingChoice, Memory>
    ensures choices { IfOk result (λ c. c.choices.entries ≡ spec.shared_choices program.now (λ x. has_name_lem x active.now.names) (loops_of loops.now) givens.now) }
    ensures derivations { IfOk result (λ c. map given_told c.derivations ≡ spec.derivations which.Shared c.choices.entries (loops_of loops.now) givens.now) }
    ensures shown { IfOk result (λ c. AllByRecursion (HoldsOf (loops_of loops.now)) c.choices.entries) }
{
    let unproved = unproved_choices(alloc, program, active)?;
    let entries = Held::of(chosen_all(alloc, loops, unproved.entries.as_slice(), givens)?);
    let derivations = derivations(
        alloc,
        Which::Shared,
        loops,
        entries.get().as_slice(),
        givens,
    )?;
    Ok(SharingChoice {
        choices: Choices {
            entries: entries.into_inner(),
        },
        derivations,
    })
}

/// The same choices alone. No derivation is made for them.
pub fn shared_choices(
    alloc: Global,
    program: &Program,
    active: &NameSet,
    loops: &[Option<LoopPairs>],
    givens: &[Given],
) -> Result<Choices, Memory>
    ensures choices { IfOk result (λ c. c.entries ≡ spec.shared_choices program.now (λ x. has_name_lem x active.now.names) (loops_of loops.now) givens.now) }
{
    let unproved = unproved_choices(alloc, program, active)?;
    let entries = chosen_all(alloc, loops, unproved.entries.as_slice(), givens)?;
    Ok(Choices { entries })
}

/// The stated derivations of the plain pairs of all names with these choices, but of those whose increments are collected by iteration.
pub fn plain_derivations(
    alloc: Global,
    loops: &[Option<LoopPairs>],
    choices: &Choices,
) -> Result<Items<Given>, Memory>
    ensures derivations { IfOk result (λ all. map given_told all ≡ spec.derivations which.Uncollected choices.now.entries (loops_of loops.now) []) }
{
    Ok(derivations(
        alloc,
        Which::Uncollected,
        loops,
        choices.entries.as_slice(),
        &[],
    )?)
}
