//! Choices and certificates of typed programs.

ghost use Rattle.std.specs.Prelude.{◌≡◌, ℕ, List, map, IfOk};
ghost use Rattle.std.specs.List.{AllByRecursion};
ghost use Rattle.fl_types.specs.Sharing.{has_name};
ghost use Rattle.certificate_check.specs.Flaws.{checked, Checks};
ghost use Rattle.sharing_choice.specs.Shown.{given_told};
ghost use Rattle.loop_pairs.specs.Known.{known_of};
ghost use Rattle.program_certificates.specs.Texts.{proved_text};
ghost use Rattle.program_certificates.specs.Choices.{choices_with, derivations_with, stated_derivations, IsDisjointIn};

use adjoint_choices::unproved_choices;
use certificate::{Given, print_cert};
use certificate_check::{CheckError, check_cert};
use fl_base::{Held, Items, Memory};
use fl_types::{NameSet, Typed};
use loop_pairs::known_loops;
use sharing_choice::{SharingChoice, plain_derivations};
use std::alloc::Global;

/// The choices for a program's active names. A scalar that a loop only reads is collected by iteration. Another name is Shared exactly where
/// each of its pairs in the loop is plain or has an accepted derivation among those that are given, and else Atomic.
#[tactic(auto, unfolding(crate::specs::Choices::choices_with, crate::specs::Choices::derivations_with))]
pub fn choose(
    alloc: Global,
    typed: &Typed,
    active: &NameSet,
    givens: &[Given],
) -> Result<SharingChoice, Memory>
    ensures choices { IfOk result (λ c. c.choices.entries ≡ choices_with typed.now (λ x. has_name x active.now.names) givens.now) }
    ensures derivations { IfOk result (λ c. map given_told c.derivations ≡ derivations_with typed.now (λ x. has_name x active.now.names) givens.now) }
    ensures disjoint { IfOk result (λ c. AllByRecursion (IsDisjointIn (known_of typed.now (λ x. has_name x active.now.names))) c.choices.entries) }
{
    let loops = Held::of(known_loops(alloc, typed, active)?);
    Ok(sharing_choice::choose(
        alloc,
        typed.program(),
        active,
        loops.get().as_slice(),
        givens,
    )?)
}

/// The derivations of a certificate for the program, each accepted for a pair of a parallel loop. Else the first line with which no certificate
/// goes on, or where there is none, the first derivation, in the text's order, that is for no pair or isn't accepted.
pub fn check(
    alloc: Global,
    typed: &Typed,
    active: &NameSet,
    text: &[u8],
) -> Result<Items<Given>, CheckError>
    ensures checks { Checks (checked active.now.names (known_of typed.now (λ x. has_name x active.now.names)) text.now) result }
{
    match known_loops(alloc, typed, active) {
        Ok(loops) => check_cert(alloc, active.names.as_slice(), loops.as_slice(), text),
        Err(Memory) => Err(CheckError::Memory),
    }
}

/// The stated derivations of a program's plain pairs, those of names whose increments are collected by iteration left out, by loop, first and
/// second access. They stand in no text, so their lines are 0.
#[tactic(auto, unfolding(crate::specs::Choices::stated_derivations))]
pub fn prove_pairs(alloc: Global, typed: &Typed, active: &NameSet) -> Result<Items<Given>, Memory>
    ensures derivations { IfOk result (λ all. map given_told all ≡ stated_derivations typed.now (λ x. has_name x active.now.names)) }
{
    let loops = Held::of(known_loops(alloc, typed, active)?);
    let choices = unproved_choices(alloc, typed.program(), active)?;
    Ok(plain_derivations(alloc, loops.get().as_slice(), &choices)?)
}

/// The certificate of a program's plain pairs, those of names whose increments are collected by iteration left out.
#[tactic(auto, using(crate::proofs::Texts::text_proved))]
pub fn proved_certificate(alloc: Global, typed: &Typed, active: &NameSet) -> Result<Vec<u8>, Memory>
    ensures text { IfOk result (λ text. text.items ≡ proved_text typed.now (λ x. has_name x active.now.names)) }
{
    let givens = prove_pairs(alloc, typed, active)?;
    Ok(print_cert(alloc, givens.as_slice())?)
}
