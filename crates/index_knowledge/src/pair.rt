//! Pairs: which reads become additions to one element's adjoint, in two iterations.

ghost use Rattle.std.specs.Prelude.{◌≡◌, ◌<◌, ◌≤◌, [], length, drop, slice_get, Some, IfOk, OnOk};
ghost use Rattle.index_forms.specs.Listed.{forms_seen, all_forms_seen};
ghost use Rattle.index_knowledge.specs.Knowledge.{pairing, is_read as is_read_lem, is_paired as is_paired_lem, and_pair, with_pairs_of, with_pairs_at, pairs as pairs_lem};
ghost use Rattle.index_knowledge.specs.Told.{pairs_told};

use crate::fact::differences;
use fl_base::{Items, Memory, Name};
use fl_types::{Access, AccessKind};
use index_forms::Form;
use std::alloc::Global;

/// Two reads of a name, by their numbers: the first in one iteration and the second in another. `nest` is the number of loops whose
/// iterations the parallel loop's iterations are.
#[derive(Drop)]
pub struct Pair {
    pub loop_number: u32,
    pub first: u32,
    pub second: u32,
    pub differences: Items<Form>,
    pub nest: u32,
}

fn is_read(kind: AccessKind) -> bool
    ensures { result ≡ is_read_lem kind }
{
    match kind {
        AccessKind::Read => true,
        AccessKind::Write | AccessKind::Update => false,
    }
}

fn is_paired(name: &Name, right: bool, access: &Access) -> bool
    ensures { result ≡ is_paired_lem name.now right access.now }
{
    if !right {
        return false;
    }
    if !name.is(&access.place.name) {
        return false;
    }
    is_read(access.kind)
}

/// Adds the pair of an access with another, where they make one.
#[tactic(auto, using(crate::proofs::PairLists::pair_made, crate::proofs::PairLists::pair_none))]
fn push_pair(
    alloc: Global,
    loop_number: u32,
    nest: u32,
    name: &Name,
    first: &Access,
    ones: &[Form],
    right: bool,
    second: &Access,
    twos: &[Form],
    all: &mut Items<Pair>,
) -> Result<(), Memory>
    ensures { OnOk result (pairs_told all.new ≡ and_pair (pairing loop_number nest name.now) first.now (forms_seen ones.now) right second.now (forms_seen twos.now) (pairs_told all.old)) }
{
    if !is_paired(name, right, second) {
        return Ok(());
    }
    let differences = differences(alloc, ones, twos)?;
    all.push(Pair {
        loop_number,
        first: first.number,
        second: second.number,
        differences,
        nest,
    })?;
    Ok(())
}

/// Adds the pairs of an access with those from one on.
fn push_pairs_of(
    alloc: Global,
    loop_number: u32,
    nest: u32,
    name: &Name,
    first: &Access,
    ones: &[Form],
    from: usize,
    rights: &[bool],
    accesses: &[Access],
    twos: &[Items<Form>],
    all: &mut Items<Pair>,
) -> Result<(), Memory>
    requires from { from ≤ length accesses.now }
    requires rights { length rights.now ≡ length accesses.now }
    requires twos { length twos.now ≡ length accesses.now }
    ensures { OnOk result (pairs_told all.new
        ≡ with_pairs_of (pairing loop_number nest name.now) first.now (forms_seen ones.now) (drop from rights.now) (drop from accesses.now) (all_forms_seen (drop from twos.now)) (pairs_told all.old)) }
{
    for i in from..accesses.len() {
        let forms = twos[i].as_slice();
        push_pair(
            alloc,
            loop_number,
            nest,
            name,
            first,
            ones,
            rights[i],
            &accesses[i],
            forms,
            all,
        )?;
    }
    Ok(())
}

/// Adds the pairs of the access at a position with those from it on, where it is one of the reads that are asked for.
#[tactic(auto, using(crate::proofs::PairLists::at_none, crate::proofs::PairLists::at_some))]
fn push_pairs_at(
    alloc: Global,
    loop_number: u32,
    nest: u32,
    name: &Name,
    first: &Access,
    ones: &[Form],
    right: bool,
    at: usize,
    rights: &[bool],
    accesses: &[Access],
    twos: &[Items<Form>],
    all: &mut Items<Pair>,
) -> Result<(), Memory>
    requires at { at ≤ length accesses.now }
    requires rights { length rights.now ≡ length accesses.now }
    requires twos { length twos.now ≡ length accesses.now }
    ensures { OnOk result (pairs_told all.new
        ≡ with_pairs_at (pairing loop_number nest name.now) first.now (forms_seen ones.now) right (drop at rights.now) (drop at accesses.now) (all_forms_seen (drop at twos.now)) (pairs_told all.old)) }
{
    if !is_paired(name, right, first) {
        return Ok(());
    }
    push_pairs_of(
        alloc,
        loop_number,
        nest,
        name,
        first,
        ones,
        at,
        rights,
        accesses,
        twos,
        all,
    )?;
    Ok(())
}

fn right_at(rights: &[bool], at: usize) -> bool
    requires { at < length rights.now }
    ensures { slice_get rights.now at ≡ Some result }
{
    rights[at]
}

/// The pairs of a name in a loop with these accesses, whose forms are `ones` on side One and `twos` on side Two. `rights` says of each
/// access whether it is in the right side of an assignment to an active name.
pub fn pairs(
    alloc: Global,
    loop_number: u32,
    nest: u32,
    name: &Name,
    rights: &[bool],
    accesses: &[Access],
    ones: &[Items<Form>],
    twos: &[Items<Form>],
) -> Result<Items<Pair>, Memory>
    requires rights { length rights.now ≡ length accesses.now }
    requires ones { length ones.now ≡ length accesses.now }
    requires twos { length twos.now ≡ length accesses.now }
    ensures pairs { IfOk result (λ all. pairs_told all ≡ pairs_lem (pairing loop_number nest name.now) rights.now accesses.now (all_forms_seen ones.now) (all_forms_seen twos.now)) }
{
    let mut all = Items::new(alloc);
    for i in 0..accesses.len() {
        let forms = ones[i].as_slice();
        let right = right_at(rights, i);
        push_pairs_at(
            alloc,
            loop_number,
            nest,
            name,
            &accesses[i],
            forms,
            right,
            i,
            rights,
            accesses,
            twos,
            &mut all,
        )?;
    }
    Ok(all)
}
