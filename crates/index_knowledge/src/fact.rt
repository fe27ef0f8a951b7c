//! Facts: which accesses of a loop never meet in two iterations of a run without a conflict.

ghost use Rattle.std.specs.Prelude.{◌≡◌, [], suc, length, map, IfOk, OnOk};
ghost use Rattle.index_forms.specs.Seen.{form_tree};
ghost use Rattle.index_forms.specs.Sums.{minus, differences as differences_lem};
ghost use Rattle.index_forms.specs.Listed.{forms_seen, all_forms_seen};
ghost use Rattle.index_knowledge.specs.Knowledge.{is_write as is_write_lem, is_fact as is_fact_lem, and_fact, with_facts_of, facts as facts_lem};
ghost use Rattle.index_knowledge.specs.Told.{facts_told};

use fl_base::{Items, Memory};
use fl_types::{Access, AccessKind};
use index_forms::{Form, subtract};
use std::alloc::Global;

/// Two accesses of one name of which at least one writes, by their numbers: the first in one iteration and the second in another. The
/// differences of their subscripts are never all 0.
#[derive(Drop)]
pub struct Fact {
    pub number: u32,
    pub first: u32,
    pub second: u32,
    pub differences: Items<Form>,
}

/// The left form without the right one. That a number of it leaves -2^62 .. 2^62 counts as a want of memory: forms of accesses have
/// numbers of 32 bits.
pub fn difference(alloc: Global, left: &Form, right: &Form) -> Result<Form, Memory>
    ensures { IfOk result (λ f. form_tree f ≡ minus (form_tree left.now) (form_tree right.now)) }
{
    match subtract(alloc, left, right)? {
        Some(form) => Ok(form),
        None => Err(Memory),
    }
}

/// The differences of subscripts, one by one.
pub fn differences(alloc: Global, ones: &[Form], twos: &[Form]) -> Result<Items<Form>, Memory>
    ensures { IfOk result (λ ds. map form_tree ds ≡ differences_lem (forms_seen ones.now) (forms_seen twos.now)) }
{
    let mut all = Items::new(alloc);
    for i in 0..ones.len() {
        if i >= twos.len() {
            return Ok(all);
        }
        all.push(difference(alloc, &ones[i], &twos[i])?)?;
    }
    Ok(all)
}

fn is_write(kind: AccessKind) -> bool
    ensures { result ≡ is_write_lem kind }
{
    match kind {
        AccessKind::Write => true,
        AccessKind::Read | AccessKind::Update => false,
    }
}

fn is_fact(first: &Access, second: &Access) -> bool
    ensures { result ≡ is_fact_lem first.now second.now }
{
    if !first.place.name.is(&second.place.name) {
        return false;
    }
    is_write(first.kind) || is_write(second.kind)
}

/// The number of the next fact. That there are more than 32 bits count is a want of memory.
fn next_number(all: &[Fact]) -> Result<u32, Memory>
    ensures { IfOk result (λ n. n ≡ suc (length all.now)) }
{
    match u32::try_from(all.len()) {
        Ok(count) => match count.checked_add(1) {
            Some(number) => Ok(number),
            None => Err(Memory),
        },
        Err(_) => Err(Memory),
    }
}

/// Adds the fact of two accesses, where they make one.
#[tactic(auto, using(crate::proofs::FactLists::fact_made, crate::proofs::FactLists::fact_none))]
fn push_fact(
    alloc: Global,
    first: &Access,
    ones: &[Form],
    second: &Access,
    twos: &[Form],
    all: &mut Items<Fact>,
) -> Result<(), Memory>
    ensures { OnOk result (facts_told all.new ≡ and_fact first.now (forms_seen ones.now) second.now (forms_seen twos.now) (facts_told all.old)) }
{
    if !is_fact(first, second) {
        return Ok(());
    }
    let number = next_number(all.as_slice())?;
    let differences = differences(alloc, ones, twos)?;
    all.push(Fact {
        number,
        first: first.number,
        second: second.number,
        differences,
    })?;
    Ok(())
}

/// Adds the facts of an access with others.
fn push_facts_of(
    alloc: Global,
    first: &Access,
    ones: &[Form],
    accesses: &[Access],
    twos: &[Items<Form>],
    all: &mut Items<Fact>,
) -> Result<(), Memory>
    requires { length twos.now ≡ length accesses.now }
    ensures { OnOk result (facts_told all.new ≡ with_facts_of first.now (forms_seen ones.now) accesses.now (all_forms_seen twos.now) (facts_told all.old)) }
{
    for i in 0..accesses.len() {
        push_fact(alloc, first, ones, &accesses[i], twos[i].as_slice(), all)?;
    }
    Ok(())
}

/// The facts of a loop with these accesses, whose forms are `ones` on side One and `twos` on side Two.
pub fn facts(
    alloc: Global,
    accesses: &[Access],
    ones: &[Items<Form>],
    twos: &[Items<Form>],
) -> Result<Items<Fact>, Memory>
    requires ones { length ones.now ≡ length accesses.now }
    requires twos { length twos.now ≡ length accesses.now }
    ensures facts { IfOk result (λ all. facts_told all ≡ facts_lem accesses.now (all_forms_seen ones.now) (all_forms_seen twos.now)) }
{
    let mut all = Items::new(alloc);
    for i in 0..accesses.len() {
        push_facts_of(
            alloc,
            &accesses[i],
            ones[i].as_slice(),
            accesses,
            twos,
            &mut all,
        )?;
    }
    Ok(all)
}
