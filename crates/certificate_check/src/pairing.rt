//! The pairs of a loop, by the numbers of their accesses.

ghost use Rattle.std.specs.Prelude.{◌≡◌, option_map, Some, IfOk};
ghost use Rattle.fl_types.specs.Sharing.{has_name as has_name_lem};
ghost use Rattle.index_forms.specs.Listed.{forms_seen, all_forms_seen};
ghost use Rattle.index_forms.specs.Sums.{differences as differences_lem};
ghost use Rattle.index_knowledge.specs.Knowledge.{is_read as is_read_lem};
ghost use Rattle.index_knowledge.specs.Told.{pair_told};
ghost use Rattle.certificate_rules.specs.Surveys.{numbered as numbered_lem};
ghost use Rattle.acceptance.specs.Told.{element_told};
ghost use Rattle.certificate_check.specs.Pairs.{is_pair_read as is_pair_read_lem, pair_read_of, loop_of, pair_of_two as pair_of_two_lem, pair_at as pair_at_lem};

use acceptance::{Element, LoopKnowledge, numbered};
use fl_base::{Boxed, Items, Memory, Name};
use fl_types::{Access, AccessKind};
use index_forms::Form;
use index_knowledge::{Pair, differences};
use std::alloc::Global;

/// A parallel loop with what is known of it. `nest` is the number of loops whose iterations its iterations are, and `rights` says of each
/// access whether it is in the right side of an assignment to an active name.
#[derive(Drop)]
pub struct LoopPairs {
    pub number: u32,
    pub nest: u32,
    pub rights: Items<bool>,
    pub knowledge: LoopKnowledge,
}

fn has_name(name: &Name, names: &[Name]) -> bool
    ensures { result ≡ has_name_lem name.now names.now }
{
    names.iter().any(|other| name.is(other))
}

fn is_read(kind: AccessKind) -> bool
    ensures { result ≡ is_read_lem kind }
{
    match kind {
        AccessKind::Read => true,
        AccessKind::Write | AccessKind::Update => false,
    }
}

/// Whether the access reads an active name in the right side of an assignment to an active name.
fn is_pair_read(active: &[Name], access: &Access, right: bool) -> bool
    ensures { result ≡ is_pair_read_lem active.now access.now right }
{
    if !right {
        return false;
    }
    is_read(access.kind) && has_name(&access.place.name, active)
}

/// What the access with a number reads, where pairs are made of it; `side` has the forms of the accesses' subscripts.
fn pair_read<'a>(
    active: &[Name],
    accesses: &'a [Access],
    rights: &[bool],
    side: &'a [Items<Form>],
    number: u32,
) -> Option<Element<'a>>
    ensures { option_map element_told result ≡ pair_read_of active.now (numbered_lem accesses.now number) (numbered_lem rights.now number) (numbered_lem (all_forms_seen side.now) number) }
{
    match numbered(accesses, number) {
        Some(access) => match numbered(rights, number) {
            Some(right) => match numbered(side, number) {
                Some(forms) => {
                    if is_pair_read(active, access, *right) {
                        Some(Element {
                            name: &access.place.name,
                            forms: forms.as_slice(),
                        })
                    } else {
                        None
                    }
                }
                None => None,
            },
            None => None,
        },
        None => None,
    }
}

fn made_pair(
    alloc: Global,
    loop_number: u32,
    nest: u32,
    first: u32,
    second: u32,
    ones: &[Form],
    twos: &[Form],
) -> Result<Option<Boxed<Pair>>, Memory>
    ensures { IfOk result (λ o. option_map pair_told o ≡ Some (record { loop_number = loop_number; first = first; second = second; differences = differences_lem (forms_seen ones.now) (forms_seen twos.now); nest = nest })) }
{
    let pair = Pair {
        loop_number,
        first,
        second,
        differences: differences(alloc, ones, twos)?,
        nest,
    };
    Ok(Some(Boxed::new(alloc, pair)?))
}

fn pair_of_two(
    alloc: Global,
    loop_number: u32,
    nest: u32,
    first: u32,
    second: u32,
    one: Option<Element<'_>>,
    two: Option<Element<'_>>,
) -> Result<Option<Boxed<Pair>>, Memory>
    ensures { IfOk result (λ o. option_map pair_told o ≡ pair_of_two_lem loop_number nest first second (option_map element_told one.entry) (option_map element_told two.entry)) }
{
    match one {
        Some(one) => match two {
            Some(two) => {
                if second < first {
                    return Ok(None);
                }
                if !one.name.is(two.name) {
                    return Ok(None);
                }
                made_pair(
                    alloc,
                    loop_number,
                    nest,
                    first,
                    second,
                    one.forms,
                    two.forms,
                )
            }
            None => Ok(None),
        },
        None => Ok(None),
    }
}

/// The pair of the loop's accesses with two numbers, where they make one: the first isn't behind the second, and both read one active name in
/// right sides of assignments to active names.
pub fn pair_at(
    alloc: Global,
    active: &[Name],
    around: &LoopPairs,
    first: u32,
    second: u32,
) -> Result<Option<Boxed<Pair>>, Memory>
    ensures { IfOk result (λ o. option_map pair_told o ≡ pair_at_lem active.now (loop_of around.now) first second) }
{
    let accesses = around.knowledge.accesses.as_slice();
    let rights = around.rights.as_slice();
    let ones = around.knowledge.ones.as_slice();
    let twos = around.knowledge.twos.as_slice();
    let one = pair_read(active, accesses, rights, ones, first);
    let two = pair_read(active, accesses, rights, twos, second);
    pair_of_two(alloc, around.number, around.nest, first, second, one, two)
}
