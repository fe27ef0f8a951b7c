ghost use Rattle.std.specs.Prelude.{◌≡◌, map, suc, IfOk};
ghost use Rattle.fl_types.specs.Accesses.{loop_accesses};
ghost use Rattle.loop_accesses.specs.Numbers.{numbered, numbered_of};
ghost use Rattle.loop_accesses.specs.Views.{loop_view, occurrence_of};

use crate::classes::LoopNames;
use crate::path::Path;
use crate::reads::Found;
use crate::statements::push_statements;
use crate::view::LoopView;
use fl_base::{Items, Memory};
use fl_types::{Access, iteration_body};
use known_names::Indexed;
use std::alloc::Global;

/// The number of the element i. That there are more accesses than 32 bits count is a want of memory.
fn number_of(i: usize) -> Result<u32, Memory>
    ensures { IfOk result (λ n. n ≡ suc i) }
{
    match u32::try_from(i) {
        Ok(n) => match n.checked_add(1) {
            Some(number) => Ok(number),
            None => Err(Memory),
        },
        Err(_) => Err(Memory),
    }
}

fn access_of(
    alloc: Global,
    loop_number: u32,
    number: u32,
    found: &Found<'_>,
) -> Result<Access, Memory>
    ensures { IfOk result (λ a. numbered_of a ≡ record { number = number; loop_number = loop_number; occurrence = occurrence_of found.now }) }
{
    let path = Items::from_slice(alloc, found.path.as_slice())?;
    let place = found.place.clone(alloc)?;
    Ok(Access {
        number,
        loop_number,
        line: found.line,
        place,
        path,
        kind: found.kind,
    })
}

fn numbered_all(
    alloc: Global,
    loop_number: u32,
    found: &[Found<'_>],
) -> Result<Items<Access>, Memory>
    ensures { IfOk result (λ all. map numbered_of all ≡ numbered loop_number 1 (map occurrence_of found.now)) }
{
    let mut all = Items::new(alloc);
    for i in 0..found.len() {
        let number = number_of(i)?;
        all.push(access_of(alloc, loop_number, number, &found[i])?)?;
    }
    Ok(all)
}

/// The accesses of a parallel loop of the program, in order of evaluation, numbered from 1. Two loops that are collapsed are
/// one: the inner one's bounds and step make no access.
pub fn accesses<'t>(
    alloc: Global,
    indexed: &Indexed<'t>,
    view: &LoopView<'t>,
) -> Result<Items<Access>, Memory>
    ensures { IfOk result (λ all. map numbered_of all ≡ numbered view.now.number 1 (loop_accesses indexed.now.decls (loop_view view.now))) }
{
    let names = LoopNames::of(alloc, indexed, view)?;
    let body = iteration_body(view.directive, view.body);
    let mut found = Items::new(alloc);
    push_statements(alloc, &names, 1, &Path::Start, body, &mut found)?;
    numbered_all(alloc, view.number, found.as_slice())
}
