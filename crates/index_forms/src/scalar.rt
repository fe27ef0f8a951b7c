//! Forms of scalars.

ghost use Rattle.std.specs.Prelude.{◌≡◌, IfOk, option_map, Some};
ghost use Rattle.index_forms.specs.Form.{inv};
ghost use Rattle.index_forms.specs.Seen.{atom_tree, form_tree};
ghost use Rattle.index_forms.specs.Formed.{if_narrow, atom_form};
ghost use Rattle.index_forms.specs.Origins.{origin_form as origin_form_lem, known_with};
ghost use Rattle.index_forms.specs.Scenes.{counter_form as counter_form_lem, second_counter_form as second_counter_form_lem, further_form as further_form_lem, known_first};

use crate::form::{Atom, Form, Side};
use crate::linear::{form_of_atom, variable};
use crate::origin::{Entry, Origin, find_origin};
use crate::scene::{Counter, Scene, has_name};
use fl_base::{Boxed, Memory, Name};
use std::alloc::Global;

fn some_atom(alloc: Global, atom: Boxed<Atom>) -> Result<Option<Form>, Memory>
    ensures { IfOk result (λ o. option_map form_tree o ≡ if_narrow (Some (atom_form (atom_tree atom)))) }
{
    Ok(Some(form_of_atom(alloc, atom)?))
}

/// A scalar that holds what it held before the loop.
fn invariant(alloc: Global, name: &Name) -> Result<Option<Form>, Memory>
    ensures { IfOk result (λ o. option_map form_tree o ≡ if_narrow (Some (atom_form (inv name.now)))) }
{
    let name = name.clone(alloc)?;
    let atom = Boxed::new(alloc, Atom::Inv(name))?;
    some_atom(alloc, atom)
}

fn counter_form(alloc: Global, side: Side, counter: &Counter) -> Result<Option<Form>, Memory>
    ensures { IfOk result (λ o. option_map form_tree o ≡ if_narrow (Some (counter_form_lem side counter.now))) }
{
    let from = Boxed::new(alloc, Atom::Start)?;
    let counted = Boxed::new(alloc, Atom::Iter(side))?;
    variable(alloc, from, counted, counter.first, counter.step)
}

fn second_counter_form(alloc: Global, side: Side, counter: &Counter) -> Result<Option<Form>, Memory>
    ensures { IfOk result (λ o. option_map form_tree o ≡ if_narrow (Some (second_counter_form_lem side counter.now))) }
{
    let from = Boxed::new(alloc, Atom::Start2)?;
    let counted = Boxed::new(alloc, Atom::Iter2(side))?;
    variable(alloc, from, counted, counter.first, counter.step)
}

/// A scalar that the loop doesn't write, and that isn't its variable.
fn further_form(
    alloc: Global,
    side: Side,
    name: &Name,
    further: &Option<Counter>,
) -> Result<Option<Form>, Memory>
    ensures { IfOk result (λ o. option_map form_tree o ≡ if_narrow (further_form_lem side name.now further.now)) }
{
    match further {
        Some(counter) => {
            if name.is(&counter.name) {
                return second_counter_form(alloc, side, counter);
            }
            invariant(alloc, name)
        }
        None => invariant(alloc, name),
    }
}

fn first_form(alloc: Global, scene: &Scene, name: &Name) -> Result<Option<Form>, Memory>
    ensures { IfOk result (λ o. option_map form_tree o ≡ if_narrow (known_first scene.now name.now)) }
{
    if has_name(name, scene.written.as_slice()) {
        return Ok(None);
    }
    if name.is(&scene.counter.name) {
        return counter_form(alloc, scene.side, &scene.counter);
    }
    further_form(alloc, scene.side, name, &scene.further)
}

fn origin_form(
    alloc: Global,
    side: Side,
    name: &Name,
    origin: Origin,
) -> Result<Option<Form>, Memory>
    ensures { IfOk result (λ o. option_map form_tree o ≡ if_narrow (origin_form_lem side name.now origin)) }
{
    match origin {
        Origin::Unknown => Ok(None),
        Origin::Turn(number) => {
            let atom = Boxed::new(alloc, Atom::Inner(side, number))?;
            some_atom(alloc, atom)
        }
        Origin::Assigned(number) => {
            let name = name.clone(alloc)?;
            let atom = Boxed::new(alloc, Atom::Version(side, number, name))?;
            some_atom(alloc, atom)
        }
    }
}

/// The form of a scalar with these entries, where it has one.
pub fn scalar_form(
    alloc: Global,
    scene: &Scene,
    entries: &[Entry],
    name: &Name,
) -> Result<Option<Form>, Memory>
    ensures { IfOk result (λ o. option_map form_tree o ≡ if_narrow (known_with scene.now.side entries.now (known_first scene.now) name.now)) }
{
    match find_origin(entries, name) {
        Some(origin) => origin_form(alloc, scene.side, name, origin),
        None => first_form(alloc, scene, name),
    }
}
