//! Elements of index arrays that a loop doesn't assign.

ghost use Rattle.std.specs.Prelude.{◌≡◌, option_map, IfOk};
ghost use Rattle.index_forms.specs.Form.{read};
ghost use Rattle.index_forms.specs.Formed.{atom_form};
ghost use Rattle.index_forms.specs.Seen.{form_tree};
ghost use Rattle.index_forms.specs.Listed.{forms_seen, all_forms_seen};
ghost use Rattle.index_forms.specs.Scenes.{is_fixed_there};
ghost use Rattle.index_knowledge.specs.Knowledge.{is_read as is_read_lem};
ghost use Rattle.certificate_rules.specs.Surveys.{numbered as numbered_lem};
ghost use Rattle.certificate_rules.specs.Accepted.{reads_apart as reads_apart_lem};
ghost use Rattle.certificate_rules.specs.Tests.{is_element as is_element_lem, element_of, cong_form};
ghost use Rattle.acceptance.specs.Told.{forms_in, element_told};

use crate::knowledge::numbered;
use crate::line_form::{LineForm, are_lines};
use fl_base::{Boxed, Items, Memory, Name};
use fl_types::{Access, AccessKind};
use index_forms::{Atom, Form, Scene, form_of_atom};
use index_knowledge::{difference, differences};
use std::alloc::Global;

/// An element, by its array and the forms of its subscripts.
#[derive(Clone, Copy)]
pub struct Element<'a> {
    pub name: &'a Name,
    pub forms: &'a [Form],
}

fn is_read(kind: AccessKind) -> bool
    ensures { result ≡ is_read_lem kind }
{
    match kind {
        AccessKind::Read => true,
        AccessKind::Write | AccessKind::Update => false,
    }
}

#[tactic(auto, using(crate::proofs::ElementForms::element_not_read, crate::proofs::ElementForms::element_not_fixed))]
fn is_element(scene: &Scene, access: &Access, forms: &[Form]) -> bool
    ensures { result ≡ is_element_lem (is_fixed_there scene.now) access.now (forms_seen forms.now) }
{
    if !is_read(access.kind) {
        return false;
    }
    scene.is_fixed(&access.place.name) && !forms.is_empty()
}

/// The element that the access with a number reads, where it is one of an index array that the loop doesn't assign; `side` has the forms of
/// the accesses' subscripts.
#[tactic(auto, using(crate::proofs::ElementForms::element_some, crate::proofs::ElementForms::element_other, crate::proofs::ElementForms::element_no_forms))]
pub fn element_at<'a>(
    scene: &Scene,
    accesses: &'a [Access],
    side: &'a [Items<Form>],
    number: u32,
) -> Option<Element<'a>>
    ensures { option_map element_told result ≡ element_of (is_fixed_there scene.now) (numbered_lem accesses.now number) (numbered_lem (all_forms_seen side.now) number) }
{
    match numbered(accesses, number) {
        Some(access) => match numbered(side, number) {
            Some(forms) => {
                if is_element(scene, access, forms.as_slice()) {
                    Some(Element {
                        name: &access.place.name,
                        forms: forms.as_slice(),
                    })
                } else {
                    None
                }
            }
            None => None,
        },
        None => None,
    }
}

fn copied(alloc: Global, forms: &[Form]) -> Result<Items<Form>, Memory>
    ensures { IfOk result (λ l. l ≡ forms.now) }
{
    let mut all = Items::new(alloc);
    for i in 0..forms.len() {
        all.push(forms[i].clone(alloc)?)?;
    }
    Ok(all)
}

fn element_form(alloc: Global, name: &Name, forms: &[Form]) -> Result<Form, Memory>
    ensures { IfOk result (λ f. form_tree f ≡ atom_form (read name.now (forms_seen forms.now))) }
{
    let forms = copied(alloc, forms)?;
    let name = name.clone(alloc)?;
    let atom = Boxed::new(alloc, Atom::Read(name, forms))?;
    form_of_atom(alloc, atom)
}

/// An element of an array without another one.
pub fn reads_apart(alloc: Global, name: &Name, ones: &[Form], twos: &[Form]) -> Result<Form, Memory>
    ensures { IfOk result (λ f. form_tree f ≡ reads_apart_lem name.now (forms_seen ones.now) (forms_seen twos.now)) }
{
    let one = Boxed::new(alloc, element_form(alloc, name, ones)?)?;
    let two = Boxed::new(alloc, element_form(alloc, name, twos)?)?;
    difference(alloc, one.get(), two.get())
}

fn same_elements_apart(
    alloc: Global,
    above: &[LineForm<'_>],
    lines: &[u32],
    name: &Name,
    ones: &[Form],
    other: &Name,
    twos: &[Form],
) -> Result<Option<Form>, Memory>
    ensures { IfOk result (λ o. option_map form_tree o ≡ cong_form (forms_in above.now) lines.now (Some (name.now, forms_seen ones.now)) (Some (other.now, forms_seen twos.now))) }
{
    if !name.is(other) {
        return Ok(None);
    }
    let differences = differences(alloc, ones, twos)?;
    if !are_lines(above, lines, differences.as_slice()) {
        return Ok(None);
    }
    Ok(Some(reads_apart(alloc, name, ones, twos)?))
}

/// The form of a line on two elements, where they are of one array and the lines above are the differences of their subscripts.
pub fn congruence(
    alloc: Global,
    above: &[LineForm<'_>],
    lines: &[u32],
    first: Option<Element<'_>>,
    second: Option<Element<'_>>,
) -> Result<Option<Form>, Memory>
    ensures { IfOk result (λ o. option_map form_tree o ≡ cong_form (forms_in above.now) lines.now (option_map element_told first.entry) (option_map element_told second.entry)) }
{
    match first {
        Some(one) => match second {
            Some(two) => {
                same_elements_apart(
                    alloc, above, lines, one.name, one.forms, two.name, two.forms,
                )
            }
            None => Ok(None),
        },
        None => Ok(None),
    }
}
