//! Differences of elements of index arrays.

ghost use Rattle.std.specs.Prelude.{◌≡◌, pos, map, length, option_map, IfOk};
ghost use Rattle.index_forms.specs.Seen.{atom_tree, form_tree, term_tree, terms_of};
ghost use Rattle.index_forms.specs.Listed.{forms_seen, all_forms_seen};
ghost use Rattle.index_forms.specs.Form.{forms_order as forms_order_lem};
ghost use Rattle.index_forms.specs.Scenes.{is_fixed_there};
ghost use Rattle.certificate_rules.specs.Tests.{is_equal as is_equal_lem};
ghost use Rattle.certificate_rules.specs.Plain.{by_signs, first_element as first_element_lem, elements_of as elements_of_lem, is_element_of as is_element_of_lem, least_read as least_read_lem};
ghost use Rattle.acceptance.specs.Told.{element_told};
ghost use Rattle.disjoint_prover.specs.Aparts.{apart_told, apart_by, read_by};

use crate::least::number_at;
use acceptance::{Element, element_at, is_same, reads_apart};
use fl_base::{Items, Memory, Name};
use fl_types::Access;
use index_forms::{Atom, Form, Scene, forms_order};
use std::alloc::Global;
use std::cmp::Ordering;

/// An element without another one, by their array and their subscripts' forms.
#[derive(Clone, Copy)]
pub struct Apart<'a> {
    pub name: &'a Name,
    pub ones: &'a [Form],
    pub twos: &'a [Form],
}

fn by_sign<'a>(name: &'a Name, s: &'a [Form], t: &'a [Form], k: i64) -> Option<Apart<'a>>
    ensures { option_map apart_told result ≡ by_signs name.now (forms_seen s.now) (forms_seen t.now) k (pos 0) }
{
    if k == 0 {
        return None;
    }
    if k < 0 {
        return Some(Apart {
            name,
            ones: t,
            twos: s,
        });
    }
    Some(Apart {
        name,
        ones: s,
        twos: t,
    })
}

fn apart_of<'a>(x: &'a Atom, k: i64, y: &'a Atom) -> Option<Apart<'a>>
    ensures { option_map apart_told result ≡ apart_by (atom_tree x.now) k (atom_tree y.now) }
{
    match x {
        Atom::Read(name, s) => match y {
            Atom::Read(_, t) => by_sign(name, s.as_slice(), t.as_slice(), k),
            _ => None,
        },
        _ => None,
    }
}

#[tactic(auto, using(crate::proofs::LeastReads::first_short))]
fn first_element(terms: &[(Atom, i64)]) -> Option<Apart<'_>>
    ensures { option_map apart_told result ≡ first_element_lem (terms_of (map term_tree terms.now)) }
{
    match terms {
        [first, second, ..] => {
            let (x, k) = first;
            let (y, _) = second;
            apart_of(x, *k, y)
        }
        _ => None,
    }
}

/// The two elements whose difference the form is. Its constant is then 0, which is tested before that difference is made.
#[tactic(auto, using(crate::proofs::Tested::not_apart))]
pub fn elements_of(alloc: Global, form: &Form) -> Result<Option<Apart<'_>>, Memory>
    ensures { IfOk result (λ o. option_map apart_told o ≡ elements_of_lem (form_tree form.now)) }
{
    if form.constant != 0 {
        return Ok(None);
    }
    match first_element(form.terms.as_slice()) {
        Some(apart) => {
            let difference = reads_apart(alloc, apart.name, apart.ones, apart.twos)?;
            if is_same(form, &difference) {
                Ok(Some(apart))
            } else {
                Ok(None)
            }
        }
        None => Ok(None),
    }
}

fn are_same(forms: &[Form], others: &[Form]) -> bool
    ensures { result ≡ is_equal_lem (forms_order_lem (forms_seen forms.now) (forms_seen others.now)) }
{
    match forms_order(forms, others) {
        Ordering::Equal => true,
        Ordering::Less | Ordering::Greater => false,
    }
}

fn is_element_of(element: Option<Element<'_>>, name: &Name, forms: &[Form]) -> bool
    ensures { result ≡ is_element_of_lem name.now (forms_seen forms.now) (option_map element_told element.entry) }
{
    match element {
        Some(element) => {
            if !element.name.is(name) {
                return false;
            }
            are_same(element.forms, forms)
        }
        None => false,
    }
}

/// The number of the first access that reads this element; `side` has the forms of the accesses' subscripts.
pub fn least_read(
    scene: &Scene,
    accesses: &[Access],
    side: &[Items<Form>],
    name: &Name,
    forms: &[Form],
) -> Result<Option<u32>, Memory>
    ensures { IfOk result (λ o. o ≡ least_read_lem (read_by (is_fixed_there scene.now) accesses.now (all_forms_seen side.now)) name.now (forms_seen forms.now) 1 (length accesses.now)) }
{
    for i in 0..accesses.len() {
        let number = number_at(i)?;
        if is_element_of(element_at(scene, accesses, side, number), name, forms) {
            return Ok(Some(number));
        }
    }
    Ok(None)
}
