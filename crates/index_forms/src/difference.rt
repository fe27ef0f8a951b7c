ghost use Rattle.std.specs.Prelude.{◌≡◌, OnOk, IfOk, option_map};
ghost use Rattle.index_forms.specs.Seen.{form_tree};
ghost use Rattle.index_forms.specs.Sums.{lies_in, if_fitting, plus_scaled, difference};
ghost use Rattle.index_forms.specs.Formed.{zero_form};
ghost use Rattle.index_forms.specs.Parts.{if_lying, if_all_lying, both_parts, sum_seen};

use crate::form::{Atom, Form};
use crate::row::Row;
use crate::sum::{add_terms, exact_sum, product, widened};
use fl_base::{Items, Memory};
use std::alloc::Global;

/// Where the numbers of a form have to lie: in -2^31 .. 2^31-1, or in -2^62 .. 2^62.
#[derive(Clone, Copy)]
pub enum Extent {
    Narrow,
    Wide,
}

fn lies_in(extent: Extent, number: i128) -> bool
    ensures { result ≡ lies_in extent number }
{
    match extent {
        Extent::Narrow => -0x8000_0000 <= number && number <= 0x7fff_ffff,
        Extent::Wide => -0x4000_0000_0000_0000 <= number && number <= 0x4000_0000_0000_0000,
    }
}

/// The number, where it lies in the bounds.
fn narrowed(extent: Extent, number: i128) -> Option<i64>
    ensures { result ≡ if_lying extent number }
{
    if lies_in(extent, number) {
        Some(number as i64)
    } else {
        None
    }
}

/// The terms, where all their coefficients lie in the bounds.
fn narrowed_terms(
    alloc: Global,
    extent: Extent,
    terms: &[(Atom, i128)],
) -> Result<Option<Items<(Atom, i64)>>, Memory>
    ensures { IfOk result (λ o. o ≡ if_all_lying extent terms.now) }
{
    let mut all = Items::new(alloc);
    for i in 0..terms.len() {
        let (atom, k) = &terms[i];
        match narrowed(extent, *k) {
            Some(number) => all.push((atom.clone(alloc)?, number))?,
            None => {
                return Ok(None);
            }
        }
    }
    Ok(Some(all))
}

fn form_of_parts(constant: Option<i64>, terms: Option<Items<(Atom, i64)>>) -> Option<Form>
    ensures { result ≡ both_parts constant terms }
{
    match constant {
        None => None,
        Some(constant) => match terms {
            None => None,
            Some(terms) => Some(Form { constant, terms }),
        },
    }
}

/// A sum of multiples of forms, whose numbers may be larger than those of a form.
#[derive(Drop)]
pub struct FormSum {
    constant: i128,
    terms: Row<(Atom, i128)>,
}

impl FormSum {
    /// The empty sum, which takes no memory.
    pub fn new(alloc: Global) -> FormSum
        ensures { sum_seen result ≡ zero_form }
    {
        FormSum {
            constant: 0,
            terms: Row::new(alloc),
        }
    }

    fn of(alloc: Global, form: &Form) -> Result<FormSum, Memory>
        ensures { IfOk result (λ s. sum_seen s ≡ form_tree form.now) }
    {
        Ok(FormSum {
            constant: form.constant as i128,
            terms: widened(alloc, form.terms.as_slice())?,
        })
    }

    /// Adds `m` times the form. A number beyond 127 bits counts as want of memory.
    pub fn add(&mut self, alloc: Global, m: i64, form: &Form) -> Result<(), Memory>
        ensures { OnOk result (sum_seen self.new ≡ plus_scaled m (form_tree form.now) (sum_seen self.old)) }
    {
        self.constant = exact_sum(product(m, form.constant), self.constant)?;
        add_terms(alloc, m, form.terms.as_slice(), &mut self.terms)?;
        Ok(())
    }

    /// The form, where its numbers lie in the bounds.
    pub fn narrowed(&self, alloc: Global, extent: Extent) -> Result<Option<Form>, Memory>
        ensures { IfOk result (λ o. option_map form_tree o ≡ if_fitting extent (sum_seen self.now)) }
    {
        let terms = narrowed_terms(alloc, extent, self.terms.as_slice())?;
        Ok(form_of_parts(narrowed(extent, self.constant), terms))
    }
}

/// `m` times the form `added`, and the form `to`, where all numbers of the sum lie in the bounds.
pub fn plus_scaled(
    alloc: Global,
    m: i64,
    added: &Form,
    to: &Form,
    extent: Extent,
) -> Result<Option<Form>, Memory>
    ensures { IfOk result (λ o. option_map form_tree o ≡ if_fitting extent (plus_scaled m (form_tree added.now) (form_tree to.now))) }
{
    let mut sum = FormSum::of(alloc, to)?;
    sum.add(alloc, m, added)?;
    sum.narrowed(alloc, extent)
}

/// The left form without the right one; None exactly where a number of the difference leaves -2^62 .. 2^62.
pub fn subtract(alloc: Global, left: &Form, right: &Form) -> Result<Option<Form>, Memory>
    ensures { IfOk result (λ o. option_map form_tree o ≡ difference (form_tree left.now) (form_tree right.now)) }
{
    plus_scaled(alloc, -1, right, left, Extent::Wide)
}
