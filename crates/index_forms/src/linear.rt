//! Linear nodes: sums, differences, and products with a constant form.

ghost use Rattle.std.specs.Prelude.{◌≡◌, IfOk, option_map};
ghost use Rattle.index_forms.specs.declared.difference.Extent.TheVariants as extent;
ghost use Rattle.index_forms.specs.Form.{form as form_lem, no_terms};
ghost use Rattle.fl_ast.specs.declared.kind.BinOp.TheVariants.{Mul};
ghost use Rattle.index_forms.specs.Seen.{atom_tree, form_tree};
ghost use Rattle.index_forms.specs.Sums.{if_fitting, plus_scaled as plus_scaled_lem};
ghost use Rattle.index_forms.specs.Formed.{if_narrow, negative, linear, atom_form};
ghost use Rattle.index_forms.specs.Linear.{scaled_by, has_terms as has_terms_lem};
ghost use Rattle.index_forms.specs.Loops.{base_form, variable_by};

use crate::difference::{Extent, plus_scaled};
use crate::form::{Atom, Form};
use fl_ast::BinOp;
use fl_base::{Boxed, Items, Memory};
use std::alloc::Global;

/// An atom once.
pub fn form_of_atom(alloc: Global, atom: Boxed<Atom>) -> Result<Form, Memory>
    ensures { IfOk result (λ f. form_tree f ≡ atom_form (atom_tree atom)) }
{
    let mut terms = Items::new(alloc);
    terms.push((atom.into_inner(), 1))?;
    Ok(Form { constant: 0, terms })
}

/// A form without terms.
pub fn constant_form(alloc: Global, constant: i64) -> Form
    ensures { form_tree result ≡ form_lem constant no_terms }
{
    Form {
        constant,
        terms: Items::new(alloc),
    }
}

/// The form with its signs turned, where its numbers are small enough.
pub fn negated(alloc: Global, form: &Form) -> Result<Option<Form>, Memory>
    ensures { IfOk result (λ o. option_map form_tree o ≡ if_fitting extent.Narrow (negative (form_tree form.now))) }
{
    let zero = constant_form(alloc, 0);
    plus_scaled(alloc, -1, form, &zero, Extent::Narrow)
}

fn scaled(alloc: Global, by: &Form, form: &Form) -> Result<Option<Form>, Memory>
    ensures { IfOk result (λ o. option_map form_tree o ≡ if_fitting extent.Narrow (scaled_by (form_tree by.now) (form_tree form.now))) }
{
    let zero = constant_form(alloc, 0);
    plus_scaled(alloc, by.constant, form, &zero, Extent::Narrow)
}

#[tactic(auto, using(crate::proofs::Linears::terms_none, crate::proofs::Linears::terms_some))]
fn has_terms(form: &Form) -> bool
    ensures { result ≡ has_terms_lem (form_tree form.now) }
{
    match form.terms.as_slice() {
        [] => false,
        [_, ..] => true,
    }
}

/// A product with a constant form.
#[tactic(auto, using(crate::proofs::Linears::product_left, crate::proofs::Linears::product_right, crate::proofs::Linears::product_none))]
fn product(alloc: Global, left: &Form, right: &Form) -> Result<Option<Form>, Memory>
    ensures { IfOk result (λ o. option_map form_tree o ≡ if_narrow (linear Mul (form_tree left.now) (form_tree right.now))) }
{
    if !has_terms(left) {
        scaled(alloc, left, right)
    } else if !has_terms(right) {
        scaled(alloc, right, left)
    } else {
        Ok(None)
    }
}

/// The form of an operation on two forms, where it has one.
pub fn combined(alloc: Global, op: BinOp, left: &Form, right: &Form) -> Result<Option<Form>, Memory>
    ensures { IfOk result (λ o. option_map form_tree o ≡ if_narrow (linear op (form_tree left.now) (form_tree right.now))) }
{
    match op {
        BinOp::Add => plus_scaled(alloc, 1, left, right, Extent::Narrow),
        BinOp::Sub => plus_scaled(alloc, -1, right, left, Extent::Narrow),
        BinOp::Mul => product(alloc, left, right),
        BinOp::Div => Ok(None),
    }
}

/// What a variable counts from.
fn base(alloc: Global, atom: Boxed<Atom>, first: Option<i64>) -> Result<Form, Memory>
    ensures { IfOk result (λ f. form_tree f ≡ base_form (atom_tree atom) first) }
{
    match first {
        Some(first) => Ok(constant_form(alloc, first)),
        None => form_of_atom(alloc, atom),
    }
}

fn counted(alloc: Global, step: i64, counter: &Form, base: &Form) -> Result<Option<Form>, Memory>
    ensures { IfOk result (λ o. option_map form_tree o ≡ if_fitting extent.Narrow (plus_scaled_lem step (form_tree counter.now) (form_tree base.now))) }
{
    plus_scaled(alloc, step, counter, base, Extent::Narrow)
}

/// The form of a loop's variable, by its first value and its step.
pub fn variable(
    alloc: Global,
    from: Boxed<Atom>,
    counter: Boxed<Atom>,
    first: Option<i64>,
    step: Option<i64>,
) -> Result<Option<Form>, Memory>
    ensures { IfOk result (λ o. option_map form_tree o ≡ if_fitting extent.Narrow (variable_by (atom_tree from) (atom_tree counter) first step)) }
{
    let counter = form_of_atom(alloc, counter)?;
    match step {
        Some(step) => {
            let base = base(alloc, from, first)?;
            counted(alloc, step, &counter, &base)
        }
        None => Ok(Some(counter)),
    }
}
