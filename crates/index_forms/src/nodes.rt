//! Forms of index expressions.

ghost use Rattle.std.specs.Prelude.{◌≡◌, map, IfOk, option_map, pos, suc, Some};
ghost use Rattle.fl_ast.specs.Tree.{expr_tree, expr_trees, place_tree};
ghost use Rattle.index_forms.specs.Form.{form as form_lem, no_terms, read, opaque as opaque_lem};
ghost use Rattle.index_forms.specs.Seen.{form_tree, forms_of};
ghost use Rattle.index_forms.specs.Formed.{atom_form, if_narrow, formed, formed_all, formed_at, element_at, subscript_forms};
ghost use Rattle.index_forms.specs.Scenes.{viewed_with};
ghost use Rattle.index_forms.specs.Finding.{IsFormed, AreFormed, node_by};

use crate::form::{Atom, Form, Side};
use crate::linear::{combined, constant_form, form_of_atom, negated};
use crate::origin::Entry;
use crate::scalar::scalar_form;
use crate::scene::Scene;
use fl_ast::{Expr, Place};
use fl_base::{Boxed, Items, Memory, Name};
use std::alloc::Global;

/// A form, with the number of opaque nodes so far.
#[derive(Drop)]
pub struct FormedNode {
    pub form: Form,
    pub next: u32,
}

/// Forms, with the number of opaque nodes so far.
#[derive(Drop)]
pub struct FormedNodes {
    pub forms: Items<Form>,
    pub next: u32,
}

/// The next number. That there are more opaque nodes than 32 bits count is a want of memory.
pub fn after(n: u32) -> Result<u32, Memory>
    ensures { IfOk result (λ m. m ≡ suc n) }
{
    match n.checked_add(1) {
        Some(m) => Ok(m),
        None => Err(Memory),
    }
}

/// A node without a form.
fn opaque(alloc: Global, side: Side, access: u32, n: u32) -> Result<FormedNode, Memory>
    ensures { IfOk result (λ r. (form_tree r.form ≡ atom_form (opaque_lem side access (suc n))) × (r.next ≡ suc n)) }
{
    let next = after(n)?;
    let atom = Boxed::new(alloc, Atom::Opaque(side, access, next))?;
    let form = form_of_atom(alloc, atom)?;
    Ok(FormedNode { form, next })
}

/// A node with its form where it has one, else an opaque one.
fn node(
    alloc: Global,
    side: Side,
    access: u32,
    n: u32,
    form: Option<Form>,
) -> Result<FormedNode, Memory>
    ensures { IfOk result (λ r. IsFormed (node_by side access n (option_map form_tree form)) r) }
{
    match form {
        Some(form) => Ok(FormedNode { form, next: n }),
        None => opaque(alloc, side, access, n),
    }
}

fn literal_form(alloc: Global, value: u64) -> Option<Form>
    ensures { option_map form_tree result ≡ if_narrow (Some (form_lem (pos value) no_terms)) }
{
    if value <= 0x7fff_ffff {
        Some(constant_form(alloc, value as i64))
    } else {
        None
    }
}

/// An element of an array that the loop doesn't assign.
fn element(alloc: Global, name: &Name, nodes: FormedNodes) -> Result<FormedNode, Memory>
    ensures { IfOk result (λ r. (form_tree r.form ≡ atom_form (read name.now (forms_of (map form_tree nodes.forms)))) × (r.next ≡ nodes.next)) }
{
    let FormedNodes { forms, next } = nodes;
    let name = name.clone(alloc)?;
    let atom = Boxed::new(alloc, Atom::Read(name, forms))?;
    let form = form_of_atom(alloc, atom)?;
    Ok(FormedNode { form, next })
}

/// The form of an expression in an access, `n` counting the opaque nodes before it.
#[cycle(form_of_expr)]
#[tactic(auto, using(crate::proofs::NodeForms::literal_formed, crate::proofs::NodeForms::negative_formed, crate::proofs::NodeForms::binary_formed, crate::proofs::NodeForms::scalar_formed, crate::proofs::NodeForms::loose_formed, crate::proofs::NodeForms::element_formed))]
fn form_of_expr(
    alloc: Global,
    scene: &Scene,
    entries: &[Entry],
    access: u32,
    n: u32,
    expr: &Expr,
) -> Result<FormedNode, Memory>
    ensures { IfOk result (λ r. IsFormed (formed (viewed_with scene.now entries.now access) n (expr_tree expr.now)) r) }
{
    match expr {
        Expr::Lit { value, .. } => {
            let form = literal_form(alloc, *value);
            node(alloc, scene.side, access, n, form)
        }
        Expr::Get(place) => form_of_place(alloc, scene, entries, access, n, place),
        Expr::Neg(inner) => {
            let inner = form_of_expr(alloc, scene, entries, access, n, inner.get())?;
            let form = negated(alloc, &inner.form)?;
            node(alloc, scene.side, access, inner.next, form)
        }
        Expr::Bin { op, left, right } => {
            let left = form_of_expr(alloc, scene, entries, access, n, left.get())?;
            let right = form_of_expr(alloc, scene, entries, access, left.next, right.get())?;
            let form = combined(alloc, *op, &left.form, &right.form)?;
            node(alloc, scene.side, access, right.next, form)
        }
        Expr::Pow { .. } => opaque(alloc, scene.side, access, n),
        Expr::Call { .. } => opaque(alloc, scene.side, access, n),
    }
}

/// The form of a scalar or an element.
#[cycle(form_of_expr)]
fn form_of_place(
    alloc: Global,
    scene: &Scene,
    entries: &[Entry],
    access: u32,
    n: u32,
    place: &Place,
) -> Result<FormedNode, Memory>
    ensures { IfOk result (λ r. IsFormed (formed_at (viewed_with scene.now entries.now access) n (place_tree place.now)) r) }
{
    match place.subscripts.as_slice() {
        [] => {
            let form = scalar_form(alloc, scene, entries, &place.name)?;
            node(alloc, scene.side, access, n, form)
        }
        [_, ..] => form_of_element(
            alloc,
            scene,
            entries,
            access,
            n,
            &place.name,
            place.subscripts.as_slice(),
        ),
    }
}

/// The form of an element.
#[cycle(form_of_expr)]
fn form_of_element(
    alloc: Global,
    scene: &Scene,
    entries: &[Entry],
    access: u32,
    n: u32,
    name: &Name,
    subscripts: &[Expr],
) -> Result<FormedNode, Memory>
    ensures { IfOk result (λ r. IsFormed (element_at (viewed_with scene.now entries.now access) n name.now (expr_trees subscripts.now)) r) }
{
    if !scene.is_fixed(name) {
        return opaque(alloc, scene.side, access, n);
    }
    let nodes = forms_of_exprs(alloc, scene, entries, access, n, subscripts)?;
    element(alloc, name, nodes)
}

#[cycle(form_of_expr)]
fn forms_of_exprs(
    alloc: Global,
    scene: &Scene,
    entries: &[Entry],
    access: u32,
    n: u32,
    exprs: &[Expr],
) -> Result<FormedNodes, Memory>
    ensures { IfOk result (λ r. AreFormed (formed_all (viewed_with scene.now entries.now access) n (expr_trees exprs.now)) r) }
{
    let mut forms = Items::new(alloc);
    let mut next = n;
    for i in 0..exprs.len() {
        let found = form_of_expr(alloc, scene, entries, access, next, &exprs[i])?;
        let FormedNode { form, next: after } = found;
        forms.push(form)?;
        next = after;
    }
    Ok(FormedNodes { forms, next })
}

/// The forms of an access's subscripts.
pub fn forms_of_subscripts(
    alloc: Global,
    scene: &Scene,
    entries: &[Entry],
    access: u32,
    exprs: &[Expr],
) -> Result<Items<Form>, Memory>
    ensures { IfOk result (λ fs. forms_of (map form_tree fs) ≡ subscript_forms (viewed_with scene.now entries.now access) (expr_trees exprs.now)) }
{
    let FormedNodes { forms, .. } = forms_of_exprs(alloc, scene, entries, access, 0, exprs)?;
    Ok(forms)
}
