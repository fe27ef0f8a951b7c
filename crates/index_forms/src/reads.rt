//! The forms of accesses that are evaluated together.

ghost use Rattle.std.specs.Prelude.{◌≡◌, ◌∷◌, ◌++◌, [], suc, length, OnOk, IfOk};
ghost use Rattle.fl_ast.specs.Tree.{expr_tree, expr_trees, place_tree, cond_tree};
ghost use Rattle.fl_types.specs.declared.access.AccessKind.TheVariants.{Read};
ghost use Rattle.fl_types.specs.Accesses.{access, reads, reads_all, condition_reads};
ghost use Rattle.index_forms.specs.Formed.{subscript_forms};
ghost use Rattle.index_forms.specs.Walk.{with_group};
ghost use Rattle.index_forms.specs.Scenes.{setting_there, known_there, viewed_with};
ghost use Rattle.index_forms.specs.Listed.{all_forms_seen};

use crate::form::Form;
use crate::nodes::forms_of_subscripts;
use crate::origin::Entry;
use crate::scene::{Scene, has_name};
use fl_ast::{Cond, Expr, Place};
use fl_base::{Items, Memory};
use std::alloc::Global;

/// The number of the next access. That there are more accesses than 32 bits count is a want of memory.
fn next_number(all: &[Items<Form>]) -> Result<u32, Memory>
    ensures { IfOk result (λ n. n ≡ suc (length all.now)) }
{
    match u32::try_from(all.len()) {
        Ok(count) => match count.checked_add(1) {
            Some(number) => Ok(number),
            None => Err(Memory),
        },
        Err(_) => Err(Memory),
    }
}

/// Adds the forms of an occurrence, where it is an access.
#[tactic(auto, using(crate::proofs::Groups::access_made, crate::proofs::Groups::access_none))]
pub fn push_access(
    alloc: Global,
    scene: &Scene,
    entries: &[Entry],
    place: &Place,
    all: &mut Items<Items<Form>>,
) -> Result<(), Memory>
    ensures { OnOk result (all_forms_seen all.new
        ≡ with_group (setting_there scene.now) (known_there scene.now entries.now) (access (setting_there scene.now).scope 0 [] Read (place_tree place.now)) (all_forms_seen all.old)) }
{
    if has_name(&place.name, scene.unshared.as_slice()) {
        return Ok(());
    }
    let number = next_number(all.as_slice())?;
    let forms = forms_of_subscripts(alloc, scene, entries, number, place.subscripts.as_slice())?;
    all.push(forms)
}

/// Adds the forms of an expression's accesses.
#[cycle(push_reads)]
#[tactic(auto, using(crate::proofs::Groups::two_groups))]
pub fn push_reads(
    alloc: Global,
    scene: &Scene,
    entries: &[Entry],
    expr: &Expr,
    all: &mut Items<Items<Form>>,
) -> Result<(), Memory>
    ensures { OnOk result (all_forms_seen all.new
        ≡ with_group (setting_there scene.now) (known_there scene.now entries.now) (reads (setting_there scene.now).scope 0 [] (expr_tree expr.now)) (all_forms_seen all.old)) }
{
    match expr {
        Expr::Lit { .. } => Ok(()),
        Expr::Get(place) => push_place_reads(alloc, scene, entries, place, all),
        Expr::Neg(inner) => push_reads(alloc, scene, entries, inner.get(), all),
        Expr::Bin { left, right, .. } => {
            push_reads(alloc, scene, entries, left.get(), all)?;
            push_reads(alloc, scene, entries, right.get(), all)?;
            Ok(())
        }
        Expr::Pow { base, .. } => push_reads(alloc, scene, entries, base.get(), all),
        Expr::Call { args, .. } => push_all_reads(alloc, scene, entries, args.as_slice(), all),
    }
}

#[cycle(push_reads)]
fn push_place_reads(
    alloc: Global,
    scene: &Scene,
    entries: &[Entry],
    place: &Place,
    all: &mut Items<Items<Form>>,
) -> Result<(), Memory>
    ensures { OnOk result (all_forms_seen all.new
        ≡ with_group (setting_there scene.now) (known_there scene.now entries.now)
        (reads_all (setting_there scene.now).scope 0 [] (place_tree place.now).subscripts ++ access (setting_there scene.now).scope 0 [] Read (place_tree place.now))
        (all_forms_seen all.old)) }
{
    push_all_reads(alloc, scene, entries, place.subscripts.as_slice(), all)?;
    push_access(alloc, scene, entries, place, all)?;
    Ok(())
}

#[cycle(push_reads)]
pub fn push_all_reads(
    alloc: Global,
    scene: &Scene,
    entries: &[Entry],
    exprs: &[Expr],
    all: &mut Items<Items<Form>>,
) -> Result<(), Memory>
    ensures { OnOk result (all_forms_seen all.new
        ≡ with_group (setting_there scene.now) (known_there scene.now entries.now) (reads_all (setting_there scene.now).scope 0 [] (expr_trees exprs.now)) (all_forms_seen all.old)) }
{
    for i in 0..exprs.len() {
        push_reads(alloc, scene, entries, &exprs[i], all)?;
    }
    Ok(())
}

/// Adds the forms of a condition's accesses.
#[cycle(push_condition_reads)]
#[tactic(auto, using(crate::proofs::Groups::two_groups))]
pub fn push_condition_reads(
    alloc: Global,
    scene: &Scene,
    entries: &[Entry],
    test: &Cond,
    all: &mut Items<Items<Form>>,
) -> Result<(), Memory>
    ensures { OnOk result (all_forms_seen all.new
        ≡ with_group (setting_there scene.now) (known_there scene.now entries.now) (condition_reads (setting_there scene.now).scope 0 [] (cond_tree test.now)) (all_forms_seen all.old)) }
{
    match test {
        Cond::Rel { left, right, .. } => {
            push_reads(alloc, scene, entries, left, all)?;
            push_reads(alloc, scene, entries, right, all)?;
            Ok(())
        }
        Cond::Not(inner) => push_condition_reads(alloc, scene, entries, inner.get(), all),
        Cond::And(left, right) => {
            push_condition_reads(alloc, scene, entries, left.get(), all)?;
            push_condition_reads(alloc, scene, entries, right.get(), all)?;
            Ok(())
        }
        Cond::Or(left, right) => {
            push_condition_reads(alloc, scene, entries, left.get(), all)?;
            push_condition_reads(alloc, scene, entries, right.get(), all)?;
            Ok(())
        }
    }
}
