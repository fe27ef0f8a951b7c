//! The forms of an assignment's accesses.

ghost use Rattle.std.specs.Prelude.{◌≡◌, [], OnOk};
ghost use Rattle.fl_ast.specs.Tree.{expr_tree, expr_trees, place_tree, step_tree};
ghost use Rattle.fl_ast.specs.Same.{same_expression};
ghost use Rattle.fl_types.specs.Increment.{target_of, chain, first_of_sum, increment_terms};
ghost use Rattle.fl_types.specs.Accesses.{assignment_accesses, step_reads};
ghost use Rattle.index_forms.specs.Walk.{with_group, bounds_reads};
ghost use Rattle.index_forms.specs.Scenes.{setting_there, known_there};
ghost use Rattle.index_forms.specs.Listed.{all_forms_seen};
ghost use Rattle.index_forms.specs.Increments.{value_reads, WithTerms, adds_terms as adds_terms_lem};

use crate::form::Form;
use crate::origin::Entry;
use crate::reads::{push_access, push_all_reads, push_reads};
use crate::scene::{Scene, has_name};
use fl_ast::{BinOp, Expr, Place};
use fl_base::{Items, Memory};
use fl_types::{IncrementForm, increment_form};
use std::alloc::Global;

fn is_target(target: &Place, value: &Expr) -> bool
    ensures { result ≡ same_expression (target_of (place_tree target.now)) (expr_tree value.now) }
{
    match value {
        Expr::Get(place) => target.same(place),
        _ => false,
    }
}

fn adds_terms(op: BinOp) -> bool
    ensures { result ≡ adds_terms_lem op }
{
    match op {
        BinOp::Add | BinOp::Sub => true,
        BinOp::Mul | BinOp::Div => false,
    }
}

/// Adds the forms of a chain's further terms.
fn push_chain_reads(
    alloc: Global,
    scene: &Scene,
    entries: &[Entry],
    target: &Place,
    value: &Expr,
    all: &mut Items<Items<Form>>,
) -> Result<(), Memory>
    ensures { OnOk result (WithTerms (setting_there scene.now) (known_there scene.now entries.now) (chain (target_of (place_tree target.now)) (expr_tree value.now)) (all_forms_seen all.old) (all_forms_seen all.new)) }
{
    match value {
        Expr::Bin { op, left, right } => {
            if !adds_terms(*op) {
                return Ok(());
            }
            if is_target(target, left.get()) {
                push_reads(alloc, scene, entries, right.get(), all)?;
                return Ok(());
            }
            push_chain_reads(alloc, scene, entries, target, left.get(), all)?;
            push_reads(alloc, scene, entries, right.get(), all)?;
            Ok(())
        }
        _ => Ok(()),
    }
}

/// Adds the forms of a sum's first term.
fn push_sum_reads(
    alloc: Global,
    scene: &Scene,
    entries: &[Entry],
    target: &Place,
    value: &Expr,
    all: &mut Items<Items<Form>>,
) -> Result<(), Memory>
    ensures { OnOk result (WithTerms (setting_there scene.now) (known_there scene.now entries.now) (first_of_sum (target_of (place_tree target.now)) (expr_tree value.now)) (all_forms_seen all.old) (all_forms_seen all.new)) }
{
    match value {
        Expr::Bin {
            op: BinOp::Add,
            left,
            ..
        } => {
            push_reads(alloc, scene, entries, left.get(), all)?;
            Ok(())
        }
        _ => Ok(()),
    }
}

/// Adds the forms of a value, or of an increment's terms.
#[tactic(auto, using(crate::proofs::Terms::chain_value, crate::proofs::Terms::sum_value, crate::proofs::Terms::plain_value, crate::proofs::Terms::other_value))]
fn push_value_reads(
    alloc: Global,
    scene: &Scene,
    entries: &[Entry],
    target: &Place,
    value: &Expr,
    all: &mut Items<Items<Form>>,
) -> Result<(), Memory>
    ensures { OnOk result (all_forms_seen all.new ≡ with_group (setting_there scene.now) (known_there scene.now entries.now)
        (value_reads (setting_there scene.now).scope (expr_tree value.now) (increment_terms (setting_there scene.now).scope.ring (place_tree target.now) (expr_tree value.now)))
        (all_forms_seen all.old)) }
{
    if !has_name(&target.name, scene.ring.as_slice()) {
        push_reads(alloc, scene, entries, value, all)?;
        return Ok(());
    }
    match increment_form(target, value) {
        Some(IncrementForm::Chain) => {
            push_chain_reads(alloc, scene, entries, target, value, all)?;
            Ok(())
        }
        Some(IncrementForm::Sum) => {
            push_sum_reads(alloc, scene, entries, target, value, all)?;
            Ok(())
        }
        None => {
            push_reads(alloc, scene, entries, value, all)?;
            Ok(())
        }
    }
}

/// Adds the forms of an assignment's accesses.
#[tactic(auto, using(crate::proofs::Terms::assignment_made))]
pub fn push_assignment_reads(
    alloc: Global,
    scene: &Scene,
    entries: &[Entry],
    atomic: bool,
    target: &Place,
    value: &Expr,
    all: &mut Items<Items<Form>>,
) -> Result<(), Memory>
    ensures { OnOk result (all_forms_seen all.new ≡ with_group (setting_there scene.now) (known_there scene.now entries.now)
        (assignment_accesses (setting_there scene.now).scope 0 [] atomic (place_tree target.now) (expr_tree value.now) (increment_terms (setting_there scene.now).scope.ring (place_tree target.now) (expr_tree value.now)))
        (all_forms_seen all.old)) }
{
    push_value_reads(alloc, scene, entries, target, value, all)?;
    push_all_reads(alloc, scene, entries, target.subscripts.as_slice(), all)?;
    push_access(alloc, scene, entries, target, all)?;
    Ok(())
}

fn push_step_reads(
    alloc: Global,
    scene: &Scene,
    entries: &[Entry],
    step: &Option<Expr>,
    all: &mut Items<Items<Form>>,
) -> Result<(), Memory>
    ensures { OnOk result (all_forms_seen all.new ≡ with_group (setting_there scene.now) (known_there scene.now entries.now) (step_reads (setting_there scene.now).scope 0 [] (step_tree step.now)) (all_forms_seen all.old)) }
{
    match step {
        Some(step) => {
            push_reads(alloc, scene, entries, step, all)?;
            Ok(())
        }
        None => Ok(()),
    }
}

/// Adds the forms of the accesses in a loop's bounds and step.
#[tactic(auto, using(crate::proofs::Terms::three_groups))]
pub fn push_bounds_reads(
    alloc: Global,
    scene: &Scene,
    entries: &[Entry],
    first: &Expr,
    last: &Expr,
    step: &Option<Expr>,
    all: &mut Items<Items<Form>>,
) -> Result<(), Memory>
    ensures { OnOk result (all_forms_seen all.new ≡ with_group (setting_there scene.now) (known_there scene.now entries.now) (bounds_reads (setting_there scene.now).scope (expr_tree first.now) (expr_tree last.now) (step_tree step.now)) (all_forms_seen all.old)) }
{
    push_reads(alloc, scene, entries, first, all)?;
    push_reads(alloc, scene, entries, last, all)?;
    push_step_reads(alloc, scene, entries, step, all)?;
    Ok(())
}
