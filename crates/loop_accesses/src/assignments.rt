ghost use Rattle.std.specs.Prelude.{◌≡◌, ◌++◌, map, OnOk};
ghost use Rattle.fl_ast.specs.Tree.{expr_tree, expr_trees, place_tree};
ghost use Rattle.fl_ast.specs.Same.{same_expression};
ghost use Rattle.fl_types.specs.Increment.{target_of, chain, first_of_sum, increment_terms};
ghost use Rattle.fl_types.specs.Accesses.{assignment_accesses, increment_kind as increment_kind_lem};
ghost use Rattle.loop_accesses.specs.Classes.{scope_by};
ghost use Rattle.loop_accesses.specs.Terms.{value_reads, WithTerms, adds_terms as adds_terms_lem, target_kind as target_kind_lem};
ghost use Rattle.loop_accesses.specs.Views.{steps_of, occurrence_of};

use crate::classes::LoopNames;
use crate::path::Path;
use crate::reads::{Found, push_access, push_all_reads, push_reads};
use fl_ast::{BinOp, Expr, Place};
use fl_base::{Items, Memory};
use fl_types::{AccessKind, IncrementForm, increment_form};
use std::alloc::Global;

fn is_target(target: &Place, value: &Expr) -> bool
    ensures { result ≡ same_expression (target_of (place_tree target.now)) (expr_tree value.now) }
{
    match value {
        Expr::Get(place) => target.same(place),
        _ => false,
    }
}

fn adds_terms(op: BinOp) -> bool
    ensures { result ≡ adds_terms_lem op }
{
    match op {
        BinOp::Add | BinOp::Sub => true,
        BinOp::Mul | BinOp::Div => false,
    }
}

/// Adds the reads of a chain's further terms.
fn push_chain_reads<'t>(
    alloc: Global,
    names: &LoopNames<'_, '_>,
    line: u32,
    path: &Path<'_>,
    target: &Place,
    value: &'t Expr,
    found: &mut Items<Found<'t>>,
) -> Result<(), Memory>
    ensures { OnOk result (WithTerms (scope_by names.now) line (steps_of path.now) (chain (target_of (place_tree target.now)) (expr_tree value.now)) (map occurrence_of found.old) (map occurrence_of found.new)) }
{
    match value {
        Expr::Bin { op, left, right } => {
            if !adds_terms(*op) {
                return Ok(());
            }
            if is_target(target, left.get()) {
                push_reads(alloc, names, line, path, right.get(), found)?;
                return Ok(());
            }
            push_chain_reads(alloc, names, line, path, target, left.get(), found)?;
            push_reads(alloc, names, line, path, right.get(), found)?;
            Ok(())
        }
        _ => Ok(()),
    }
}

/// Adds the reads of a sum's first term.
fn push_sum_reads<'t>(
    alloc: Global,
    names: &LoopNames<'_, '_>,
    line: u32,
    path: &Path<'_>,
    target: &Place,
    value: &'t Expr,
    found: &mut Items<Found<'t>>,
) -> Result<(), Memory>
    ensures { OnOk result (WithTerms (scope_by names.now) line (steps_of path.now) (first_of_sum (target_of (place_tree target.now)) (expr_tree value.now)) (map occurrence_of found.old) (map occurrence_of found.new)) }
{
    match value {
        Expr::Bin {
            op: BinOp::Add,
            left,
            ..
        } => {
            push_reads(alloc, names, line, path, left.get(), found)?;
            Ok(())
        }
        _ => Ok(()),
    }
}

/// Adds the reads of a value, or of an increment's terms.
#[tactic(auto, using(crate::proofs::Terms::chain_value, crate::proofs::Terms::sum_value, crate::proofs::Terms::plain_value, crate::proofs::Terms::other_value))]
fn push_value_reads<'t>(
    alloc: Global,
    names: &LoopNames<'_, '_>,
    line: u32,
    path: &Path<'_>,
    target: &Place,
    value: &'t Expr,
    found: &mut Items<Found<'t>>,
) -> Result<(), Memory>
    ensures { OnOk result (map occurrence_of found.new ≡ map occurrence_of found.old
        ++ value_reads (scope_by names.now) line (steps_of path.now) (expr_tree value.now) (increment_terms (scope_by names.now).ring (place_tree target.now) (expr_tree value.now))) }
{
    if !names.is_data(&target.name) {
        push_reads(alloc, names, line, path, value, found)?;
        return Ok(());
    }
    match increment_form(target, value) {
        Some(IncrementForm::Chain) => {
            push_chain_reads(alloc, names, line, path, target, value, found)?;
            Ok(())
        }
        Some(IncrementForm::Sum) => {
            push_sum_reads(alloc, names, line, path, target, value, found)?;
            Ok(())
        }
        None => {
            push_reads(alloc, names, line, path, value, found)?;
            Ok(())
        }
    }
}

fn increment_kind(atomic: bool, plus: bool) -> AccessKind
    ensures { result ≡ increment_kind_lem atomic plus }
{
    if atomic || plus {
        AccessKind::Update
    } else {
        AccessKind::Write
    }
}

/// What an assignment does at its target.
#[tactic(auto, using(crate::proofs::Terms::plain_kind, crate::proofs::Terms::other_kind, crate::proofs::Terms::formed_kind))]
fn target_kind(names: &LoopNames<'_, '_>, atomic: bool, target: &Place, value: &Expr) -> AccessKind
    ensures { result ≡ target_kind_lem atomic ((scope_by names.now).pluses (place_tree target.now).name) (increment_terms (scope_by names.now).ring (place_tree target.now) (expr_tree value.now)) }
{
    if !names.is_data(&target.name) {
        return AccessKind::Write;
    }
    match increment_form(target, value) {
        None => AccessKind::Write,
        Some(_) => increment_kind(atomic, names.is_reduced(&target.name)),
    }
}

/// Adds the accesses of an assignment.
#[tactic(auto, using(crate::proofs::Terms::assignment_made))]
pub(crate) fn push_assignment<'t>(
    alloc: Global,
    names: &LoopNames<'_, '_>,
    line: u32,
    path: &Path<'_>,
    atomic: bool,
    target: &'t Place,
    value: &'t Expr,
    found: &mut Items<Found<'t>>,
) -> Result<(), Memory>
    ensures { OnOk result (map occurrence_of found.new ≡ map occurrence_of found.old
        ++ assignment_accesses (scope_by names.now) line (steps_of path.now) atomic (place_tree target.now) (expr_tree value.now) (increment_terms (scope_by names.now).ring (place_tree target.now) (expr_tree value.now))) }
{
    push_value_reads(alloc, names, line, path, target, value, found)?;
    push_all_reads(
        alloc,
        names,
        line,
        path,
        target.subscripts.as_slice(),
        found,
    )?;
    let kind = target_kind(names, atomic, target, value);
    push_access(alloc, names, line, path, kind, target, found)?;
    Ok(())
}
