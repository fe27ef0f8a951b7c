//! The rest terms of increments.

ghost use Rattle.std.specs.Prelude.{◌≡◌, ◌++◌, OnOk};
ghost use Rattle.fl_ast.specs.Same.{same_expression};
ghost use Rattle.fl_ast.specs.Tree.{expr_tree, place_tree};
ghost use Rattle.fl_types.specs.Increment.{target_of};
ghost use Rattle.fl_types.specs.Sharing.{has_name as has_name_lem, is_ring_kind as is_ring_kind_lem, is_ring_name};
ghost use Rattle.needed_names.specs.Terms as spec;

use crate::names::push_names;
use crate::reads::push_reads;
use fl_ast::{Decl, Expr, Kind, Name, Place};
use fl_base::{Items, Memory};
use fl_types::{IncrementForm, NameSet, increment_form};
use std::alloc::Global;

fn is_ring_kind(kind: Kind) -> bool
    ensures { result ≡ is_ring_kind_lem kind }
{
    match kind {
        Kind::Ring => true,
        Kind::Index => false,
    }
}

fn is_ring(decls: &[Decl], name: &Name) -> bool
    ensures { result ≡ is_ring_name decls.now name.now }
{
    decls
        .iter()
        .any(|decl| name.is(&decl.name) && is_ring_kind(decl.kind))
}

/// The form of an assignment, where it is an increment of data.
fn form_of(decls: &[Decl], target: &Place, value: &Expr) -> Option<IncrementForm>
    ensures { result ≡ spec.form_of (is_ring_name decls.now) (place_tree target.now) (expr_tree value.now) }
{
    if is_ring(decls, &target.name) {
        increment_form(target, value)
    } else {
        None
    }
}

fn is_target(target: &Place, expr: &Expr) -> bool
    ensures { result ≡ same_expression (target_of (place_tree target.now)) (expr_tree expr.now) }
{
    match expr {
        Expr::Get(place) => target.same(place),
        _ => false,
    }
}

/// Adds what the terms of a chain read.
fn push_chain_reads(
    alloc: Global,
    decls: &[Decl],
    active: &NameSet,
    value: &Expr,
    target: &Place,
    nodes: &mut Items<usize>,
) -> Result<(), Memory>
    ensures { OnOk result (nodes.new ≡ nodes.old
        ++ spec.over_chain (spec.reads_from decls.now (λ x. has_name_lem x active.now.names)) (target_of (place_tree target.now)) (expr_tree value.now)) }
{
    match value {
        Expr::Bin { left, right, .. } => {
            let (left, right) = (left.get(), right.get());
            if is_target(target, left) {
                return push_reads(alloc, decls, active, right, &[], nodes);
            }
            push_chain_reads(alloc, decls, active, left, target, nodes)?;
            push_reads(alloc, decls, active, right, &[], nodes)
        }
        _ => Ok(()),
    }
}

fn push_front_reads(
    alloc: Global,
    decls: &[Decl],
    active: &NameSet,
    value: &Expr,
    nodes: &mut Items<usize>,
) -> Result<(), Memory>
    ensures { OnOk result (nodes.new ≡ nodes.old
        ++ spec.over_front (spec.reads_from decls.now (λ x. has_name_lem x active.now.names)) (expr_tree value.now)) }
{
    match value {
        Expr::Bin { left, .. } => push_reads(alloc, decls, active, left.get(), &[], nodes),
        _ => Ok(()),
    }
}

/// Adds what a right side's terms read, or all of it where the assignment is no increment.
pub fn push_term_reads(
    alloc: Global,
    decls: &[Decl],
    active: &NameSet,
    target: &Place,
    value: &Expr,
    nodes: &mut Items<usize>,
) -> Result<(), Memory>
    ensures { OnOk result (nodes.new ≡ nodes.old
        ++ spec.over_terms (spec.reads_from decls.now (λ x. has_name_lem x active.now.names)) (spec.reads_from decls.now (λ x. has_name_lem x active.now.names))
        (spec.form_of (is_ring_name decls.now) (place_tree target.now) (expr_tree value.now)) (target_of (place_tree target.now)) (expr_tree value.now)) }
{
    match form_of(decls, target, value) {
        None => push_reads(alloc, decls, active, value, &[], nodes),
        Some(IncrementForm::Chain) => push_chain_reads(alloc, decls, active, value, target, nodes),
        Some(IncrementForm::Sum) => push_front_reads(alloc, decls, active, value, nodes),
    }
}

/// Adds the names in the terms of a chain.
fn push_chain_names(
    decls: &[Decl],
    value: &Expr,
    target: &Place,
    nodes: &mut Items<usize>,
) -> Result<(), Memory>
    ensures { OnOk result (nodes.new ≡ nodes.old ++ spec.over_chain (spec.indexes_in decls.now) (target_of (place_tree target.now)) (expr_tree value.now)) }
{
    match value {
        Expr::Bin { left, right, .. } => {
            let (left, right) = (left.get(), right.get());
            if is_target(target, left) {
                return push_names(decls, right, nodes);
            }
            push_chain_names(decls, left, target, nodes)?;
            push_names(decls, right, nodes)
        }
        _ => Ok(()),
    }
}

fn push_front_names(decls: &[Decl], value: &Expr, nodes: &mut Items<usize>) -> Result<(), Memory>
    ensures { OnOk result (nodes.new ≡ nodes.old ++ spec.over_front (spec.indexes_in decls.now) (expr_tree value.now)) }
{
    match value {
        Expr::Bin { left, .. } => push_names(decls, left.get(), nodes),
        _ => Ok(()),
    }
}

/// Adds the names in an increment's terms.
pub fn push_term_names(
    decls: &[Decl],
    target: &Place,
    value: &Expr,
    nodes: &mut Items<usize>,
) -> Result<(), Memory>
    ensures { OnOk result (nodes.new ≡ nodes.old
        ++ spec.over_terms (spec.indexes_in decls.now) spec.nothing (spec.form_of (is_ring_name decls.now) (place_tree target.now) (expr_tree value.now)) (target_of (place_tree target.now)) (expr_tree value.now)) }
{
    match form_of(decls, target, value) {
        None => Ok(()),
        Some(IncrementForm::Chain) => push_chain_names(decls, value, target, nodes),
        Some(IncrementForm::Sum) => push_front_names(decls, value, nodes),
    }
}
