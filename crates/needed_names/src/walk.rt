//! The roots and the edges that a program's assignments make.

ghost use Rattle.std.specs.Prelude.{◌≡◌, ◌++◌, IfOk, OnOk, map};
ghost use Rattle.fl_ast.specs.Tree.{expr_tree, place_tree, stmt_tree, stmt_trees, arm_trees};
ghost use Rattle.fl_types.specs.Sharing.{has_name as has_name_lem, is_ring_name};
ghost use Rattle.reachability.specs.Named.{index_in, indexes_of, links_of};
ghost use Rattle.adjoint_rules.specs.Needed as rules;
ghost use Rattle.needed_names.specs.Terms as spec;

use crate::names::{index_of, push_all_names};
use crate::reads::has_name;
use crate::terms::{push_term_names, push_term_reads};
use fl_ast::{Arm, Decl, Expr, Place, Stmt};
use fl_base::{Items, Memory};
use fl_types::NameSet;
use reachability::Link;
use std::alloc::Global;

/// Adds what the reverse of an assignment reads.
fn push_assignment_reads(
    alloc: Global,
    decls: &[Decl],
    active: &NameSet,
    target: &Place,
    value: &Expr,
    nodes: &mut Items<usize>,
) -> Result<(), Memory>
    ensures { OnOk result (nodes.new ≡ nodes.old ++ spec.assignment_reads decls.now (λ x. has_name_lem x active.now.names) (is_ring_name decls.now) (place_tree target.now) (expr_tree value.now)) }
{
    if !has_name(&target.name, active.names.as_slice()) {
        return Ok(());
    }
    push_all_names(decls, target.subscripts.as_slice(), nodes)?;
    push_term_reads(alloc, decls, active, target, value, nodes)?;
    Ok(())
}

/// Adds what the reverse of a statement reads.
#[cycle(roots)]
fn push_roots(
    alloc: Global,
    decls: &[Decl],
    active: &NameSet,
    stmt: &Stmt,
    nodes: &mut Items<usize>,
) -> Result<(), Memory>
    ensures { OnOk result (nodes.new ≡ nodes.old ++ indexes_of decls.now (rules.read_by (spec.kinds_in decls.now active.now.names) (stmt_tree stmt.now))) }
{
    match stmt {
        Stmt::Assign { target, value, .. } => {
            push_assignment_reads(alloc, decls, active, target, value, nodes)
        }
        Stmt::If { arms, other, .. } => {
            push_roots_in_arms(alloc, decls, active, arms.as_slice(), nodes)?;
            push_roots_in(alloc, decls, active, other.as_slice(), nodes)?;
            Ok(())
        }
        Stmt::Do { body, .. } => push_roots_in(alloc, decls, active, body.as_slice(), nodes),
    }
}

#[cycle(roots)]
pub fn push_roots_in(
    alloc: Global,
    decls: &[Decl],
    active: &NameSet,
    stmts: &[Stmt],
    nodes: &mut Items<usize>,
) -> Result<(), Memory>
    ensures { OnOk result (nodes.new ≡ nodes.old ++ indexes_of decls.now (rules.read_by_all (spec.kinds_in decls.now active.now.names) (stmt_trees stmts.now))) }
{
    for stmt in stmts {
        push_roots(alloc, decls, active, stmt, nodes)?;
    }
    Ok(())
}

#[cycle(roots)]
fn push_roots_in_arms(
    alloc: Global,
    decls: &[Decl],
    active: &NameSet,
    arms: &[Arm],
    nodes: &mut Items<usize>,
) -> Result<(), Memory>
    ensures { OnOk result (nodes.new ≡ nodes.old ++ indexes_of decls.now (rules.read_by_arms (spec.kinds_in decls.now active.now.names) (arm_trees arms.now))) }
{
    for arm in arms {
        push_roots_in(alloc, decls, active, arm.body.as_slice(), nodes)?;
    }
    Ok(())
}

/// What restoring a target reads.
fn restoring(
    alloc: Global,
    decls: &[Decl],
    target: &Place,
    value: &Expr,
) -> Result<Items<usize>, Memory>
    ensures { IfOk result (λ nodes. nodes ≡ spec.restoring_reads decls.now (is_ring_name decls.now) (place_tree target.now) (expr_tree value.now)) }
{
    let mut nodes = Items::new(alloc);
    push_all_names(decls, target.subscripts.as_slice(), &mut nodes)?;
    push_term_names(decls, target, value, &mut nodes)?;
    Ok(nodes)
}

/// Adds the edges from a node to these.
fn push_links_to(tail: usize, nodes: &[usize], links: &mut Items<Link>) -> Result<(), Memory>
    ensures { OnOk result (links.new ≡ links.old ++ map (spec.link_to tail) nodes.now) }
{
    for node in nodes {
        links.push(Link { tail, head: *node })?;
    }
    Ok(())
}

/// Adds the edges from a target to what restoring it reads.
fn push_assignment_links(
    alloc: Global,
    decls: &[Decl],
    target: &Place,
    value: &Expr,
    links: &mut Items<Link>,
) -> Result<(), Memory>
    ensures { OnOk result (links.new ≡ links.old
        ++ spec.links_from (index_in decls.now (place_tree target.now).name) (spec.restoring_reads decls.now (is_ring_name decls.now) (place_tree target.now) (expr_tree value.now))) }
{
    match index_of(decls, &target.name) {
        None => Ok(()),
        Some(tail) => {
            let nodes = restoring(alloc, decls, target, value)?;
            push_links_to(tail, nodes.as_slice(), links)
        }
    }
}

/// Adds the edges of a statement.
#[cycle(links)]
fn push_links(
    alloc: Global,
    decls: &[Decl],
    active: &NameSet,
    stmt: &Stmt,
    links: &mut Items<Link>,
) -> Result<(), Memory>
    ensures { OnOk result (links.new ≡ links.old ++ links_of decls.now (rules.restorings (spec.kinds_in decls.now active.now.names) (stmt_tree stmt.now))) }
{
    match stmt {
        Stmt::Assign { target, value, .. } => {
            push_assignment_links(alloc, decls, target, value, links)
        }
        Stmt::If { arms, other, .. } => {
            push_links_in_arms(alloc, decls, active, arms.as_slice(), links)?;
            push_links_in(alloc, decls, active, other.as_slice(), links)?;
            Ok(())
        }
        Stmt::Do { body, .. } => push_links_in(alloc, decls, active, body.as_slice(), links),
    }
}

#[cycle(links)]
pub fn push_links_in(
    alloc: Global,
    decls: &[Decl],
    active: &NameSet,
    stmts: &[Stmt],
    links: &mut Items<Link>,
) -> Result<(), Memory>
    ensures { OnOk result (links.new ≡ links.old ++ links_of decls.now (rules.restorings_in (spec.kinds_in decls.now active.now.names) (stmt_trees stmts.now))) }
{
    for stmt in stmts {
        push_links(alloc, decls, active, stmt, links)?;
    }
    Ok(())
}

#[cycle(links)]
fn push_links_in_arms(
    alloc: Global,
    decls: &[Decl],
    active: &NameSet,
    arms: &[Arm],
    links: &mut Items<Link>,
) -> Result<(), Memory>
    ensures { OnOk result (links.new ≡ links.old ++ links_of decls.now (rules.restorings_in_arms (spec.kinds_in decls.now active.now.names) (arm_trees arms.now))) }
{
    for arm in arms {
        push_links_in(alloc, decls, active, arm.body.as_slice(), links)?;
    }
    Ok(())
}
