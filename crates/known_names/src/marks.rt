//! The loop variables and the private names of trees.

ghost use Rattle.std.specs.Prelude.{◌≡◌, not, ◌&&◌, ◌||◌, List, ℕ, OnOk, IfOk, bytes_eq};
ghost use Rattle.fl_ast.specs.Tree.{stmt_tree, stmt_trees, arm_trees};
ghost use Rattle.fl_types.specs.Rows.{is_private_by, is_private_within, is_private_within_all, is_private_within_arms};
ghost use Rattle.fl_types.specs.Sharing as sharing;

use crate::keys::Keys;
use fl_ast::{Arm, Directive, Name, Stmt};
use fl_base::Memory;
use std::alloc::Global;

#[cycle(varying)]
fn mark_varying_in<'t>(stmt: &'t Stmt, keys: &mut Keys<'t>) -> Result<(), Memory>
    ensures { OnOk result ((x : List ℕ) → sharing.has_name x keys.new ≡ (sharing.varies x (stmt_tree stmt.now) || sharing.has_name x keys.old)) }
{
    match stmt {
        Stmt::Assign { .. } => Ok(()),
        Stmt::If { arms, other, .. } => {
            mark_varying(other.as_slice(), keys)?;
            mark_varying_in_arms(arms.as_slice(), keys)?;
            Ok(())
        }
        Stmt::Do { var, body, .. } => {
            mark_varying(body.as_slice(), keys)?;
            keys.insert(var)?;
            Ok(())
        }
    }
}

/// Adds the variables of loops.
#[cycle(varying)]
pub fn mark_varying<'t>(stmts: &'t [Stmt], keys: &mut Keys<'t>) -> Result<(), Memory>
    ensures { OnOk result ((x : List ℕ) → sharing.has_name x keys.new ≡ (sharing.varies_in x (stmt_trees stmts.now) || sharing.has_name x keys.old)) }
{
    for stmt in stmts {
        mark_varying_in(stmt, keys)?;
    }
    Ok(())
}

#[cycle(varying)]
fn mark_varying_in_arms<'t>(arms: &'t [Arm], keys: &mut Keys<'t>) -> Result<(), Memory>
    ensures { OnOk result ((x : List ℕ) → sharing.has_name x keys.new ≡ (sharing.varies_in_arms x (arm_trees arms.now) || sharing.has_name x keys.old)) }
{
    for arm in arms {
        mark_varying(arm.body.as_slice(), keys)?;
    }
    Ok(())
}

/// Adds a name that isn't among the others.
fn mark_other<'t>(name: &'t Name, others: &Keys<'_>, keys: &mut Keys<'t>) -> Result<(), Memory>
    ensures { OnOk result ((x : List ℕ) → sharing.has_name x keys.new ≡ ((bytes_eq x name.now && not (sharing.has_name x others.now)) || sharing.has_name x keys.old)) }
{
    if others.has(name) {
        return Ok(());
    }
    keys.insert(name)?;
    Ok(())
}

/// Adds those of the names that aren't among the others.
#[tactic(auto, using(crate::proofs::Members::spread))]
fn mark_others<'t>(names: &'t [Name], others: &Keys<'_>, keys: &mut Keys<'t>) -> Result<(), Memory>
    ensures { OnOk result ((x : List ℕ) → sharing.has_name x keys.new ≡ ((sharing.has_name x names.now && not (sharing.has_name x others.now)) || sharing.has_name x keys.old)) }
{
    for name in names {
        mark_other(name, others, keys)?;
    }
    Ok(())
}

/// The variable of a loop and of those in it.
fn variables<'t>(alloc: Global, var: &'t Name, body: &'t [Stmt]) -> Result<Keys<'t>, Memory>
    ensures { IfOk result (λ keys. (x : List ℕ) → sharing.has_name x keys ≡ (bytes_eq x var.now || sharing.varies_in x (stmt_trees body.now))) }
{
    let mut keys = Keys::new(alloc);
    mark_varying(body, &mut keys)?;
    keys.insert(var)?;
    Ok(keys)
}

/// Adds the names that are private in a loop with the directive.
fn mark_private_by<'t>(
    alloc: Global,
    directive: &'t Option<Directive>,
    var: &'t Name,
    body: &'t [Stmt],
    keys: &mut Keys<'t>,
) -> Result<(), Memory>
    ensures { OnOk result ((x : List ℕ) → sharing.has_name x keys.new ≡ (is_private_by directive.now var.now (stmt_trees body.now) x || sharing.has_name x keys.old)) }
{
    match directive {
        None => Ok(()),
        Some(directive) => {
            let vars = variables(alloc, var, body)?;
            mark_others(directive.privates.as_slice(), &vars, keys)?;
            Ok(())
        }
    }
}

#[cycle(private)]
fn mark_private_in<'t>(alloc: Global, stmt: &'t Stmt, keys: &mut Keys<'t>) -> Result<(), Memory>
    ensures { OnOk result ((x : List ℕ) → sharing.has_name x keys.new ≡ (is_private_within x (stmt_tree stmt.now) || sharing.has_name x keys.old)) }
{
    match stmt {
        Stmt::Assign { .. } => Ok(()),
        Stmt::If { arms, other, .. } => {
            mark_private(alloc, other.as_slice(), keys)?;
            mark_private_in_arms(alloc, arms.as_slice(), keys)?;
            Ok(())
        }
        Stmt::Do {
            directive,
            var,
            body,
            ..
        } => {
            mark_private(alloc, body.as_slice(), keys)?;
            mark_private_by(alloc, directive, var, body.as_slice(), keys)?;
            Ok(())
        }
    }
}

/// Adds the names that are private in a loop.
#[cycle(private)]
pub fn mark_private<'t>(alloc: Global, stmts: &'t [Stmt], keys: &mut Keys<'t>) -> Result<(), Memory>
    ensures { OnOk result ((x : List ℕ) → sharing.has_name x keys.new ≡ (is_private_within_all x (stmt_trees stmts.now) || sharing.has_name x keys.old)) }
{
    for stmt in stmts {
        mark_private_in(alloc, stmt, keys)?;
    }
    Ok(())
}

#[cycle(private)]
fn mark_private_in_arms<'t>(
    alloc: Global,
    arms: &'t [Arm],
    keys: &mut Keys<'t>,
) -> Result<(), Memory>
    ensures { OnOk result ((x : List ℕ) → sharing.has_name x keys.new ≡ (is_private_within_arms x (arm_trees arms.now) || sharing.has_name x keys.old)) }
{
    for arm in arms {
        mark_private(alloc, arm.body.as_slice(), keys)?;
    }
    Ok(())
}
