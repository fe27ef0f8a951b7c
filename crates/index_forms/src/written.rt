//! The names that a tree writes.

ghost use Rattle.std.specs.Prelude.{◌≡◌, ◌++◌, OnOk, IfOk};
ghost use Rattle.fl_ast.specs.Tree.{stmt_tree, stmt_trees, arm_trees};
ghost use Rattle.index_forms.specs.Loops.{names_by, names_in, names_in_arms, written_in};

use fl_ast::{Arm, Stmt};
use fl_base::{Items, Memory, Name};
use std::alloc::Global;

/// Adds the names that a statement writes: variables of loops and, where asked for, targets of assignments.
#[cycle(push_names_by)]
#[tactic(auto, using(crate::proofs::WrittenNames::two_lists, crate::proofs::WrittenNames::and_list))]
pub fn push_names_by(
    alloc: Global,
    targets: bool,
    stmt: &Stmt,
    names: &mut Items<Name>,
) -> Result<(), Memory>
    ensures { OnOk result (names.new ≡ names.old ++ names_by targets (stmt_tree stmt.now)) }
{
    match stmt {
        Stmt::Assign { target, .. } => {
            if targets {
                names.push(target.name.clone(alloc)?)?;
            }
            Ok(())
        }
        Stmt::If { arms, other, .. } => {
            push_names_in_arms(alloc, targets, arms.as_slice(), names)?;
            push_names_in(alloc, targets, other.as_slice(), names)?;
            Ok(())
        }
        Stmt::Do { var, body, .. } => {
            names.push(var.clone(alloc)?)?;
            push_names_in(alloc, targets, body.as_slice(), names)?;
            Ok(())
        }
    }
}

#[cycle(push_names_by)]
pub fn push_names_in(
    alloc: Global,
    targets: bool,
    stmts: &[Stmt],
    names: &mut Items<Name>,
) -> Result<(), Memory>
    ensures { OnOk result (names.new ≡ names.old ++ names_in targets (stmt_trees stmts.now)) }
{
    for i in 0..stmts.len() {
        push_names_by(alloc, targets, &stmts[i], names)?;
    }
    Ok(())
}

#[cycle(push_names_by)]
fn push_names_in_arms(
    alloc: Global,
    targets: bool,
    arms: &[Arm],
    names: &mut Items<Name>,
) -> Result<(), Memory>
    ensures { OnOk result (names.new ≡ names.old ++ names_in_arms targets (arm_trees arms.now)) }
{
    for i in 0..arms.len() {
        let arm = &arms[i];
        push_names_in(alloc, targets, arm.body.as_slice(), names)?;
    }
    Ok(())
}

/// The names that statements write, in textual order.
pub fn written(alloc: Global, stmts: &[Stmt]) -> Result<Items<Name>, Memory>
    ensures { IfOk result (λ names. names ≡ written_in (stmt_trees stmts.now)) }
{
    let mut names = Items::new(alloc);
    push_names_in(alloc, true, stmts, &mut names)?;
    Ok(names)
}
