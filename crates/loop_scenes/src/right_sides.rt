//! Which accesses of a loop are in right sides of assignments to active names.

ghost use Rattle.std.specs.Prelude.{◌≡◌, ◌++◌, List, ℕ, OnOk, IfOk};
ghost use Rattle.fl_ast.specs.Tree.{stmt_tree, stmt_trees, arm_tree, arm_trees};
ghost use Rattle.fl_types.specs.Sharing.{has_name as has_name_lem};
ghost use Rattle.loop_scenes.specs.Scened.{scope_there};
ghost use Rattle.loop_scenes.specs.Rights.{rights_in};
ghost use Rattle.loop_scenes.specs.Marks as spec;

use crate::marks::{push_assignment_marks, push_bounds_marks, push_condition_marks};
use fl_ast::{Arm, Stmt};
use fl_base::{Items, Memory};
use fl_types::NameSet;
use index_forms::Scene;
use std::alloc::Global;

#[cycle(walk)]
fn walk(scene: &Scene, active: &NameSet, stmt: &Stmt, marks: &mut Items<bool>) -> Result<(), Memory>
    ensures { OnOk result (marks.new ≡ marks.old ++ spec.walked (scope_there scene.now) (λ x. has_name_lem x active.now.names) (stmt_tree stmt.now)) }
{
    match stmt {
        Stmt::Assign { target, value, .. } => {
            push_assignment_marks(scene, active, target, value, marks)
        }
        Stmt::If { arms, other, .. } => {
            walk_arms(scene, active, arms.as_slice(), marks)?;
            walk_all(scene, active, other.as_slice(), marks)?;
            Ok(())
        }
        Stmt::Do {
            first,
            last,
            step,
            body,
            ..
        } => {
            push_bounds_marks(scene, first, last, step, marks)?;
            walk_all(scene, active, body.as_slice(), marks)?;
            Ok(())
        }
    }
}

#[cycle(walk)]
fn walk_all(
    scene: &Scene,
    active: &NameSet,
    stmts: &[Stmt],
    marks: &mut Items<bool>,
) -> Result<(), Memory>
    ensures { OnOk result (marks.new ≡ marks.old ++ spec.walked_in (scope_there scene.now) (λ x. has_name_lem x active.now.names) (stmt_trees stmts.now)) }
{
    for stmt in stmts {
        walk(scene, active, stmt, marks)?;
    }
    Ok(())
}

#[cycle(walk)]
fn walk_arms(
    scene: &Scene,
    active: &NameSet,
    arms: &[Arm],
    marks: &mut Items<bool>,
) -> Result<(), Memory>
    ensures { OnOk result (marks.new ≡ marks.old ++ spec.walked_in_arms (scope_there scene.now) (λ x. has_name_lem x active.now.names) (arm_trees arms.now)) }
{
    for arm in arms {
        walk_arm(scene, active, arm, marks)?;
    }
    Ok(())
}

#[cycle(walk)]
fn walk_arm(
    scene: &Scene,
    active: &NameSet,
    arm: &Arm,
    marks: &mut Items<bool>,
) -> Result<(), Memory>
    ensures { OnOk result (marks.new ≡ marks.old
        ++ (spec.condition_marks (scope_there scene.now) (arm_tree arm.now).0 ++ spec.walked_in (scope_there scene.now) (λ x. has_name_lem x active.now.names) (arm_tree arm.now).1)) }
{
    push_condition_marks(scene, &arm.test, marks)?;
    walk_all(scene, active, arm.body.as_slice(), marks)?;
    Ok(())
}

/// For each access of the statements of a loop with this scene, in the order of the accesses, whether it is in the right side of an assignment
/// to an active name: in a term of it, where the assignment is an increment.
#[tactic(auto, using(crate::proofs::Walked::rights_are))]
pub fn rights(
    alloc: Global,
    scene: &Scene,
    active: &NameSet,
    body: &[Stmt],
) -> Result<Items<bool>, Memory>
    ensures rights { IfOk result (λ rights. rights ≡ rights_in (scope_there scene.now) (λ x. has_name_lem x active.now.names) (stmt_trees body.now)) }
{
    let mut marks = Items::new(alloc);
    walk_all(scene, active, body, &mut marks)?;
    Ok(marks)
}
