//! The forms of a loop's accesses: a walk over the statements in textual order.

ghost use Rattle.std.specs.Prelude.{◌≡◌, ◌+◌, [], OnOk, IfOk};
ghost use Rattle.fl_ast.specs.Tree.{stmt_tree, stmt_trees, arm_trees};
ghost use Rattle.fl_types.specs.Accesses.{statement_count, statements_count, arms_count};
ghost use Rattle.index_forms.specs.Walk.{Rest, with_statement, with_statements, with_arms};
ghost use Rattle.index_forms.specs.Scenes.{setting_there, known_there};
ghost use Rattle.index_forms.specs.Listed.{all_forms_seen};

use crate::form::Form;
use crate::increments::{push_assignment_reads, push_bounds_reads};
use crate::known::{copied, hide, known_in_turns, push_known_after};
use crate::nodes::after;
use crate::origin::Entry;
use crate::reads::push_condition_reads;
use crate::scene::Scene;
use crate::written::written;
use fl_ast::{Arm, Stmt};
use fl_base::{Items, Memory};
use std::alloc::Global;

/// Adds the forms of the accesses of the statement with number n; answers the number of the next statement.
#[cycle(walk_statement)]
fn walk_statement(
    alloc: Global,
    scene: &Scene,
    n: u32,
    entries: &[Entry],
    stmt: &Stmt,
    all: &mut Items<Items<Form>>,
) -> Result<u32, Memory>
    ensures next { IfOk result (λ m. m ≡ n + statement_count (stmt_tree stmt.now)) }
    ensures forms { OnOk result (all_forms_seen all.new ≡ with_statement (setting_there scene.now) n (known_there scene.now entries.now) (stmt_tree stmt.now) (all_forms_seen all.old)) }
{
    match stmt {
        Stmt::Assign {
            atomic,
            target,
            value,
            ..
        } => {
            push_assignment_reads(alloc, scene, entries, *atomic, target, value, all)?;
            after(n)
        }
        Stmt::If { arms, other, .. } => {
            let mut entries = copied(alloc, entries)?;
            let next = walk_arms(alloc, scene, after(n)?, &mut entries, arms.as_slice(), all)?;
            walk_statements(alloc, scene, next, entries, other.as_slice(), all)
        }
        Stmt::Do {
            number,
            var,
            first,
            last,
            step,
            body,
            ..
        } => {
            push_bounds_reads(alloc, scene, entries, first, last, step, all)?;
            let inside = known_in_turns(alloc, scene, entries, *number, var, body.as_slice())?;
            walk_statements(alloc, scene, after(n)?, inside, body.as_slice(), all)
        }
    }
}

/// Adds the forms of the accesses of statements, of which the first has number n; answers the number of the next statement.
#[cycle(walk_statement)]
fn walk_statements(
    alloc: Global,
    scene: &Scene,
    n: u32,
    entries: Items<Entry>,
    stmts: &[Stmt],
    all: &mut Items<Items<Form>>,
) -> Result<u32, Memory>
    ensures next { IfOk result (λ m. m ≡ n + statements_count (stmt_trees stmts.now)) }
    ensures forms { OnOk result (all_forms_seen all.new ≡ with_statements (setting_there scene.now) n (known_there scene.now entries) (stmt_trees stmts.now) (all_forms_seen all.old)) }
{
    let mut entries = entries;
    let mut next = n;
    for i in 0..stmts.len() {
        let stmt = &stmts[i];
        let number = next;
        next = walk_statement(alloc, scene, number, entries.as_slice(), stmt, all)?;
        push_known_after(alloc, scene, number, stmt, &mut entries)?;
    }
    Ok(next)
}

/// Adds the forms of the accesses of arms, whose first statement has number n; answers the number of the next statement. Behind each
/// arm nothing is known of what it may have written.
#[cycle(walk_statement)]
fn walk_arms(
    alloc: Global,
    scene: &Scene,
    n: u32,
    entries: &mut Items<Entry>,
    arms: &[Arm],
    all: &mut Items<Items<Form>>,
) -> Result<u32, Memory>
    ensures next { IfOk result (λ m. m ≡ n + arms_count (arm_trees arms.now)) }
    ensures forms { IfOk result (λ m. (other : Rest) → other m (known_there scene.now entries.new) (all_forms_seen all.new)
        ≡ with_arms (setting_there scene.now) n (known_there scene.now entries.old) (arm_trees arms.now) other (all_forms_seen all.old)) }
{
    let mut next = n;
    for i in 0..arms.len() {
        let arm = &arms[i];
        push_condition_reads(alloc, scene, entries.as_slice(), &arm.test, all)?;
        let inside = copied(alloc, entries.as_slice())?;
        next = walk_statements(alloc, scene, next, inside, arm.body.as_slice(), all)?;
        let names = written(alloc, arm.body.as_slice())?;
        hide(alloc, scene, names.as_slice(), entries)?;
    }
    Ok(next)
}

/// The forms of all accesses of a loop's statements, in the order of the accesses, on the scene's side.
pub fn forms_of_accesses(
    alloc: Global,
    scene: &Scene,
    body: &[Stmt],
) -> Result<Items<Items<Form>>, Memory>
    ensures { IfOk result (λ all. all_forms_seen all ≡ with_statements (setting_there scene.now) 1 (known_there scene.now []) (stmt_trees body.now) []) }
{
    let mut all = Items::new(alloc);
    walk_statements(alloc, scene, 1, Items::new(alloc), body, &mut all)?;
    Ok(all)
}
