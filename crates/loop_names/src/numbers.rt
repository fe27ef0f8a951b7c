//! The names of the bounds of loops.

ghost use Rattle.std.specs.Prelude.{◌≡◌, ◌++◌, OnOk, flat_map};
ghost use Rattle.fl_ast.specs.Tree.{stmt_tree, stmt_trees, arm_trees};
ghost use Rattle.adjoint_rules.specs.Clauses as rules;

use fl_ast::{Arm, Name, Stmt};
use fl_base::{Items, Memory};
use loop_bounds::numbered;
use std::alloc::Global;

#[cycle(numbers)]
fn push_numbers(stmt: &Stmt, numbers: &mut Items<u32>) -> Result<(), Memory>
    ensures { OnOk result (numbers.new ≡ numbers.old ++ rules.loop_numbers (stmt_tree stmt.now)) }
{
    match stmt {
        Stmt::Assign { .. } => Ok(()),
        Stmt::If { arms, other, .. } => {
            push_numbers_in_arms(arms.as_slice(), numbers)?;
            push_numbers_in(other.as_slice(), numbers)?;
            Ok(())
        }
        Stmt::Do { number, body, .. } => {
            numbers.push(*number)?;
            push_numbers_in(body.as_slice(), numbers)?;
            Ok(())
        }
    }
}

/// Adds the numbers of the loops in these statements, in textual order.
#[cycle(numbers)]
fn push_numbers_in(stmts: &[Stmt], numbers: &mut Items<u32>) -> Result<(), Memory>
    ensures { OnOk result (numbers.new ≡ numbers.old ++ rules.loop_numbers_in (stmt_trees stmts.now)) }
{
    for stmt in stmts {
        push_numbers(stmt, numbers)?;
    }
    Ok(())
}

#[cycle(numbers)]
fn push_numbers_in_arms(arms: &[Arm], numbers: &mut Items<u32>) -> Result<(), Memory>
    ensures { OnOk result (numbers.new ≡ numbers.old ++ rules.loop_numbers_in_arms (arm_trees arms.now)) }
{
    for arm in arms {
        push_numbers_in(arm.body.as_slice(), numbers)?;
    }
    Ok(())
}

/// Adds the names of the bounds of the loop with a number.
fn push_bound_names(alloc: Global, number: u32, names: &mut Items<Name>) -> Result<(), Memory>
    ensures { OnOk result (names.new ≡ names.old ++ rules.bound_names number) }
{
    names.push(numbered(alloc, b"formad_lo", number)?)?;
    names.push(numbered(alloc, b"formad_hi", number)?)?;
    names.push(numbered(alloc, b"formad_by", number)?)?;
    Ok(())
}

fn push_all_bound_names(
    alloc: Global,
    numbers: &[u32],
    names: &mut Items<Name>,
) -> Result<(), Memory>
    ensures { OnOk result (names.new ≡ names.old ++ flat_map rules.bound_names numbers.now) }
{
    for number in numbers {
        push_bound_names(alloc, *number, names)?;
    }
    Ok(())
}

/// Adds the names of the bounds of the loops in these statements.
pub fn push_bounds_in(alloc: Global, stmts: &[Stmt], names: &mut Items<Name>) -> Result<(), Memory>
    ensures { OnOk result (names.new ≡ names.old ++ flat_map rules.bound_names (rules.loop_numbers_in (stmt_trees stmts.now))) }
{
    let mut numbers = Items::new(alloc);
    push_numbers_in(stmts, &mut numbers)?;
    push_all_bound_names(alloc, numbers.as_slice(), names)
}
