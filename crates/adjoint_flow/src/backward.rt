//! The reverse part of statements.

ghost use Rattle.std.specs.Prelude.{◌≡◌, ◌++◌, IfOk, OnOk, map};
ghost use Rattle.fl_ast.specs.Tree.{stmt_tree, stmt_trees, arm_trees};
ghost use Rattle.fl_ast.specs.AdjointTree.{astmt_tree, aarm_trees};
ghost use Rattle.adjoint_rules.specs.Reverse as rules;
ghost use Rattle.reversal.specs.Places.{scope_of};

use crate::branch::{backward_arm, push_branch, push_popped_number};
use crate::loops::{backward_loop, backward_parallel, inside};
use fl_ast::{AArm, AStmt, Arm, Stmt};
use fl_base::{Items, Memory};
use fl_types::is_nest;
use loop_bounds::LoopHead;
use reversal::{Scope, push_backward_assignment};
use std::alloc::Global;

/// Adds the reverse of a statement.
#[cycle(backward)]
fn push_backward(
    alloc: Global,
    stmt: &Stmt,
    scope: &Scope<'_>,
    statements: &mut Items<AStmt>,
) -> Result<(), Memory>
    ensures { OnOk result (map astmt_tree statements.new ≡ map astmt_tree statements.old ++ rules.backward (stmt_tree stmt.now) (scope_of scope.now)) }
{
    match stmt {
        Stmt::Assign {
            line,
            atomic,
            target,
            value,
        } => push_backward_assignment(alloc, scope, *line, *atomic, target, value, statements),
        Stmt::If { line, arms, other } => {
            push_popped_number(alloc, scope, *line, statements)?;
            push_branch(
                *line,
                backward_arms(alloc, arms.as_slice(), scope),
                backward_all(alloc, other.as_slice(), scope),
                statements,
            )
        }
        Stmt::Do {
            line,
            number,
            directive,
            var,
            first,
            last,
            step,
            body,
        } => {
            let head = LoopHead {
                line: *line,
                number: *number,
                var,
                first,
                last,
                step,
            };
            match directive {
                None => backward_loop(
                    alloc,
                    scope,
                    &head,
                    backward_all(alloc, body.as_slice(), scope),
                    statements,
                ),
                Some(directive) => {
                    let within = inside(&*scope, *number, &*directive, &*var, body.as_slice());
                    if is_nest(directive, body.as_slice()) {
                        return backward_parallel(
                            alloc,
                            scope,
                            directive,
                            &head,
                            body.as_slice(),
                            backward_inner(alloc, body.as_slice(), &within),
                            statements,
                        );
                    }
                    backward_parallel(
                        alloc,
                        scope,
                        directive,
                        &head,
                        body.as_slice(),
                        backward_all(alloc, body.as_slice(), &within),
                        statements,
                    )
                }
            }
        }
    }
}

/// The reverse of statements, from the last one to the first.
#[cycle(backward)]
pub fn backward_all(
    alloc: Global,
    stmts: &[Stmt],
    scope: &Scope<'_>,
) -> Result<Items<AStmt>, Memory>
    ensures { IfOk result (λ ss. map astmt_tree ss ≡ rules.backward_all (stmt_trees stmts.now) (scope_of scope.now)) }
{
    let mut statements = Items::new(alloc);
    let mut at = stmts.len();
    while at > 0 {
        at -= 1;
        let stmt = &stmts[at];
        push_backward(alloc, stmt, scope, &mut statements)?;
    }
    Ok(statements)
}

/// The reverse of the statements of the loop in a body.
#[cycle(backward)]
fn backward_inner(alloc: Global, stmts: &[Stmt], scope: &Scope<'_>) -> Result<Items<AStmt>, Memory>
    ensures { IfOk result (λ ss. map astmt_tree ss ≡ rules.backward_inner (stmt_trees stmts.now) (scope_of scope.now)) }
{
    match stmts {
        [] => Ok(Items::new(alloc)),
        [stmt, ..] => backward_within(alloc, stmt, scope),
    }
}

#[cycle(backward)]
fn backward_within(alloc: Global, stmt: &Stmt, scope: &Scope<'_>) -> Result<Items<AStmt>, Memory>
    ensures { IfOk result (λ ss. map astmt_tree ss ≡ rules.backward_within (stmt_tree stmt.now) (scope_of scope.now)) }
{
    match stmt {
        Stmt::Assign { .. } | Stmt::If { .. } => Ok(Items::new(alloc)),
        Stmt::Do { body, .. } => backward_all(alloc, body.as_slice(), scope),
    }
}

/// The arms of an If, each under the test of its number.
#[cycle(backward)]
fn backward_arms(alloc: Global, arms: &[Arm], scope: &Scope<'_>) -> Result<Items<AArm>, Memory>
    ensures { IfOk result (λ as'. aarm_trees as' ≡ rules.backward_arms (arm_trees arms.now) 0 (scope_of scope.now)) }
{
    let mut all = Items::new(alloc);
    for i in 0..arms.len() {
        let arm = &arms[i];
        all.push(backward_arm(
            alloc,
            i as u64,
            backward_all(alloc, arm.body.as_slice(), scope),
        )?)?;
    }
    Ok(all)
}
