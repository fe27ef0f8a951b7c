//! The forward part of statements.

ghost use Rattle.std.specs.Prelude.{◌≡◌, ◌++◌, IfOk, OnOk, map};
ghost use Rattle.fl_ast.specs.Tree.{stmt_tree, stmt_trees, arm_trees};
ghost use Rattle.fl_ast.specs.AdjointTree.{astmt_tree, aarm_trees};
ghost use Rattle.adjoint_rules.specs.Forward as rules;
ghost use Rattle.reversal.specs.Places.{scope_of};

use crate::branch::{forward_arm, numbered, push_branch};
use crate::loops::{forward_loop, forward_parallel, inside};
use fl_ast::{AArm, AStmt, Arm, Stmt};
use fl_base::{Items, Memory};
use fl_types::is_nest;
use loop_bounds::LoopHead;
use reversal::{Scope, push_forward_assignment};
use std::alloc::Global;

/// Adds the forward of a statement.
#[cycle(forward)]
fn push_forward(
    alloc: Global,
    stmt: &Stmt,
    scope: &Scope<'_>,
    statements: &mut Items<AStmt>,
) -> Result<(), Memory>
    ensures { OnOk result (map astmt_tree statements.new ≡ map astmt_tree statements.old ++ rules.forward (stmt_tree stmt.now) (scope_of scope.now)) }
{
    match stmt {
        Stmt::Assign {
            line,
            atomic,
            target,
            value,
        } => push_forward_assignment(alloc, scope, *line, *atomic, target, value, statements),
        Stmt::If { line, arms, other } => push_branch(
            *line,
            forward_arms(alloc, arms.as_slice(), *line, scope),
            numbered(
                alloc,
                scope,
                *line,
                arms.len() as u64,
                forward_all(alloc, other.as_slice(), scope),
            ),
            statements,
        ),
        Stmt::Do {
            line,
            number,
            directive,
            var,
            first,
            last,
            step,
            body,
        } => {
            let head = LoopHead {
                line: *line,
                number: *number,
                var,
                first,
                last,
                step,
            };
            match directive {
                None => forward_loop(
                    alloc,
                    scope,
                    &head,
                    forward_all(alloc, body.as_slice(), scope),
                    statements,
                ),
                Some(directive) => {
                    let within = inside(&*scope, *number, &*directive, &*var, body.as_slice());
                    if is_nest(directive, body.as_slice()) {
                        return forward_parallel(
                            alloc,
                            scope,
                            directive,
                            &head,
                            body.as_slice(),
                            forward_inner(alloc, body.as_slice(), &within),
                            statements,
                        );
                    }
                    forward_parallel(
                        alloc,
                        scope,
                        directive,
                        &head,
                        body.as_slice(),
                        forward_all(alloc, body.as_slice(), &within),
                        statements,
                    )
                }
            }
        }
    }
}

/// The forward of statements.
#[cycle(forward)]
pub fn forward_all(alloc: Global, stmts: &[Stmt], scope: &Scope<'_>) -> Result<Items<AStmt>, Memory>
    ensures { IfOk result (λ ss. map astmt_tree ss ≡ rules.forward_all (stmt_trees stmts.now) (scope_of scope.now)) }
{
    let mut statements = Items::new(alloc);
    for stmt in stmts {
        push_forward(alloc, stmt, scope, &mut statements)?;
    }
    Ok(statements)
}

/// The forward of the statements of the loop in a body.
#[cycle(forward)]
fn forward_inner(alloc: Global, stmts: &[Stmt], scope: &Scope<'_>) -> Result<Items<AStmt>, Memory>
    ensures { IfOk result (λ ss. map astmt_tree ss ≡ rules.forward_inner (stmt_trees stmts.now) (scope_of scope.now)) }
{
    match stmts {
        [] => Ok(Items::new(alloc)),
        [stmt, ..] => forward_within(alloc, stmt, scope),
    }
}

#[cycle(forward)]
fn forward_within(alloc: Global, stmt: &Stmt, scope: &Scope<'_>) -> Result<Items<AStmt>, Memory>
    ensures { IfOk result (λ ss. map astmt_tree ss ≡ rules.forward_within (stmt_tree stmt.now) (scope_of scope.now)) }
{
    match stmt {
        Stmt::Assign { .. } | Stmt::If { .. } => Ok(Items::new(alloc)),
        Stmt::Do { body, .. } => forward_all(alloc, body.as_slice(), scope),
    }
}

/// The arms of an If, each with its number at its end.
#[cycle(forward)]
fn forward_arms(
    alloc: Global,
    arms: &[Arm],
    line: u32,
    scope: &Scope<'_>,
) -> Result<Items<AArm>, Memory>
    ensures { IfOk result (λ as'. aarm_trees as' ≡ rules.forward_arms (arm_trees arms.now) line 0 (scope_of scope.now)) }
{
    let mut all = Items::new(alloc);
    for i in 0..arms.len() {
        let arm = &arms[i];
        all.push(forward_arm(
            alloc,
            &arm.test,
            numbered(
                alloc,
                scope,
                line,
                i as u64,
                forward_all(alloc, arm.body.as_slice(), scope),
            ),
        )?)?;
    }
    Ok(all)
}
