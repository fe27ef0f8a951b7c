//! All loops of a program.

ghost use Rattle.std.specs.Prelude.{◌≡◌, ◌++◌, IfOk, OnOk, option_map};
ghost use Rattle.fl_ast.specs.Tree.{expr_tree, stmt_tree, stmt_trees, arm_trees};
ghost use Rattle.loop_accesses.specs.Infos.{literal_of as literal_of_lem, step_of as step_of_lem, infos_of, infos_of_all, infos_of_arms};

use fl_ast::{Arm, Expr, Stmt};
use fl_base::{Items, Memory};
use fl_types::Typed;
use std::alloc::Global;

/// What is known of a loop before it runs. `step` is 1 where none stands, and its number where it is a literal without a
/// sign.
#[derive(Clone, Copy, Debug, PartialEq, Eq)]
pub struct LoopInfo {
    pub number: u32,
    pub line: u32,
    pub parallel: bool,
    pub step: Option<u64>,
}

fn literal_of(expr: &Expr) -> Option<u64>
    ensures { result ≡ literal_of_lem (expr_tree expr.now) }
{
    match expr {
        Expr::Lit { value, .. } => Some(*value),
        _ => None,
    }
}

fn step_of(step: &Option<Expr>) -> Option<u64>
    ensures { result ≡ step_of_lem (option_map expr_tree step.now) }
{
    match step {
        None => Some(1),
        Some(expr) => literal_of(expr),
    }
}

#[cycle(infos)]
fn push_infos(stmt: &Stmt, infos: &mut Items<LoopInfo>) -> Result<(), Memory>
    ensures { OnOk result (infos.new ≡ infos.old ++ infos_of (stmt_tree stmt.now)) }
{
    match stmt {
        Stmt::Assign { .. } => Ok(()),
        Stmt::If { arms, other, .. } => {
            push_infos_of_arms(arms.as_slice(), infos)?;
            push_infos_of_all(other.as_slice(), infos)?;
            Ok(())
        }
        Stmt::Do {
            line,
            number,
            directive,
            step,
            body,
            ..
        } => {
            infos.push(LoopInfo {
                number: *number,
                line: *line,
                parallel: directive.is_some(),
                step: step_of(step),
            })?;
            push_infos_of_all(body.as_slice(), infos)?;
            Ok(())
        }
    }
}

#[cycle(infos)]
fn push_infos_of_all(stmts: &[Stmt], infos: &mut Items<LoopInfo>) -> Result<(), Memory>
    ensures { OnOk result (infos.new ≡ infos.old ++ infos_of_all (stmt_trees stmts.now)) }
{
    for stmt in stmts {
        push_infos(stmt, infos)?;
    }
    Ok(())
}

#[cycle(infos)]
fn push_infos_of_arms(arms: &[Arm], infos: &mut Items<LoopInfo>) -> Result<(), Memory>
    ensures { OnOk result (infos.new ≡ infos.old ++ infos_of_arms (arm_trees arms.now)) }
{
    for arm in arms {
        push_infos_of_all(arm.body.as_slice(), infos)?;
    }
    Ok(())
}

/// The loops of a program, in textual order.
pub fn loops(alloc: Global, typed: &Typed) -> Result<Items<LoopInfo>, Memory>
    ensures { IfOk result (λ infos. infos ≡ infos_of_all (stmt_trees typed.now.body)) }
{
    let mut infos = Items::new(alloc);
    push_infos_of_all(typed.program().body.as_slice(), &mut infos)?;
    Ok(infos)
}
