ghost use Rattle.std.specs.Prelude.{◌≡◌, ◌<◌, length, true, IfOk};
ghost use Rattle.fl_ast.specs.Tree.{assignment, expr_tree, place_tree, step_tree, stmt_tree, stmt_trees, arm_tree, arm_trees};
ghost use Rattle.resolved.specs.ResolvedExprs.{slot_name, expression_back, is_within, is_placed};
ghost use Rattle.resolved.specs.ResolvedStmts.{statement_back, statements_back, arm_back, arms_back, option_back, form_in as form_in_lem, is_option_within, is_fit, are_fit, is_arm_fit, are_arms_fit, is_option_placed, is_statement_placed, are_statements_placed, is_arm_placed, are_arms_placed};
ghost use Rattle.resolved.specs.ResolveAnswers.{Resolves, ResolvesHead};

use crate::resolve::{ResolveError, resolve_condition, resolve_expression, resolve_place};
use crate::resolved::{ResolvedArm, ResolvedExpr, ResolvedHead, ResolvedStmt};
use crate::slot_table::SlotTable;
use fl_ast::{Arm, Directive, Expr, Kind, Name, Place, Stmt};
use fl_base::{Boxed, Items, Memory};
use fl_types::{IncrementForm, increment_form};
use std::alloc::Global;
use store_core::Layout;

/// The form of an increment, where the target is of the ring kind.
fn form_in(table: &SlotTable, slot: usize, target: &Place, value: &Expr) -> Option<IncrementForm>
    requires within { slot < length table.now.0 }
    requires named { slot_name table.now.0 slot ≡ (place_tree target.now).name }
    ensures { result ≡ form_in_lem table.now (place_tree target.now) (expr_tree value.now) }
{
    match table.kind(slot) {
        Kind::Ring => increment_form(target, value),
        Kind::Index => None,
    }
}

fn resolve_assignment(
    alloc: Global,
    table: &SlotTable,
    line: u32,
    atomic: bool,
    target: &Place,
    value: &Expr,
) -> Result<ResolvedStmt, ResolveError>
    ensures { Resolves (statement_back table.now.0) (is_fit table.now) (assignment line atomic (place_tree target.now) (expr_tree value.now))
        (is_statement_placed table.now.0 (assignment line atomic (place_tree target.now) (expr_tree value.now))) result }
{
    let expr = resolve_expression(alloc, table.layout(), value)?;
    let occurrence = resolve_place(alloc, table.layout(), target)?;
    let form = form_in(table, occurrence.slot, target, value);
    Ok(ResolvedStmt::Assign {
        line,
        atomic,
        target: occurrence,
        value: expr,
        form,
    })
}

fn resolve_option(
    alloc: Global,
    layout: &Layout,
    expr: &Option<Expr>,
) -> Result<Option<ResolvedExpr>, ResolveError>
    ensures { Resolves (option_back layout.now) (is_option_within (length layout.now)) (step_tree expr.now)
        (is_option_placed layout.now (step_tree expr.now)) result }
{
    match expr {
        None => Ok(None),
        Some(expr) => Ok(Some(resolve_expression(alloc, layout, expr)?)),
    }
}

fn resolve_head(
    alloc: Global,
    layout: &Layout,
    var: &Name,
    first: &Expr,
    last: &Expr,
    step: &Option<Expr>,
) -> Result<ResolvedHead, ResolveError>
    ensures { ResolvesHead layout.now var.now (expr_tree first.now) (expr_tree last.now) (step_tree step.now) result }
{
    let variable = match layout.slot(var) {
        None => return Err(ResolveError::Unplaced),
        Some(slot) => slot,
    };
    let first = resolve_expression(alloc, layout, first)?;
    let last = resolve_expression(alloc, layout, last)?;
    let step = resolve_option(alloc, layout, step)?;
    Ok(ResolvedHead {
        variable,
        first,
        last,
        step,
    })
}

fn copy_directive(
    alloc: Global,
    directive: &Option<Directive>,
) -> Result<Option<Boxed<Directive>>, Memory>
    ensures { IfOk result (λ copy. copy ≡ directive.now) }
{
    match directive {
        None => Ok(None),
        Some(directive) => Ok(Some(Boxed::new(alloc, directive.clone(alloc)?)?)),
    }
}

/// A statement with each name's slot.
#[cycle(resolve_statements)]
pub fn resolve_statement(
    alloc: Global,
    table: &SlotTable,
    stmt: &Stmt,
) -> Result<ResolvedStmt, ResolveError>
    ensures { Resolves (statement_back table.now.0) (is_fit table.now) (stmt_tree stmt.now)
        (is_statement_placed table.now.0 (stmt_tree stmt.now)) result }
{
    match stmt {
        Stmt::Assign {
            line,
            atomic,
            target,
            value,
        } => resolve_assignment(alloc, table, *line, *atomic, target, value),
        Stmt::If { line, arms, other } => {
            let arms = resolve_arms(alloc, table, arms.as_slice())?;
            let other = resolve_statements(alloc, table, other.as_slice())?;
            Ok(ResolvedStmt::If {
                line: *line,
                arms,
                other,
            })
        }
        Stmt::Do {
            line,
            number,
            directive,
            var,
            first,
            last,
            step,
            body,
        } => {
            let directive = copy_directive(alloc, directive)?;
            let head = resolve_head(alloc, table.layout(), var, first, last, step)?;
            let body = resolve_statements(alloc, table, body.as_slice())?;
            Ok(ResolvedStmt::Do {
                line: *line,
                number: *number,
                directive,
                head,
                body,
            })
        }
    }
}

/// Statements with each name's slot.
#[cycle(resolve_statements)]
pub fn resolve_statements(
    alloc: Global,
    table: &SlotTable,
    stmts: &[Stmt],
) -> Result<Items<ResolvedStmt>, ResolveError>
    ensures { Resolves (statements_back table.now.0) (are_fit table.now) (stmt_trees stmts.now)
        (are_statements_placed table.now.0 (stmt_trees stmts.now)) result }
{
    let mut all = Items::new(alloc);
    for stmt in stmts {
        let stmt = resolve_statement(alloc, table, stmt)?;
        all.push(stmt)?;
    }
    Ok(all)
}

#[cycle(resolve_statements)]
fn resolve_arms(
    alloc: Global,
    table: &SlotTable,
    arms: &[Arm],
) -> Result<Items<ResolvedArm>, ResolveError>
    ensures { Resolves (arms_back table.now.0) (are_arms_fit table.now) (arm_trees arms.now)
        (are_arms_placed table.now.0 (arm_trees arms.now)) result }
{
    let mut all = Items::new(alloc);
    for arm in arms {
        let resolved = resolve_arm(alloc, table, arm)?;
        all.push(resolved)?;
    }
    Ok(all)
}

#[cycle(resolve_statements)]
fn resolve_arm(alloc: Global, table: &SlotTable, arm: &Arm) -> Result<ResolvedArm, ResolveError>
    ensures { Resolves (arm_back table.now.0) (is_arm_fit table.now) (arm_tree arm.now)
        (is_arm_placed table.now.0 (arm_tree arm.now)) result }
{
    let test = resolve_condition(alloc, table.layout(), &arm.test)?;
    let body = resolve_statements(alloc, table, arm.body.as_slice())?;
    Ok(ResolvedArm { test, body })
}
