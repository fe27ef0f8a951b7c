//! Ranges of the variables of inner loops.

ghost use Rattle.std.specs.Prelude.{◌≡◌, ◌<◌, ◌-◌, ◌%◌, ◌++◌, map, option_map, IfOk, OnOk};
ghost use Rattle.fl_ast.specs.Tree.{expr_tree, step_tree, stmt_tree, stmt_trees, arm_trees};
ghost use Rattle.index_forms.specs.Loops.{literal_number as literal_number_lem, signed_number as signed_number_lem, step_number as step_number_lem};
ghost use Rattle.index_ranges.specs.Ranges.{range_of as range_of_lem, range_by, loop_range as loop_range_lem, listed, ranges_by, ranges_in, ranges_in_arms};
ghost use Rattle.index_ranges.specs.Told.{range_told, ranges_told};

use fl_ast::{Arm, Expr, Kind, Stmt};
use fl_base::{Items, Memory};
use std::alloc::Global;

/// The least value of the variable of the loop with a number, and how far the greatest one is above it.
#[derive(Clone, Copy)]
pub struct Range {
    pub number: u32,
    pub least: i32,
    pub width: u32,
}

fn literal_number(expr: &Expr) -> Option<i32>
    ensures { result ≡ literal_number_lem (expr_tree expr.now) }
{
    match expr {
        Expr::Lit {
            value,
            kind: Kind::Index,
        } => {
            if *value < 2147483648 {
                Some(*value as i32)
            } else {
                None
            }
        }
        _ => None,
    }
}

fn signed_number(expr: &Expr) -> Option<i32>
    ensures { result ≡ signed_number_lem (expr_tree expr.now) }
{
    match expr {
        Expr::Neg(inner) => match literal_number(inner.get()) {
            Some(number) => number.checked_neg(),
            None => None,
        },
        _ => literal_number(expr),
    }
}

fn step_number(step: &Option<Expr>) -> Option<i32>
    ensures { result ≡ step_number_lem (step_tree step.now) }
{
    match step {
        Some(step) => literal_number(step),
        None => Some(1),
    }
}

/// How far the last turn's value is from the first one's.
fn turned_width(gap: u32, step: u32) -> u32
    requires { 0 < step }
    ensures { result ≡ gap - gap % step }
{
    gap - gap % step
}

#[tactic(auto, using(crate::proofs::RangeLists::no_turn, crate::proofs::RangeLists::no_step, crate::proofs::RangeLists::turning, crate::proofs::RangeLists::positive))]
fn range_of(number: u32, first: i32, last: i32, step: i32) -> Option<Range>
    ensures { option_map range_told result ≡ range_of_lem number first last step }
{
    if last < first {
        return None;
    }
    if step <= 0 {
        return None;
    }
    let width = turned_width(last.abs_diff(first), step.unsigned_abs());
    Some(Range {
        number,
        least: first,
        width,
    })
}

fn loop_range(number: u32, first: &Expr, last: &Expr, step: &Option<Expr>) -> Option<Range>
    ensures { option_map range_told result ≡ loop_range_lem number (expr_tree first.now) (expr_tree last.now) (step_tree step.now) }
{
    match signed_number(first) {
        Some(first) => match signed_number(last) {
            Some(last) => match step_number(step) {
                Some(step) => range_of(number, first, last, step),
                None => None,
            },
            None => None,
        },
        None => None,
    }
}

fn push_range(range: Option<Range>, ranges: &mut Items<Range>) -> Result<(), Memory>
    ensures { OnOk result (ranges_told ranges.new ≡ ranges_told ranges.old ++ listed (option_map range_told range)) }
{
    match range {
        Some(range) => {
            ranges.push(range)?;
            Ok(())
        }
        None => Ok(()),
    }
}

/// Adds the ranges of a statement's loops.
#[cycle(push_ranges)]
#[tactic(auto, using(crate::proofs::RangeLists::two_lists))]
fn push_ranges(stmt: &Stmt, ranges: &mut Items<Range>) -> Result<(), Memory>
    ensures { OnOk result (ranges_told ranges.new ≡ ranges_told ranges.old ++ ranges_by (stmt_tree stmt.now)) }
{
    match stmt {
        Stmt::Assign { .. } => Ok(()),
        Stmt::If { arms, other, .. } => {
            push_ranges_in_arms(arms.as_slice(), ranges)?;
            push_ranges_in(other.as_slice(), ranges)?;
            Ok(())
        }
        Stmt::Do {
            number,
            first,
            last,
            step,
            body,
            ..
        } => {
            push_range(loop_range(*number, first, last, step), ranges)?;
            push_ranges_in(body.as_slice(), ranges)?;
            Ok(())
        }
    }
}

#[cycle(push_ranges)]
fn push_ranges_in(stmts: &[Stmt], ranges: &mut Items<Range>) -> Result<(), Memory>
    ensures { OnOk result (ranges_told ranges.new ≡ ranges_told ranges.old ++ ranges_in (stmt_trees stmts.now)) }
{
    for i in 0..stmts.len() {
        push_ranges(&stmts[i], ranges)?;
    }
    Ok(())
}

#[cycle(push_ranges)]
fn push_ranges_in_arms(arms: &[Arm], ranges: &mut Items<Range>) -> Result<(), Memory>
    ensures { OnOk result (ranges_told ranges.new ≡ ranges_told ranges.old ++ ranges_in_arms (arm_trees arms.now)) }
{
    for i in 0..arms.len() {
        let arm = &arms[i];
        push_ranges_in(arm.body.as_slice(), ranges)?;
    }
    Ok(())
}

/// The ranges of the sequential loops in a parallel loop's statements: of those whose bounds and step are literals, and that have a turn.
pub fn ranges(alloc: Global, body: &[Stmt]) -> Result<Items<Range>, Memory>
    ensures ranges { IfOk result (λ all. ranges_told all ≡ ranges_in (stmt_trees body.now)) }
{
    let mut all = Items::new(alloc);
    push_ranges_in(body, &mut all)?;
    Ok(all)
}
