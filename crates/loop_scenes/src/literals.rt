//! Bounds and steps that are literals.

ghost use Rattle.std.specs.Prelude.{◌≡◌, ◌/◌, ◌<◌, option_map, IfOk};
ghost use Rattle.fl_ast.specs.Tree.{expr_tree, step_tree, stmt_trees};
ghost use Rattle.fl_types.specs.Nests.{Head, further_head};
ghost use Rattle.index_forms.specs.Loops.{literal_number as literal_number_lem, signed_number as signed_number_lem, step_number as step_number_lem};
ghost use Rattle.loop_scenes.specs.Turns.{last_turn as last_turn_lem, last_turn_by, last_turn_of as last_turn_of_lem};
ghost use Rattle.loop_scenes.specs.Scened.{counter_of};
ghost use Rattle.loop_scenes.specs.Inner.{head_seen};

use crate::inner::InnerHead;
use fl_ast::{Expr, Kind, Name};
use fl_base::Memory;
use index_forms::Counter;
use std::alloc::Global;

fn literal_number(expr: &Expr) -> Option<i32>
    ensures { result ≡ literal_number_lem (expr_tree expr.now) }
{
    match expr {
        Expr::Lit {
            value,
            kind: Kind::Index,
        } => {
            if *value < 2147483648 {
                Some(*value as i32)
            } else {
                None
            }
        }
        _ => None,
    }
}

fn signed_number(expr: &Expr) -> Option<i32>
    ensures { result ≡ signed_number_lem (expr_tree expr.now) }
{
    match expr {
        Expr::Neg(inner) => match literal_number(inner.get()) {
            Some(number) => number.checked_neg(),
            None => None,
        },
        _ => literal_number(expr),
    }
}

fn step_number(step: &Option<Expr>) -> Option<i32>
    ensures { result ≡ step_number_lem (step_tree step.now) }
{
    match step {
        Some(step) => literal_number(step),
        None => Some(1),
    }
}

fn widened(number: Option<i32>) -> Option<i64>
    ensures { result ≡ number }
{
    match number {
        Some(number) => Some(i64::from(number)),
        None => None,
    }
}

/// A loop's variable with its first value and its step, where these are literals.
pub fn counter(
    alloc: Global,
    var: &Name,
    first: &Expr,
    step: &Option<Expr>,
) -> Result<Counter, Memory>
    ensures { IfOk result (λ c. c ≡ record { name = var.now; first = signed_number_lem (expr_tree first.now); step = step_number_lem (step_tree step.now) }) }
{
    let name = var.clone(alloc)?;
    Ok(Counter {
        name,
        first: widened(signed_number(first)),
        step: widened(step_number(step)),
    })
}

fn quotient(gap: u32, step: u32) -> u32
    requires { 0 < step }
    ensures { result ≡ gap / step }
{
    gap / step
}

#[tactic(auto, using(crate::proofs::Turning::no_turn, crate::proofs::Turning::no_step, crate::proofs::Turning::turning, crate::proofs::Turning::positive))]
fn last_turn(first: i32, last: i32, step: i32) -> Option<u32>
    ensures { result ≡ last_turn_lem first last step }
{
    if last < first {
        return None;
    }
    if step <= 0 {
        return None;
    }
    Some(quotient(last.abs_diff(first), step.unsigned_abs()))
}

fn last_turn_between(first: &Expr, last: &Expr, step: &Option<Expr>) -> Option<u32>
    ensures { result ≡ last_turn_by (signed_number_lem (expr_tree first.now)) (signed_number_lem (expr_tree last.now)) (step_number_lem (step_tree step.now)) }
{
    match signed_number(first) {
        Some(first) => match signed_number(last) {
            Some(last) => match step_number(step) {
                Some(step) => last_turn(first, last, step),
                None => None,
            },
            None => None,
        },
        None => None,
    }
}

/// The number of the last turn of the inner one of two collapsed loops, from 0, where its bounds and step are literals and there is a turn.
pub fn last_turn_of(inner: &Option<InnerHead<'_>>) -> Option<u32>
    ensures { result ≡ last_turn_of_lem (option_map head_seen inner.now) }
{
    match inner {
        Some(inner) => last_turn_between(inner.first, inner.last, inner.step),
        None => None,
    }
}
