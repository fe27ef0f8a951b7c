//! Loops around statements that are made.

ghost use Rattle.std.specs.Prelude.{◌≡◌, ◌++◌, ◌∷◌, [], List, Option, None, Some, IfOk, IsOkAnd, OnOk, map};
ghost use Rattle.fl_ast.specs.AdjointTree.{AdjointStatement, astmt_tree};
ghost use Rattle.adjoint_rules.specs.Bounds as rules;
ghost use Rattle.fl_ast.specs.declared.directive.Directive.{Directive};
ghost use Rattle.fl_ast.specs.Tree.{expr_tree, minus};
ghost use Rattle.loop_bounds.specs.Heads.{head_of};
ghost use Rattle.adjoint_loops.specs.Further.{heads_of};
ghost use Rattle.adjoint_loops.specs.Fronts as spec;

use fl_ast::{AStmt, Directive, Expr, Name};
use fl_base::{Boxed, Items, Memory};
use loop_bounds::{LoopHead, by, hi, last_value, lo};
use std::alloc::Global;

/// What stands before a loop's body.
#[derive(Drop)]
pub struct Front {
    pub var: Name,
    pub first: Boxed<Expr>,
    pub last: Boxed<Expr>,
    pub step: Boxed<Expr>,
}

/// From the first value to the last one.
pub fn forward_front(alloc: Global, head: &LoopHead<'_>) -> Result<Front, Memory>
    ensures { IfOk result (λ f. (d : Option Directive) → (body : List AdjointStatement) → spec.looped d (head_of head.now) f body
        ≡ rules.loop_over d (head_of head.now) (rules.lo (head_of head.now)) (rules.hi (head_of head.now)) (rules.by (head_of head.now)) body) }
{
    let first = lo(alloc, head)?;
    let last = hi(alloc, head)?;
    let step = by(alloc, head)?;
    let var = head.var.clone(alloc)?;
    Ok(Front {
        var,
        first,
        last,
        step,
    })
}

fn negated(alloc: Global, expr: Boxed<Expr>) -> Result<Boxed<Expr>, Memory>
    ensures { IfOk result (λ e. expr_tree e ≡ minus (expr_tree expr)) }
{
    Boxed::new(alloc, Expr::Neg(expr))
}

/// From the last turn's value to the first one.
pub fn backward_front(alloc: Global, head: &LoopHead<'_>) -> Result<Front, Memory>
    ensures { IfOk result (λ f. (d : Option Directive) → (body : List AdjointStatement) → spec.looped d (head_of head.now) f body
        ≡ rules.loop_over d (head_of head.now) (rules.last_value (head_of head.now)) (rules.lo (head_of head.now)) (minus (rules.by (head_of head.now))) body) }
{
    let first = last_value(alloc, head)?;
    let last = lo(alloc, head)?;
    let step = negated(alloc, by(alloc, head)?)?;
    let var = head.var.clone(alloc)?;
    Ok(Front {
        var,
        first,
        last,
        step,
    })
}

/// A loop with its body.
fn looped(
    directive: Option<Boxed<Directive>>,
    head: &LoopHead<'_>,
    front: Front,
    body: Items<AStmt>,
) -> AStmt
    ensures { astmt_tree result ≡ spec.looped directive (head_of head.now) front (map astmt_tree body) }
{
    let Front {
        var,
        first,
        last,
        step,
    } = front;
    AStmt::Do {
        line: head.line,
        number: head.number,
        directive: unboxed(directive),
        var,
        first: first.into_inner(),
        last: last.into_inner(),
        step: Some(step.into_inner()),
        body,
    }
}

fn unboxed(directive: Option<Boxed<Directive>>) -> Option<Directive>
    ensures { result ≡ directive }
{
    match directive {
        None => None,
        Some(directive) => Some(directive.into_inner()),
    }
}

/// Adds a loop without a directive.
pub fn push_looped(
    head: &LoopHead<'_>,
    front: Result<Front, Memory>,
    body: Items<AStmt>,
    statements: &mut Items<AStmt>,
) -> Result<(), Memory>
    ensures { OnOk result (IsOkAnd front (λ f. map astmt_tree statements.new ≡ map astmt_tree statements.old ++ spec.looped None (head_of head.now) f (map astmt_tree body) ∷ [])) }
{
    match front {
        Ok(front) => statements.push(looped(None, head, front, body)),
        Err(memory) => Err(memory),
    }
}

/// The statements within the outer loop: those of an iteration, in the inner loop where two are collapsed.
fn within(
    alloc: Global,
    further: &Option<LoopHead<'_>>,
    iteration: Items<AStmt>,
) -> Result<Items<AStmt>, Memory>
    ensures { IfOk result (λ ss. map astmt_tree ss ≡ spec.within (heads_of further.now) (map astmt_tree iteration)) }
{
    match further {
        None => Ok(iteration),
        Some(inner) => only(alloc, inner, iteration),
    }
}

/// A loop, from its first value to its last, as the one statement of a list.
fn only(alloc: Global, head: &LoopHead<'_>, body: Items<AStmt>) -> Result<Items<AStmt>, Memory>
    ensures { IfOk result (λ ss. map astmt_tree ss ≡ rules.loops_around None (head_of head.now) [] (map astmt_tree body) ∷ []) }
{
    let mut one = Items::new(alloc);
    push_looped(head, forward_front(alloc, head), body, &mut one)?;
    Ok(one)
}

/// Adds a parallel loop around the statements of an iteration.
pub fn push_around(
    alloc: Global,
    clauses: Boxed<Directive>,
    head: &LoopHead<'_>,
    further: &Option<LoopHead<'_>>,
    iteration: Items<AStmt>,
    statements: &mut Items<AStmt>,
) -> Result<(), Memory>
    ensures { OnOk result (map astmt_tree statements.new ≡ map astmt_tree statements.old
        ++ rules.loops_around (Some clauses) (head_of head.now) (heads_of further.now) (map astmt_tree iteration) ∷ []) }
{
    let body = within(alloc, further, iteration)?;
    let front = forward_front(alloc, head)?;
    statements.push(looped(Some(clauses), head, front, body))
}
