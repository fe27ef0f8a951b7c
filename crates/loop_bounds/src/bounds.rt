//! The statements that keep bounds.

ghost use Rattle.std.specs.Prelude.{◌≡◌, ◌++◌, false, decimal, IfOk, OnOk, map};
ghost use Rattle.fl_ast.specs.Tree.{expr_tree, step_tree};
ghost use Rattle.fl_ast.specs.AdjointTree.{astmt_tree, aexpr_tree, adjoint_assignment, push as push_lem, pop as pop_lem};
ghost use Rattle.adjoint_rules.specs.Bounds as rules;
ghost use Rattle.adjoint_rules.specs.Expressions.{in_adjoint as in_adjoint_lem};
ghost use Rattle.adjoint_rules.specs.OwnNames as own;
ghost use Rattle.loop_bounds.specs.Heads.{head_of};

use crate::head::LoopHead;
use crate::own::{numbered_place, numbered_value};
use fl_ast::{AExpr, AStmt, Expr, Kind};
use fl_base::{Boxed, Items, Memory};
use reversal::in_adjoint;
use std::alloc::Global;

/// The assignment of a bound.
fn setting(
    alloc: Global,
    head: &LoopHead<'_>,
    word: &[u8],
    value: Boxed<AExpr>,
) -> Result<AStmt, Memory>
    ensures { IfOk result (λ s. astmt_tree s ≡ adjoint_assignment head.now.line false (own.scalar (word.now ++ decimal head.now.number)) (aexpr_tree value)) }
{
    let target = numbered_place(alloc, word, head.number)?;
    Ok(AStmt::Assign {
        line: head.line,
        atomic: false,
        target,
        value: value.into_inner(),
    })
}

/// The step, 1 where there is none.
fn step_of(alloc: Global, step: &Option<Expr>) -> Result<Boxed<AExpr>, Memory>
    ensures { IfOk result (λ e. aexpr_tree e ≡ in_adjoint_lem (rules.step_of (step_tree step.now))) }
{
    match step {
        None => {
            let one = AExpr::Lit {
                value: 1,
                kind: Kind::Index,
            };
            Boxed::new(alloc, one)
        }
        Some(step) => in_adjoint(alloc, step),
    }
}

/// Adds the assignments of a loop's bounds.
pub fn push_settings(
    alloc: Global,
    head: &LoopHead<'_>,
    statements: &mut Items<AStmt>,
) -> Result<(), Memory>
    ensures { OnOk result (map astmt_tree statements.new ≡ map astmt_tree statements.old ++ rules.settings (head_of head.now)) }
{
    let first = in_adjoint(alloc, head.first)?;
    statements.push(setting(alloc, head, b"formad_lo", first)?)?;
    let last = in_adjoint(alloc, head.last)?;
    statements.push(setting(alloc, head, b"formad_hi", last)?)?;
    let step = step_of(alloc, head.step)?;
    statements.push(setting(alloc, head, b"formad_by", step)?)
}

fn pushed(alloc: Global, key: &Expr, head: &LoopHead<'_>, word: &[u8]) -> Result<AStmt, Memory>
    ensures { IfOk result (λ s. astmt_tree s ≡ push_lem head.now.line (expr_tree key.now) (own.value (word.now ++ decimal head.now.number))) }
{
    let value = numbered_value(alloc, word, head.number)?;
    let key = key.clone(alloc)?;
    Ok(AStmt::Push {
        line: head.line,
        key,
        value: value.into_inner(),
    })
}

/// Adds the pushes of a loop's bounds.
pub fn push_pushes(
    alloc: Global,
    key: &Expr,
    head: &LoopHead<'_>,
    statements: &mut Items<AStmt>,
) -> Result<(), Memory>
    ensures { OnOk result (map astmt_tree statements.new ≡ map astmt_tree statements.old ++ rules.pushes (expr_tree key.now) (head_of head.now)) }
{
    statements.push(pushed(alloc, key, head, b"formad_lo")?)?;
    statements.push(pushed(alloc, key, head, b"formad_hi")?)?;
    statements.push(pushed(alloc, key, head, b"formad_by")?)
}

fn popped(alloc: Global, key: &Expr, head: &LoopHead<'_>, word: &[u8]) -> Result<AStmt, Memory>
    ensures { IfOk result (λ s. astmt_tree s ≡ pop_lem head.now.line (expr_tree key.now) (own.scalar (word.now ++ decimal head.now.number))) }
{
    let target = numbered_place(alloc, word, head.number)?;
    let key = key.clone(alloc)?;
    Ok(AStmt::Pop {
        line: head.line,
        key,
        target,
    })
}

/// Adds the pops of a loop's bounds, the last one first.
pub fn push_pops(
    alloc: Global,
    key: &Expr,
    head: &LoopHead<'_>,
    statements: &mut Items<AStmt>,
) -> Result<(), Memory>
    ensures { OnOk result (map astmt_tree statements.new ≡ map astmt_tree statements.old ++ rules.pops (expr_tree key.now) (head_of head.now)) }
{
    statements.push(popped(alloc, key, head, b"formad_by")?)?;
    statements.push(popped(alloc, key, head, b"formad_hi")?)?;
    statements.push(popped(alloc, key, head, b"formad_lo")?)
}
