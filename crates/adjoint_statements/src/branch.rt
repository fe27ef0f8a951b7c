//! What an If is read into.

ghost use Rattle.std.specs.Prelude.{◌≡◌, IfOk};
ghost use Rattle.adjoint_statements.specs.Trees as trees;

use crate::block::Block;
use fl_ast::{AArm, AStmt, Cond};
use fl_base::{Boxed, Items, Memory};
use fl_statements::Awaited;
use std::alloc::Global;

/// The arms of an If that are read, and how many loops there are in the unit so far.
#[derive(Drop)]
pub struct Branch {
    pub line: u32,
    pub arms: Items<AArm>,
    pub other: Items<AStmt>,
    /// Whether the `else` is read, so that no arm follows.
    pub closed: bool,
    pub loops: u32,
}

fn arms_with(
    mut arms: Items<AArm>,
    test: Boxed<Cond>,
    body: Items<AStmt>,
) -> Result<Items<AArm>, Memory>
    ensures { IfOk result (λ x. x ≡ trees.arms_with arms test body) }
{
    arms.push(AArm {
        test: test.into_inner(),
        body,
    })?;
    Ok(arms)
}

/// An If with one arm.
pub fn first_branch(
    alloc: Global,
    line: u32,
    test: Boxed<Cond>,
    body: Block,
) -> Result<Branch, Memory>
    ensures { IfOk result (λ x. x ≡ trees.first_branch line test body) }
{
    let loops = body.loops;
    let arms = arms_with(Items::new(alloc), test, body.stmts)?;
    Ok(Branch {
        line,
        arms,
        other: Items::new(alloc),
        closed: false,
        loops,
    })
}

/// With one more arm.
pub fn with_arm(found: Branch, test: Boxed<Cond>, body: Block) -> Result<Branch, Memory>
    ensures { IfOk result (λ x. x ≡ trees.with_arm found test body) }
{
    let Branch {
        line,
        arms,
        other,
        closed,
        loops: _,
    } = found;
    let loops = body.loops;
    let arms = arms_with(arms, test, body.stmts)?;
    Ok(Branch {
        line,
        arms,
        other,
        closed,
        loops,
    })
}

/// With the statements behind `else`.
pub fn with_other(mut found: Branch, body: Block) -> Branch
    ensures { result ≡ trees.with_other found body }
{
    found.other = body.stmts;
    found.closed = true;
    found.loops = body.loops;
    found
}

/// With one more If.
pub fn branched(mut found: Block, branch: Branch) -> Result<Block, Memory>
    ensures { IfOk result (λ x. x ≡ trees.branched found branch) }
{
    found.stmts.push(AStmt::If {
        line: branch.line,
        arms: branch.arms,
        other: branch.other,
    })?;
    found.loops = branch.loops;
    found.awaited = Awaited::Nothing;
    Ok(found)
}
