//! What statements are read into.

ghost use Rattle.std.specs.Prelude.{◌≡◌, IfOk};
ghost use Rattle.fl_statements.specs.Trees as plain;
ghost use Rattle.adjoint_statements.specs.Trees as trees;

use adjoint_expressions::AMeasured;
use fl_ast::{AStmt, Directive, Expr};
use fl_base::{Boxed, Items, Memory};
use fl_expressions::Measured;
use fl_statements::{Awaited, LoopLine, Target};
use std::alloc::Global;

/// The statements of a block that are read, and how many loops there are in the unit so far.
#[derive(Drop)]
pub struct Block {
    pub stmts: Items<AStmt>,
    pub loops: u32,
    pub awaited: Awaited,
}

/// A loop without its directive and its number.
#[derive(Drop)]
pub struct LoopParts {
    pub head: LoopLine,
    pub body: Block,
}

/// A block without statements, behind so many loops of the unit.
pub fn block_from(alloc: Global, loops: u32) -> Block
    ensures { result ≡ trees.block_from loops }
{
    Block {
        stmts: Items::new(alloc),
        loops,
        awaited: Awaited::Nothing,
    }
}

/// The number of the loop behind so many. It stays at the greatest, which a text of fewer than 2^32 bytes should never reach; no
/// contract says so.
pub fn next_loop(loops: u32) -> u32
    ensures { result ≡ trees.next_loop loops }
{
    if loops < u32::MAX { loops + 1 } else { loops }
}

fn awaited_by(atomic: bool) -> Awaited
    ensures { result ≡ plain.awaited_by atomic }
{
    if atomic {
        Awaited::AtomicEnd
    } else {
        Awaited::Nothing
    }
}

fn with(mut found: Block, stmt: AStmt, awaited: Awaited) -> Result<Block, Memory>
    ensures { IfOk result (λ x. x ≡ trees.with_stmt found stmt awaited) }
{
    found.stmts.push(stmt)?;
    found.awaited = awaited;
    Ok(found)
}

/// With one more assignment.
pub fn assigned(
    found: Block,
    atomic: bool,
    target: Target,
    value: AMeasured,
) -> Result<Block, Memory>
    ensures { IfOk result (λ x. x ≡ trees.assigned atomic found target value) }
{
    with(
        found,
        AStmt::Assign {
            line: target.line,
            atomic,
            target: target.place,
            value: value.expr.into_inner(),
        },
        awaited_by(atomic),
    )
}

/// With one more push.
pub fn pushed(found: Block, line: u32, key: Measured, value: Measured) -> Result<Block, Memory>
    ensures { IfOk result (λ x. x ≡ trees.pushed found line key value) }
{
    with(
        found,
        AStmt::Push {
            line,
            key: key.expr.into_inner(),
            value: value.expr.into_inner(),
        },
        Awaited::Nothing,
    )
}

/// With one more pop.
pub fn popped(found: Block, line: u32, key: Measured, target: Target) -> Result<Block, Memory>
    ensures { IfOk result (λ x. x ≡ trees.popped found line key target) }
{
    with(
        found,
        AStmt::Pop {
            line,
            key: key.expr.into_inner(),
            target: target.place,
        },
        Awaited::Nothing,
    )
}

/// With one more list of tapes that is opened.
pub fn opened(found: Block, line: u32, count: Measured) -> Result<Block, Memory>
    ensures { IfOk result (λ x. x ≡ trees.opened found line count) }
{
    with(
        found,
        AStmt::Open {
            line,
            count: count.expr.into_inner(),
        },
        Awaited::Nothing,
    )
}

/// With one more list of tapes that is closed.
pub fn closed(found: Block, line: u32) -> Result<Block, Memory>
    ensures { IfOk result (λ x. x ≡ trees.closed found line) }
{
    with(found, AStmt::Close { line }, Awaited::Nothing)
}

fn awaited_of(directive: &Option<Directive>) -> Awaited
    ensures { result ≡ plain.awaited_of directive.now }
{
    match directive {
        Some(_) => Awaited::LoopEnd,
        None => Awaited::Nothing,
    }
}

fn unboxed(step: Option<Boxed<Expr>>) -> Option<Expr>
    ensures { result ≡ step }
{
    match step {
        Some(e) => Some(e.into_inner()),
        None => None,
    }
}

/// With one more loop.
pub fn looped(
    mut found: Block,
    directive: Option<Directive>,
    parts: LoopParts,
) -> Result<Block, Memory>
    ensures { IfOk result (λ x. x ≡ trees.looped found directive parts) }
{
    let LoopParts { head, body } = parts;
    let awaited = awaited_of(&directive);
    found.stmts.push(AStmt::Do {
        line: head.line,
        number: next_loop(found.loops),
        directive,
        var: head.var,
        first: head.first.into_inner(),
        last: head.last.into_inner(),
        step: unboxed(head.step),
        body: body.stmts,
    })?;
    found.loops = body.loops;
    found.awaited = awaited;
    Ok(found)
}

/// Behind an end directive.
pub fn ended(mut found: Block) -> Block
    ensures { result ≡ trees.ended found }
{
    found.awaited = Awaited::Nothing;
    found
}
