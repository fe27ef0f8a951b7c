//! What statements are read into.

ghost use Rattle.std.specs.Prelude.{◌≡◌, ◌+◌, ◌<◌, ◌^◌, IfOk};
ghost use Rattle.fl_statements.specs.Trees as trees;

use fl_ast::{Directive, Expr, Place, Stmt};
use fl_base::{Boxed, Items, Memory, Name};
use fl_expressions::{Listed, Measured};
use parsing::Word;
use std::alloc::Global;

/// Which end directive may stand next.
#[derive(Clone, Copy, Debug, PartialEq, Eq)]
pub enum Awaited {
    Nothing,
    LoopEnd,
    AtomicEnd,
}

/// The statements of a block that are read, and how many statements and loops there are in the unit so far.
#[derive(Drop)]
pub struct Block {
    pub stmts: Items<Stmt>,
    pub count: usize,
    pub loops: u32,
    pub awaited: Awaited,
}

/// What an assignment sets.
#[derive(Drop)]
pub struct Target {
    pub line: u32,
    pub place: Place,
}

/// The first line of a loop.
#[derive(Drop)]
pub struct LoopLine {
    pub line: u32,
    pub var: Name,
    pub first: Boxed<Expr>,
    pub last: Boxed<Expr>,
    pub step: Option<Boxed<Expr>>,
}

/// A loop without its directive and its number.
#[derive(Drop)]
pub struct LoopParts {
    pub head: LoopLine,
    pub body: Block,
}

/// A block without statements, behind so many statements and loops of the unit.
pub fn block_from(alloc: Global, count: usize, loops: u32) -> Block
    ensures { result ≡ trees.block_from count loops }
{
    Block {
        stmts: Items::new(alloc),
        count,
        loops,
        awaited: Awaited::Nothing,
    }
}

pub fn scalar_target(alloc: Global, word: Word) -> Target
    ensures { result ≡ trees.scalar_target word }
{
    Target {
        line: word.line,
        place: Place {
            name: word.name,
            subscripts: Items::new(alloc),
        },
    }
}

pub fn element_target(word: Word, list: Listed) -> Target
    ensures { result ≡ trees.element_target word list }
{
    Target {
        line: word.line,
        place: Place {
            name: word.name,
            subscripts: list.exprs,
        },
    }
}

fn awaited_by(atomic: bool) -> Awaited
    ensures { result ≡ trees.awaited_by atomic }
{
    if atomic {
        Awaited::AtomicEnd
    } else {
        Awaited::Nothing
    }
}

/// With one more assignment.
pub fn assigned(
    mut found: Block,
    atomic: bool,
    target: Target,
    value: Measured,
) -> Result<Block, Memory>
    requires { found.count + 1 < 2 ^ 64 }
    ensures { IfOk result (λ x. x ≡ trees.assigned atomic found target value) }
{
    found.stmts.push(Stmt::Assign {
        line: target.line,
        atomic,
        target: target.place,
        value: value.expr.into_inner(),
    })?;
    found.count += 1;
    found.awaited = awaited_by(atomic);
    Ok(found)
}

pub fn loop_line_of(
    line: u32,
    word: Word,
    first: Measured,
    last: Measured,
    step: Option<Boxed<Expr>>,
) -> LoopLine
    ensures { result ≡ trees.loop_line_of (line, word) first last step }
{
    LoopLine {
        line,
        var: word.name,
        first: first.expr,
        last: last.expr,
        step,
    }
}

fn awaited_of(directive: &Option<Directive>) -> Awaited
    ensures { result ≡ trees.awaited_of directive.now }
{
    match directive {
        Some(_) => Awaited::LoopEnd,
        None => Awaited::Nothing,
    }
}

fn unboxed(step: Option<Boxed<Expr>>) -> Option<Expr>
    ensures { result ≡ step }
{
    match step {
        Some(e) => Some(e.into_inner()),
        None => None,
    }
}

/// With one more loop.
pub fn looped(
    mut found: Block,
    directive: Option<Directive>,
    parts: LoopParts,
) -> Result<Block, Memory>
    requires { found.loops + 1 < 2 ^ 32 }
    ensures { IfOk result (λ x. x ≡ trees.looped found directive parts) }
{
    let LoopParts { head, body } = parts;
    let awaited = awaited_of(&directive);
    found.stmts.push(Stmt::Do {
        line: head.line,
        number: found.loops + 1,
        directive,
        var: head.var,
        first: head.first.into_inner(),
        last: head.last.into_inner(),
        step: unboxed(head.step),
        body: body.stmts,
    })?;
    found.count = body.count;
    found.loops = body.loops;
    found.awaited = awaited;
    Ok(found)
}

/// Behind an end directive.
pub fn ended(mut found: Block) -> Block
    ensures { result ≡ trees.ended found }
{
    found.awaited = Awaited::Nothing;
    found
}
