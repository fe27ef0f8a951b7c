//! Assignments.

ghost use Rattle.std.specs.Prelude.{◌<◌, ◌^◌};
ghost use Rattle.parsing.specs.Code.{Reads};
ghost use Rattle.parsing.specs.Limit.{less};
ghost use Rattle.adjoint_expressions.specs.AdjointReading as exprs;
ghost use Rattle.fl_statements.specs.StmtReading as plain;
ghost use Rattle.adjoint_statements.specs.Rooms.{limits_of};
ghost use Rattle.adjoint_statements.specs.AdjointStmtReading as spec;

use crate::block::{Block, assigned};
use crate::room::Room;
use adjoint_expressions::{AMeasured, adjoint_expr};
use fl_statements::{Target, after_target};
use parsing::{Cursor, Failure, Symbol, Word};
use std::alloc::Global;

/// What is assigned, behind its name.
#[tactic(auto, unfolding(fl_statements::specs::StmtReading::after_target, fl_statements::specs::StmtReading::indexed_target))]
pub fn target(
    alloc: Global,
    tokens: &mut Cursor<'_>,
    room: Room,
    word: Word,
) -> Result<Target, Failure>
    requires { room.depth < 2 ^ 32 }
    ensures { Reads (plain.after_target (limits_of room) word tokens.old) result tokens.new }
{
    after_target(alloc, tokens, room.limits(), word)
}

/// An expression with all brackets and levels.
fn value(alloc: Global, tokens: &mut Cursor<'_>, room: Room) -> Result<AMeasured, Failure>
    requires { room.depth < 2 ^ 32 }
    ensures { Reads (exprs.adjoint_expr (limits_of room).brackets (less (limits_of room).depth) tokens.old) result tokens.new }
{
    Ok(adjoint_expr(alloc, tokens, room.brackets, room.depth.saturating_sub(1))?)
}

#[tactic(auto, unfolding(crate::specs::AdjointStmtReading::right_side))]
fn right_side(alloc: Global, tokens: &mut Cursor<'_>, room: Room) -> Result<AMeasured, Failure>
    requires { room.depth < 2 ^ 32 }
    ensures { Reads (spec.right_side (limits_of room) tokens.old) result tokens.new }
{
    let _equals = tokens.mark(Symbol::Equals)?;
    let value = value(alloc, tokens, room)?;
    let _eol = tokens.mark(Symbol::LineEnd)?;
    Ok(value)
}

/// An assignment to this name.
#[tactic(auto, unfolding(crate::specs::AdjointStmtReading::assign_to))]
pub fn assign_to(
    alloc: Global,
    tokens: &mut Cursor<'_>,
    room: Room,
    atomic: bool,
    found: Block,
    word: Word,
) -> Result<Block, Failure>
    requires { room.depth < 2 ^ 32 }
    ensures { Reads (spec.assign_to (limits_of room) atomic found word tokens.old) result tokens.new }
{
    let target = target(alloc, tokens, room, word)?;
    let value = right_side(alloc, tokens, room)?;
    Ok(assigned(found, atomic, target, value)?)
}

#[tactic(auto, unfolding(crate::specs::AdjointStmtReading::assign))]
pub fn assign(
    alloc: Global,
    tokens: &mut Cursor<'_>,
    room: Room,
    atomic: bool,
    found: Block,
) -> Result<Block, Failure>
    requires { room.depth < 2 ^ 32 }
    ensures { Reads (spec.assign (limits_of room) atomic found tokens.old) result tokens.new }
{
    let word = tokens.name(alloc)?;
    assign_to(alloc, tokens, room, atomic, found, word)
}
