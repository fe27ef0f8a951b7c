//! Calls of the tape.

ghost use Rattle.std.specs.Prelude.{◌<◌, ◌^◌};
ghost use Rattle.parsing.specs.Code.{Reads};
ghost use Rattle.adjoint_statements.specs.Rooms.{limits_of};
ghost use Rattle.adjoint_statements.specs.AdjointStmtReading as spec;
ghost use Rattle.fl_statements.specs.StmtReading as plain;
ghost use Rattle.adjoint_statements.specs.Rooms.{narrower as narrower_lem};

use crate::assign::target;
use crate::block::{Block, closed, opened, popped, pushed};
use crate::room::Room;
use fl_expressions::{Measured, expr};
use fl_statements::Target;
use parsing::{Cursor, Failure, Symbol, Word};
use std::alloc::Global;

/// An expression in brackets that are open.
fn argument(alloc: Global, tokens: &mut Cursor<'_>, room: Room) -> Result<Measured, Failure>
    requires { room.depth < 2 ^ 32 }
    ensures { Reads (spec.argument (limits_of room) tokens.old) result tokens.new }
{
    Ok(expr(
        alloc,
        tokens,
        room.brackets.saturating_sub(1),
        room.depth.saturating_sub(1),
    )?)
}

/// The tape that a call names, with what stands around.
#[tactic(auto, unfolding(crate::specs::AdjointStmtReading::key))]
fn key(alloc: Global, tokens: &mut Cursor<'_>, room: Room) -> Result<Measured, Failure>
    requires { room.depth < 2 ^ 32 }
    ensures { Reads (spec.key (limits_of room) tokens.old) result tokens.new }
{
    let _open = tokens.mark(Symbol::Open)?;
    let key = argument(alloc, tokens, room)?;
    let _comma = tokens.mark(Symbol::Comma)?;
    Ok(key)
}

#[tactic(auto, unfolding(crate::specs::AdjointStmtReading::call_end))]
fn call_end(tokens: &mut Cursor<'_>) -> Result<u32, Failure>
    ensures { Reads (spec.call_end tokens.old) result tokens.new }
{
    let _close = tokens.mark(Symbol::Close)?;
    tokens.mark(Symbol::LineEnd)
}

#[tactic(auto, unfolding(crate::specs::AdjointStmtReading::last_argument))]
fn last_argument(alloc: Global, tokens: &mut Cursor<'_>, room: Room) -> Result<Measured, Failure>
    requires { room.depth < 2 ^ 32 }
    ensures { Reads (spec.last_argument (limits_of room) tokens.old) result tokens.new }
{
    let found = argument(alloc, tokens, room)?;
    let _end = call_end(tokens)?;
    Ok(found)
}

/// What is set, behind its name and in one bracket more.
fn target_within(
    alloc: Global,
    tokens: &mut Cursor<'_>,
    room: Room,
    word: Word,
) -> Result<Target, Failure>
    requires { room.depth < 2 ^ 32 }
    ensures { Reads (plain.after_target (narrower_lem (limits_of room)) word tokens.old) result tokens.new }
{
    let narrower = Room {
        brackets: room.brackets.saturating_sub(1),
        depth: room.depth,
        blocks: room.blocks,
    };
    target(alloc, tokens, narrower, word)
}

#[tactic(auto, unfolding(crate::specs::AdjointStmtReading::last_place))]
fn last_place(alloc: Global, tokens: &mut Cursor<'_>, room: Room) -> Result<Target, Failure>
    requires { room.depth < 2 ^ 32 }
    ensures { Reads (spec.last_place (limits_of room) tokens.old) result tokens.new }
{
    let word = tokens.name(alloc)?;
    let found = target_within(alloc, tokens, room, word)?;
    let _end = call_end(tokens)?;
    Ok(found)
}

#[tactic(auto, unfolding(crate::specs::AdjointStmtReading::push))]
fn push(
    alloc: Global,
    tokens: &mut Cursor<'_>,
    room: Room,
    found: Block,
    line: u32,
) -> Result<Block, Failure>
    requires { room.depth < 2 ^ 32 }
    ensures { Reads (spec.push (limits_of room) found line tokens.old) result tokens.new }
{
    let _word = tokens.mark(Symbol::FormadPush)?;
    let key = key(alloc, tokens, room)?;
    let value = last_argument(alloc, tokens, room)?;
    Ok(pushed(found, line, key, value)?)
}

#[tactic(auto, unfolding(crate::specs::AdjointStmtReading::pop))]
fn pop(
    alloc: Global,
    tokens: &mut Cursor<'_>,
    room: Room,
    found: Block,
    line: u32,
) -> Result<Block, Failure>
    requires { room.depth < 2 ^ 32 }
    ensures { Reads (spec.pop (limits_of room) found line tokens.old) result tokens.new }
{
    let _word = tokens.mark(Symbol::FormadPop)?;
    let key = key(alloc, tokens, room)?;
    let target = last_place(alloc, tokens, room)?;
    Ok(popped(found, line, key, target)?)
}

#[tactic(auto, unfolding(crate::specs::AdjointStmtReading::begin))]
fn begin(
    alloc: Global,
    tokens: &mut Cursor<'_>,
    room: Room,
    found: Block,
    line: u32,
) -> Result<Block, Failure>
    requires { room.depth < 2 ^ 32 }
    ensures { Reads (spec.begin (limits_of room) found line tokens.old) result tokens.new }
{
    let _word = tokens.mark(Symbol::FormadOpen)?;
    let _open = tokens.mark(Symbol::Open)?;
    let count = last_argument(alloc, tokens, room)?;
    Ok(opened(found, line, count)?)
}

#[tactic(auto, unfolding(crate::specs::AdjointStmtReading::finish))]
fn finish(tokens: &mut Cursor<'_>, room: Room, found: Block, line: u32) -> Result<Block, Failure>
    ensures { Reads (spec.finish (limits_of room) found line tokens.old) result tokens.new }
{
    let _word = tokens.mark(Symbol::FormadClose)?;
    let _open = tokens.mark(Symbol::Open)?;
    let _end = call_end(tokens)?;
    Ok(closed(found, line)?)
}

/// A call's word and all behind it.
#[tactic(auto, unfolding(crate::specs::AdjointStmtReading::called))]
fn called(
    alloc: Global,
    tokens: &mut Cursor<'_>,
    room: Room,
    found: Block,
    line: u32,
) -> Result<Block, Failure>
    requires { room.depth < 2 ^ 32 }
    ensures { Reads (spec.called (limits_of room) found line tokens.old) result tokens.new }
{
    if tokens.sees(Symbol::FormadPush) {
        return push(alloc, tokens, room, found, line);
    }
    if tokens.sees(Symbol::FormadPop) {
        return pop(alloc, tokens, room, found, line);
    }
    if tokens.sees(Symbol::FormadOpen) {
        return begin(alloc, tokens, room, found, line);
    }
    finish(tokens, room, found, line)
}

/// A call of the tape.
#[tactic(auto, unfolding(crate::specs::AdjointStmtReading::call))]
pub fn call(
    alloc: Global,
    tokens: &mut Cursor<'_>,
    room: Room,
    found: Block,
) -> Result<Block, Failure>
    requires { room.depth < 2 ^ 32 }
    ensures { Reads (spec.call (limits_of room) found tokens.old) result tokens.new }
{
    let line = tokens.mark(Symbol::Call)?;
    called(alloc, tokens, room, found, line)
}
