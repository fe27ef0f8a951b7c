//! Lines that an adjoint's text shares with programs.

ghost use Rattle.std.specs.Prelude.{◌<◌, ◌^◌};
ghost use Rattle.parsing.specs.Code.{Reads};
ghost use Rattle.fl_statements.specs.StmtReading as plain;
ghost use Rattle.adjoint_statements.specs.Rooms.{limits_of};

use crate::room::Room;
use fl_conditions::Judged;
use fl_statements::LoopLine;
use parsing::{Cursor, Failure};
use std::alloc::Global;

/// The first line of a loop.
#[tactic(auto, unfolding(fl_statements::specs::StmtReading::loop_line, fl_statements::specs::StmtReading::first_bound, fl_statements::specs::StmtReading::loop_step))]
pub fn loop_line(alloc: Global, tokens: &mut Cursor<'_>, room: Room) -> Result<LoopLine, Failure>
    requires { room.depth < 2 ^ 32 }
    ensures { Reads (plain.loop_line (limits_of room) tokens.old) result tokens.new }
{
    fl_statements::loop_line(alloc, tokens, room.limits())
}

/// A condition in brackets.
#[tactic(auto, unfolding(fl_statements::specs::StmtReading::guard))]
pub fn guard(alloc: Global, tokens: &mut Cursor<'_>, room: Room) -> Result<Judged, Failure>
    requires { room.depth < 2 ^ 32 }
    ensures { Reads (plain.guard (limits_of room) tokens.old) result tokens.new }
{
    fl_statements::guard(alloc, tokens, room.limits())
}
