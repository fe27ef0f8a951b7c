//! The unit of an adjoint.

ghost use Rattle.std.specs.Prelude.{◌<◌, ◌^◌};
ghost use Rattle.parsing.specs.Code.{Reads};
ghost use Rattle.adjoint_statements.specs.Rooms.{limits_of};
ghost use Rattle.fl_parser.specs.UnitReading as plain;
ghost use Rattle.adjoint_parser.specs.AdjointReading as spec;

use adjoint_statements::{Block, Room, block_from, stmts};
use fl_ast::{AdjointText, Decl};
use fl_base::Items;
use fl_parser::{end_unit, unit_head};
use parsing::{Cursor, Failure};
use std::alloc::Global;

/// Declarations, of which there may be any number.
#[tactic(auto, unfolding(fl_parser::specs::UnitReading::decls, fl_parser::specs::UnitReading::decl, fl_parser::specs::UnitReading::items, fl_parser::specs::UnitReading::another_item))]
fn decls(alloc: Global, tokens: &mut Cursor<'_>, room: Room) -> Result<Items<Decl>, Failure>
    ensures { Reads (plain.decls (limits_of room) tokens.old) result tokens.new }
{
    fl_parser::decls(alloc, tokens, room.limits())
}

/// The statements of an adjoint.
#[tactic(auto, unfolding(crate::specs::AdjointReading::body))]
fn body(alloc: Global, tokens: &mut Cursor<'_>, room: Room) -> Result<Block, Failure>
    requires { room.depth < 2 ^ 32 }
    ensures { Reads (spec.body (limits_of room) tokens.old) result tokens.new }
{
    let start = block_from(alloc, 0);
    stmts(alloc, tokens, room, room.blocks, false, start)
}

/// A unit.
#[tactic(auto, unfolding(crate::specs::AdjointReading::unit))]
pub fn unit(alloc: Global, tokens: &mut Cursor<'_>, room: Room) -> Result<AdjointText, Failure>
    requires { room.depth < 2 ^ 32 }
    ensures { Reads (spec.unit (limits_of room) tokens.old) result tokens.new }
{
    let head = unit_head(alloc, tokens)?;
    let decls = decls(alloc, tokens, room)?;
    let body = body(alloc, tokens, room)?.stmts;
    let _end = end_unit(tokens, &head.name)?;
    Ok(AdjointText {
        name: head.name,
        args: head.args,
        decls,
        body,
    })
}
