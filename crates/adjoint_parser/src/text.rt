//! Whole texts.

ghost use Rattle.std.specs.Prelude.{◌≢◌, ◌+◌, ◌<◌, ◌^◌, length, map, Ok, IfOk, IfErr};
ghost use Rattle.fl_ast.specs.declared.adjoint.AdjointText.{AdjointText};
ghost use Rattle.fl_base.specs.Finds.{Finds};
ghost use Rattle.tokens.specs.Lexeme.{lexeme};
ghost use Rattle.tokens.specs.Spans.{Are_spans};
ghost use Rattle.tokens.specs.Spelled.{AreSpelled};
ghost use Rattle.parsing.specs.Refusal.{all_of};
ghost use Rattle.parsing.specs.Code.{Gives};
ghost use Rattle.adjoint_statements.specs.Rooms.{limits_of, the_limits};
ghost use Rattle.adjoint_parser.specs.Parsed.{parsed};
ghost use Rattle.adjoint_parser.specs.ReadableText.{IsReadableText};
ghost use Rattle.adjoint_parser.specs.Refuses.{Refuses};
ghost use Rattle.adjoint_parser.specs.AdjointGrammar as grammar;
ghost use Rattle.adjoint_parser.specs.AdjointReading as spec;

use crate::error::error_of;
use crate::unit::unit;
use adjoint_statements::{ADJOINT, Room};
use fl_ast::AdjointText;
use fl_parser::ParseError;
use parsing::{Cause, Cursor, Failure};
use std::alloc::Global;
use tokens::Token;

fn whole(alloc: Global, text: &[u8], tokens: &[Token], room: Room) -> Result<AdjointText, Failure>
    requires spans { Are_spans text.now tokens.now }
    requires shallow { room.depth < 2 ^ 32 }
    ensures { Gives (all_of (spec.unit (limits_of room) (map (lexeme text.now) tokens.now))) result }
{
    let mut cursor = Cursor::new(text, tokens);
    let found = unit(alloc, &mut cursor, room)?;
    if cursor.is_empty() {
        Ok(found)
    } else {
        Err(cursor.refuse(Cause::Expected))
    }
}

#[tactic(auto, unfolding(crate::specs::Parsed::parsed))]
fn read(alloc: Global, text: &[u8], tokens: &[Token]) -> Result<AdjointText, ParseError>
    requires spans { Are_spans text.now tokens.now }
    requires fits { length text.now + 1 < 2 ^ 32 }
    ensures { Finds (λ t. t) ParseError.Memory (parsed text.now tokens.now) result }
{
    match whole(alloc, text, tokens, ADJOINT) {
        Ok(found) => Ok(found),
        Err(Failure::Memory) => Err(ParseError::Memory),
        Err(Failure::Refused(fault)) => Err(error_of(alloc, text, tokens, fault)?),
    }
}

/// The adjoint that the tokens of a text spell.
pub fn parse_adjoint(
    alloc: Global,
    text: &[u8],
    tokens: &[Token],
) -> Result<AdjointText, ParseError>
    requires spans { Are_spans text.now tokens.now }
    requires fits { length text.now + 1 < 2 ^ 32 }
    ensures parsed { Finds (λ t. t) ParseError.Memory (parsed text.now tokens.now) result }

    // What is read is spelled so, and what is spelled so is read.
    ensures found { IfOk result (λ t. grammar.unit the_limits t (map (lexeme text.now) tokens.now)) }
    ensures only { (t : AdjointText) → grammar.unit the_limits t (map (lexeme text.now) tokens.now) → Finds (λ t. t) ParseError.Memory (Ok t) result }

    // Where the tokens spell the text, as those of the lexer do, it is within the limits.
    ensures readable { AreSpelled text.now 0 tokens.now → IfOk result IsReadableText }

    // A refusal has the first place at which no adjoint goes on, and tells whether a limit is why.
    ensures refused { IfErr result (λ e. e ≢ ParseError.Memory → Refuses text.now tokens.now e) }
{
    read(alloc, text, tokens)
}
