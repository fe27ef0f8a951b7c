//! Whole texts.

ghost use Rattle.std.specs.Prelude.{◌≡◌, ◌≢◌, ◌+◌, ◌<◌, ◌^◌, length, map, Ok, IfOk, IfErr};
ghost use Rattle.fl_ast.specs.declared.stmt.Program.{Program};
ghost use Rattle.fl_ast.specs.Readable.{IsReadable};
ghost use Rattle.fl_base.specs.Finds.{Finds};
ghost use Rattle.tokens.specs.Lexeme.{lexeme};
ghost use Rattle.tokens.specs.Spans.{Are_spans};
ghost use Rattle.tokens.specs.Spelled.{AreSpelled};
ghost use Rattle.parsing.specs.Refusal.{all_of};
ghost use Rattle.parsing.specs.Code.{Gives};
ghost use Rattle.fl_statements.specs.Limits.{limits_of, the_limits};
ghost use Rattle.fl_parser.specs.Parsed.{parsed};
ghost use Rattle.fl_parser.specs.Refuses.{Refuses};
ghost use Rattle.fl_parser.specs.UnitGrammar as grammar;
ghost use Rattle.fl_parser.specs.UnitReading as spec;

use crate::error::{ParseError, error_of};
use crate::unit::unit;
use fl_ast::Program;
use fl_statements::{Limits, PROGRAM};
use parsing::{Cause, Cursor, Failure};
use std::alloc::Global;
use tokens::Token;

fn whole(alloc: Global, text: &[u8], tokens: &[Token], limits: Limits) -> Result<Program, Failure>
    requires spans { Are_spans text.now tokens.now }
    requires shallow { limits.depth < 2 ^ 32 }
    requires few { limits.statements < 2 ^ 32 }
    ensures { Gives (all_of (spec.unit (limits_of limits) (map (lexeme text.now) tokens.now))) result }
{
    let mut cursor = Cursor::new(text, tokens);
    let found = unit(alloc, &mut cursor, limits)?;
    if cursor.is_empty() {
        Ok(found)
    } else {
        Err(cursor.refuse(Cause::Expected))
    }
}

#[tactic(auto, unfolding(crate::specs::Parsed::parsed))]
fn read(alloc: Global, text: &[u8], tokens: &[Token]) -> Result<Program, ParseError>
    requires spans { Are_spans text.now tokens.now }
    requires fits { length text.now + 1 < 2 ^ 32 }
    ensures { Finds (λ p. p) ParseError.Memory (parsed text.now tokens.now) result }
{
    match whole(alloc, text, tokens, PROGRAM) {
        Ok(program) => Ok(program),
        Err(Failure::Memory) => Err(ParseError::Memory),
        Err(Failure::Refused(fault)) => Err(error_of(alloc, text, tokens, fault)?),
    }
}

/// The program that the tokens of a text spell.
pub fn parse(alloc: Global, text: &[u8], tokens: &[Token]) -> Result<Program, ParseError>
    requires spans { Are_spans text.now tokens.now }
    requires fits { length text.now + 1 < 2 ^ 32 }
    requires spelled { AreSpelled text.now 0 tokens.now }
    ensures parsed { Finds (λ p. p) ParseError.Memory (parsed text.now tokens.now) result }

    // What is read is spelled so, and what is spelled so is read.
    ensures found { IfOk result (λ p. grammar.unit the_limits p (map (lexeme text.now) tokens.now)) }
    ensures only { (p : Program) → grammar.unit the_limits p (map (lexeme text.now) tokens.now) → Finds (λ p. p) ParseError.Memory (Ok p) result }

    // It is within the limits.
    ensures readable { IfOk result IsReadable }

    // A refusal has the first place at which no program goes on, and tells whether a limit is why.
    ensures refused { IfErr result (λ e. e ≢ ParseError.Memory → Refuses text.now tokens.now e) }
{
    read(alloc, text, tokens)
}
