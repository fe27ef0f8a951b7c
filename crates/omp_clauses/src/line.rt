//! Whole directives.

ghost use Rattle.std.specs.Prelude.{◌≡◌, ◌≢◌, length, map, true, Ok, IfOk, IfErr};
ghost use Rattle.fl_base.specs.Finds.{Finds};
ghost use Rattle.tokens.specs.Lexeme.{lexeme};
ghost use Rattle.tokens.specs.Spans.{Are_spans};
ghost use Rattle.tokens.specs.Spelled.{AreSpelled};
ghost use Rattle.parsing.specs.Refusal.{all_of};
ghost use Rattle.parsing.specs.Code.{Gives};
ghost use Rattle.omp_clauses.specs.declared.directive.DirectiveLine.{DirectiveLine};
ghost use Rattle.omp_clauses.specs.LineGrammar as grammar;
ghost use Rattle.omp_clauses.specs.LineReading as spec;
ghost use Rattle.omp_clauses.specs.Refused as refused;
ghost use Rattle.omp_clauses.specs.Refused.{directive_read, is_readable_line, Refuses};

use crate::directive::{DirectiveLine, directive_line};
use crate::error::{cause_at, error_of};
use fl_base::Memory;
use parsing::{Cause, ClauseError, Cursor, Failure};
use std::alloc::Global;
use tokens::Token;

fn whole(alloc: Global, text: &[u8], tokens: &[Token]) -> Result<DirectiveLine, Failure>
    requires { Are_spans text.now tokens.now }
    ensures { Gives (all_of (spec.directive_line true (map (lexeme text.now) tokens.now))) result }
{
    let mut cursor = Cursor::new(text, tokens);
    let found = directive_line(alloc, &mut cursor)?;
    if cursor.is_empty() {
        Ok(found)
    } else {
        Err(cursor.refuse(Cause::Expected))
    }
}

#[tactic(auto, unfolding(crate::specs::Refused::directive_read))]
fn read(alloc: Global, text: &[u8], tokens: &[Token]) -> Result<DirectiveLine, ClauseError>
    requires { Are_spans text.now tokens.now }
    ensures { Finds (λ d. d) ClauseError.Memory (directive_read text.now tokens.now) result }
{
    match whole(alloc, text, tokens) {
        Ok(line) => Ok(line),
        Err(Failure::Memory) => Err(ClauseError::Memory),
        Err(Failure::Refused(fault)) => Err(error_of(alloc, text, tokens, fault)?),
    }
}

/// Why the directive that begins with the first of these tokens is refused at the token from which on so many are left;
/// none where it isn't refused there. Other tokens may stand behind the directive.
#[tactic(auto, unfolding(crate::specs::Refused::own_cause))]
pub fn own_cause(
    alloc: Global,
    text: &[u8],
    tokens: &[Token],
    left: usize,
) -> Result<Option<Cause>, Memory>
    requires { Are_spans text.now tokens.now }
    ensures { IfOk result (λ c. c ≡ refused.own_cause text.now tokens.now left) }
{
    let mut cursor = Cursor::new(text, tokens);
    match directive_line(alloc, &mut cursor) {
        Ok(_) => Ok(None),
        Err(Failure::Memory) => Err(Memory),
        Err(Failure::Refused(fault)) => {
            if fault.left != left {
                return Ok(None);
            }
            let at = tokens.len().saturating_sub(left);
            Ok(Some(cause_at(text, tokens, at, fault.cause)))
        }
    }
}

/// The directive that these tokens of a text are, from its sentinel to the end of its line. Tokens that end before
/// are refused in the line of the last one, and so are tokens behind the line's end.
pub fn read_directive(
    alloc: Global,
    text: &[u8],
    tokens: &[Token],
) -> Result<DirectiveLine, ClauseError>
    requires spans { Are_spans text.now tokens.now }
    requires spelled { AreSpelled text.now 0 tokens.now }
    ensures read { Finds (λ d. d) ClauseError.Memory (directive_read text.now tokens.now) result }

    // What is read is spelled so, and what is spelled so is read.
    ensures found { IfOk result (λ d. grammar.directive_line true d (map (lexeme text.now) tokens.now)) }
    ensures only { (d : DirectiveLine) → grammar.directive_line true d (map (lexeme text.now) tokens.now) → Finds (λ d. d) ClauseError.Memory (Ok d) result }

    // Its names are names of variables, each once, and its numbers within their limits.
    ensures readable { IfOk result (λ d. is_readable_line d ≡ true) }

    // A refusal has the first place at which no directive goes on, and tells whether a repetition is why.
    ensures refused { IfErr result (λ e. e ≢ ClauseError.Memory → Refuses text.now tokens.now e) }
{
    read(alloc, text, tokens)
}
