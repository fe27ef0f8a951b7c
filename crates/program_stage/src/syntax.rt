ghost use Rattle.std.specs.Prelude.{◌+◌, ◌^◌, ◌<◌, length, IfOk};
ghost use Rattle.ending.specs.Stage.{IsPart, IsSaying};
ghost use Rattle.fl_ast.specs.Readable.{IsReadable};
ghost use Rattle.program_stage.specs.Parsing.{say_parse, say_clause, parsed_stage};
ghost use Rattle.tokens.specs.Spans.{Are_spans};
ghost use Rattle.tokens.specs.Spelled.{AreSpelled};

use crate::line::{refused_column, refused_line, refused_word};
use ending::Early;
use fl_ast::Program;
use fl_parser::{ClauseError, ParseError, parse};
use std::alloc::Global;
use tokens::Token;

/// What is said of a directive that isn't read.
fn clause_refused(alloc: Global, error: ClauseError) -> Early
    ensures { IsSaying (say_clause error) result }
{
    match error {
        ClauseError::Unknown { line, word } => {
            refused_word(alloc, line, b"unknown clause ", &word)
        }
        ClauseError::Twice { line, name } => refused_word(alloc, line, b"clause twice ", &name),
        ClauseError::Form { line } => refused_line(alloc, line, b"clause form"),
        ClauseError::Memory => Early::Memory,
    }
}

/// What is said of tokens that aren't parsed.
fn parse_refused(alloc: Global, error: ParseError) -> Early
    ensures { IsSaying (say_parse error) result }
{
    match error {
        ParseError::Expected { line, col } => refused_column(alloc, line, col, b"syntax"),
        ParseError::Deep { line } => refused_line(alloc, line, b"too deep"),
        ParseError::Many { line } => refused_line(alloc, line, b"too many"),
        ParseError::Construct { line, which } => refused_word(alloc, line, b"construct ", &which),
        ParseError::Clause(error) => clause_refused(alloc, error),
        ParseError::Memory => Early::Memory,
    }
}

/// The program that the tokens of a text spell.
pub(crate) fn program_of(alloc: Global, text: &[u8], tokens: &[Token]) -> Result<Program, Early>
    requires spans { Are_spans text.now tokens.now }
    requires fits { length text.now + 1 < 2 ^ 32 }
    requires spelled { AreSpelled text.now 0 tokens.now }
    ensures part { IsPart (λ program. program) (parsed_stage text.now tokens.now) result }
    ensures readable { IfOk result IsReadable }
{
    match parse(alloc, text, tokens) {
        Ok(program) => Ok(program),
        Err(error) => Err(parse_refused(alloc, error)),
    }
}
