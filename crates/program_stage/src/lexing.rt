ghost use Rattle.std.specs.Prelude.{◌<◌, IfOk, length};
ghost use Rattle.ending.specs.Stage.{IsPart, IsSaying};
ghost use Rattle.program_stage.specs.Lexing.{say_lex, lexed_stage};
ghost use Rattle.tokens.specs.Spans.{Are_spans};
ghost use Rattle.tokens.specs.Spelled.{AreSpelled};

use crate::line::{refused_column, refused_line};
use ending::Early;
use fl_lexer::{LexError, lex};
use std::alloc::Global;
use tokens::Token;

/// What is said of a text that has no tokens.
fn lex_refused(alloc: Global, error: LexError) -> Early
    ensures { IsSaying (say_lex error) result }
{
    match error {
        LexError::BadByte { line, col } => refused_column(alloc, line, col, b"bad byte"),
        LexError::LongName { line } => refused_line(alloc, line, b"long name"),
        LexError::LongLine { line } => refused_line(alloc, line, b"long line"),
        LexError::OpenContinuation { line } => refused_line(alloc, line, b"open continuation"),
        LexError::WideLiteral { line } => refused_line(alloc, line, b"wide literal"),
        LexError::Memory => Early::Memory,
    }
}

/// The tokens of the program's text.
pub(crate) fn tokens_of(alloc: Global, text: &[u8]) -> Result<Vec<Token>, Early>
    requires { length text.now < u32.MAX }
    ensures part { IsPart (λ tokens. tokens.items) (lexed_stage text.now) result }
    ensures spans { IfOk result (λ tokens. Are_spans text.now tokens.items) }
    ensures spelled { IfOk result (λ tokens. AreSpelled text.now 0 tokens.items) }
{
    match lex(alloc, text) {
        Ok(tokens) => Ok(tokens),
        Err(error) => Err(lex_refused(alloc, error)),
    }
}
