ghost use Rattle.std.specs.Prelude.{◌≡◌, ◌≢◌, Err, map, length, IfOk, IsTrue, ◌↔◌, [], ◌≤◌, bytes_eq};
ghost use Rattle.std.specs.Str.{str_to_ascii_lowercase};
ghost use Rattle.tokens.specs.Lexeme.{lexeme};
ghost use Rattle.tokens.specs.Spans.{Are_spans};
ghost use Rattle.parsing.specs.Reading as reading;
ghost use Rattle.parsing.specs.Symbol as symbol;
ghost use Rattle.parsing.specs.Terminal as terminal;
ghost use Rattle.parsing.specs.Code.{Reads};

use crate::fault::{Cause, Failure, Fault};
use crate::symbol::Symbol;
use fl_base::{Memory, Name};
use std::alloc::Global;
use std::marker::Model;
use tokens::{Token, TokenKind};

/// A word and the line that it stands in.
#[derive(Debug, Drop)]
pub struct Word {
    pub line: u32,
    pub name: Name,
}

/// A number, and the `4` or `8` behind it.
#[derive(Clone, Copy, Debug, PartialEq, Eq)]
pub struct Number {
    pub value: u64,
    pub suffix: Option<u8>,
}

/// The tokens of a text that are still to be read.
#[derive(Drop)]
pub struct Cursor<'a> {
    text: &'a [u8],
    rest: &'a [Token],
    ahead: Option<Symbol>,
}

impl<'a> Model for Cursor<'a> {
    ghost use Rattle.std.specs.Prelude.{List, map, ◌≡◌};
    ghost use Rattle.tokens.specs.Lexeme.{Lexeme, lexeme};
    ghost use Rattle.tokens.specs.Spans.{Are_spans};
    ghost use Rattle.parsing.specs.Reading.{ahead as symbol_ahead};

    ghost Value = { List Lexeme };

    ghost view = { λ c. map (lexeme c.text.now) c.rest.now };

    ghost invariant = { λ c. Are_spans c.text.now c.rest.now × (c.ahead ≡ symbol_ahead (map (lexeme c.text.now) c.rest.now)) };
}

/// The text of a token.
fn text_of<'a>(text: &'a [u8], token: Token) -> &'a [u8]
    requires start { token.start ≤ token.end }
    requires end { token.end ≤ length text.now }
    ensures { str_to_ascii_lowercase result.now ≡ (lexeme text.now token).bytes }
{
    &text[token.start as usize..token.end as usize]
}

/// A name of these letters, all in lower case.
fn lowered(alloc: Global, text: &[u8]) -> Result<Name, Memory>
    ensures { IfOk result (λ name. name ≡ str_to_ascii_lowercase text.now) }
{
    Ok(Name::from_vec(text.to_ascii_lowercase(alloc)?))
}

/// Whether two texts have the same letters, in either case.
fn is_same(text: &[u8], other: &[u8]) -> bool
    ensures { result ≡ bytes_eq (str_to_ascii_lowercase text.now) (str_to_ascii_lowercase other.now) }
{
    text.eq_ignore_ascii_case(other)
}

/// The symbol of a token of the text.
pub fn symbol_of(text: &[u8], token: Token) -> Symbol
    requires start { token.start ≤ token.end }
    requires end { token.end ≤ length text.now }
    ensures { result ≡ symbol.symbol_of (lexeme text.now token) }
{
    Symbol::of(token.kind, text_of(text, token))
}

/// The bytes of a token of the text, all letters in lower case.
pub fn lowered_text(alloc: Global, text: &[u8], token: Token) -> Result<Name, Memory>
    requires start { token.start ≤ token.end }
    requires end { token.end ≤ length text.now }
    ensures { IfOk result (λ name. name ≡ (lexeme text.now token).bytes) }
{
    lowered(alloc, text_of(text, token))
}

fn first_symbol(text: &[u8], rest: &[Token]) -> Option<Symbol>
    requires { Are_spans text.now rest.now }
    ensures { result ≡ reading.ahead (map (lexeme text.now) rest.now) }
{
    match rest {
        [] => None,
        [token, ..] => Some(symbol_of(text, *token)),
    }
}

impl<'a> Cursor<'a> {
    pub fn new(text: &'a [u8], tokens: &'a [Token]) -> Cursor<'a>
        requires { Are_spans text.now tokens.now }
        ensures { result ≡ map (lexeme text.now) tokens.now }
    {
        Cursor {
            text,
            rest: tokens,
            ahead: first_symbol(text, tokens),
        }
    }

    /// How many tokens are left.
    pub fn len(&self) -> usize
        ensures { result ≡ length self.now }
    {
        self.rest.len()
    }

    pub fn is_empty(&self) -> bool
        ensures { IsTrue result ↔ (self.now ≡ []) }
    {
        self.rest.is_empty()
    }

    /// The refusal of the next token.
    pub fn refuse(&self, cause: Cause) -> Failure
        ensures { result ≡ Failure.Refused (reading.fault cause self.now) }
    {
        Failure::Refused(Fault {
            cause,
            left: self.rest.len(),
        })
    }

    /// The next token's symbol.
    pub fn ahead(&self) -> Option<Symbol>
        ensures { result ≡ reading.ahead self.now }
    {
        self.ahead
    }

    pub fn sees(&self, symbol: Symbol) -> bool
        ensures { result ≡ reading.sees (terminal.is symbol) self.now }
    {
        match self.ahead {
            Some(ahead) => symbol.is(ahead),
            None => false,
        }
    }

    /// Takes a token of this symbol, and gives its line.
    pub fn mark(&mut self, symbol: Symbol) -> Result<u32, Failure>
        ensures reads { Reads (reading.token (terminal.marked symbol) self.old) result self.new }
        ensures sure { result ≢ Err Failure.Memory }
    {
        match self.rest {
            [token, rest @ ..] if self.sees(symbol) => {
                let line = token.line;
                self.rest = rest;
                self.ahead = first_symbol(self.text, rest);
                Ok(line)
            }
            _ => Err(self.refuse(Cause::Expected)),
        }
    }

    /// Takes a number.
    pub fn number(&mut self) -> Result<Number, Failure>
        ensures reads { Reads (reading.token terminal.number self.old) result self.new }
        ensures sure { result ≢ Err Failure.Memory }
    {
        if let [token, rest @ ..] = self.rest {
            if let TokenKind::Number { value, suffix } = token.kind {
                self.rest = rest;
                self.ahead = first_symbol(self.text, rest);
                return Ok(Number { value, suffix });
            }
        }
        Err(self.refuse(Cause::Expected))
    }

    /// Takes a number that is at most so much.
    pub fn small_number(&mut self, most: u64) -> Result<Number, Failure>
        ensures reads { Reads (reading.token (terminal.small_number most) self.old) result self.new }
        ensures value { IfOk result (λ n. n.value ≤ most) }
        ensures sure { result ≢ Err Failure.Memory }
    {
        if let [token, rest @ ..] = self.rest {
            if let TokenKind::Number { value, suffix } = token.kind {
                if value <= most {
                    self.rest = rest;
                    self.ahead = first_symbol(self.text, rest);
                    return Ok(Number { value, suffix });
                }
            }
        }
        Err(self.refuse(Cause::Expected))
    }

    /// Takes a number that is at most so much and has no suffix `_8`.
    pub fn plain_number(&mut self, most: u64) -> Result<Number, Failure>
        ensures reads { Reads (reading.token (terminal.plain_number most) self.old) result self.new }
        ensures value { IfOk result (λ n. n.value ≤ most) }
        ensures sure { result ≢ Err Failure.Memory }
    {
        if let [token, rest @ ..] = self.rest {
            if let TokenKind::Number { value, suffix } = token.kind {
                if value <= most {
                    if suffix != Some(8) {
                        self.rest = rest;
                        self.ahead = first_symbol(self.text, rest);
                        return Ok(Number { value, suffix });
                    }
                }
            }
        }
        Err(self.refuse(Cause::Expected))
    }

    /// Takes a name of a variable.
    pub fn name(&mut self, alloc: Global) -> Result<Word, Failure>
        ensures reads { Reads (reading.token terminal.name self.old) result self.new }
        ensures wanting { result ≡ Err Failure.Memory → IsTrue (reading.sees (terminal.on terminal.names) self.old) }
    {
        if let [token, rest @ ..] = self.rest {
            if let Some(ahead) = self.ahead {
                if ahead.names() {
                    let line = token.line;
                    let name = lowered(alloc, text_of(self.text, *token))?;
                    self.rest = rest;
                    self.ahead = first_symbol(self.text, rest);
                    return Ok(Word { line, name });
                }
            }
        }
        Err(self.refuse(Cause::Expected))
    }

    /// Takes any word.
    pub fn word(&mut self, alloc: Global) -> Result<Word, Failure>
        ensures reads { Reads (reading.token terminal.word self.old) result self.new }
        ensures wanting { result ≡ Err Failure.Memory → IsTrue (reading.sees (terminal.on terminal.words) self.old) }
    {
        if let [token, rest @ ..] = self.rest {
            if let Some(ahead) = self.ahead {
                if ahead.words() {
                    let line = token.line;
                    let name = lowered(alloc, text_of(self.text, *token))?;
                    self.rest = rest;
                    self.ahead = first_symbol(self.text, rest);
                    return Ok(Word { line, name });
                }
            }
        }
        Err(self.refuse(Cause::Expected))
    }

    /// Takes the word that has these letters, in either case.
    pub fn same_word(&mut self, name: &Name) -> Result<(), Failure>
        ensures reads { Reads (reading.token (terminal.same_word name.now) self.old) result self.new }
        ensures sure { result ≢ Err Failure.Memory }
    {
        if let [token, rest @ ..] = self.rest {
            if let Some(ahead) = self.ahead {
                if ahead.words() && is_same(text_of(self.text, *token), name.bytes()) {
                    self.rest = rest;
                    self.ahead = first_symbol(self.text, rest);
                    return Ok(());
                }
            }
        }
        Err(self.refuse(Cause::Expected))
    }

    /// Whether a number comes that is spelled so.
    pub fn sees_spelled(&self, spelling: &[u8]) -> bool
        ensures { result ≡ reading.sees (terminal.spelled spelling.now) self.now }
    {
        if let [token, ..] = self.rest {
            if let Some(ahead) = self.ahead {
                return ahead.numbers() && is_same(text_of(self.text, *token), spelling);
            }
        }
        false
    }

    /// Takes the number that is spelled so.
    pub fn spelled_number(&mut self, spelling: &[u8]) -> Result<(), Failure>
        ensures reads { Reads (reading.token (terminal.spelled_number spelling.now) self.old) result self.new }
        ensures sure { result ≢ Err Failure.Memory }
    {
        if let [token, rest @ ..] = self.rest {
            if let Some(ahead) = self.ahead {
                if ahead.numbers() && is_same(text_of(self.text, *token), spelling) {
                    self.rest = rest;
                    self.ahead = first_symbol(self.text, rest);
                    return Ok(());
                }
            }
        }
        Err(self.refuse(Cause::Expected))
    }

    pub fn sees_name(&self) -> bool
        ensures { result ≡ reading.sees (terminal.on terminal.names) self.now }
    {
        match self.ahead {
            Some(ahead) => ahead.names(),
            None => false,
        }
    }

    pub fn sees_word(&self) -> bool
        ensures { result ≡ reading.sees (terminal.on terminal.words) self.now }
    {
        match self.ahead {
            Some(ahead) => ahead.words(),
            None => false,
        }
    }
}
