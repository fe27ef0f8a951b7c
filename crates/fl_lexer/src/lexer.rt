//! Reading a text, line by line and piece by piece.

ghost use Rattle.std.specs.Prelude.{◌≡◌, ◌≢◌, ◌==◌, ◌&&◌, if◌then◌else◌, ◌<◌, ◌≤◌, ◌+◌, ◌-◌, ◌^◌, [], ◌∷◌, ◌++◌, length, drop, false, List, map, Ok, IfOk, IfErr};
ghost use Rattle.fl_base.specs.Finds.{Finds};
ghost use Rattle.tokens.specs.Spans.{Are_spans};
ghost use Rattle.tokens.specs.Spelled.{AreSpelled};
ghost use Rattle.fl_lexer.specs.Reading as spec;
ghost use Rattle.fl_lexer.specs.Spelling.{Spells};
ghost use Rattle.fl_lexer.specs.Placement.{InOrder};
ghost use Rattle.fl_lexer.specs.Printing.{Printed, ArePrinted, printed, printed_tokens, printed_lexemes};
ghost use Rattle.tokens.specs.Lexeme.{lexeme};
ghost use Rattle.fl_lexer.specs.Refusals.{refusals, IsFirst};
ghost use Rattle.fl_lexer.specs.Reading.{Reads, Gives};
ghost use Rattle.fl_lexer.specs.Bytes.{is_blank, begins};
ghost use Rattle.std.specs.List.{prefix_len};
ghost use Rattle.fl_lexer.specs.Lines.{lines, view, ending_len, class_of};

use crate::bytes;
use crate::error::{Halt, LexError, Refusal};
use crate::line::{self, Line, LineClass, LinePlace};
use crate::piece::{self, Piece, PieceKind};
use std::alloc::Global;
use tokens::{Token, TokenKind};

/// The longest line, its end not counted.
const LINE_LIMIT: usize = 1024;

fn token(place: LinePlace, at: usize, len: usize, kind: TokenKind) -> Token
    requires { place.start + at + len < u32.MAX }
    ensures { result ≡ spec.token place at len kind }
{
    Token {
        line: place.line,
        col: (at + 1) as u32,
        start: (place.start + at) as u32,
        end: (place.start + at + len) as u32,
        kind,
    }
}

fn refused(place: LinePlace, at: usize, error: LexError) -> Halt
    requires { place.start + at < u32.MAX }
    ensures { result ≡ Halt.Refused (record { at = place.start + at; error = error }) }
{
    Halt::Refused(Refusal {
        at: place.start + at,
        error,
    })
}

fn bad_byte(place: LinePlace, at: usize) -> Halt
    requires { place.start + at < u32.MAX }
    ensures { result ≡ Halt.Refused (record { at = place.start + at; error = LexError.BadByte place.line (at + 1) }) }
{
    let line = place.line;
    let col = (at + 1) as u32;
    refused(place, at, LexError::BadByte { line, col })
}

fn with_piece(
    tokens: &mut Vec<Token>,
    place: LinePlace,
    at: usize,
    piece: Piece,
) -> Result<(), Halt>
    requires { place.start + at + piece.len < u32.MAX }
    ensures { Reads (spec.with_piece place at tokens.old.items piece.len piece.kind) result tokens.new.items }
{
    let line = place.line;
    match piece.kind {
        PieceKind::Blank => Ok(()),
        PieceKind::Lexical(kind) => {
            tokens.push(token(place, at, piece.len, kind))?;
            Ok(())
        }
        PieceKind::BadByte => Err(bad_byte(place, at)),
        PieceKind::LongName => Err(refused(place, at, LexError::LongName { line })),
        PieceKind::WideLiteral => Err(refused(place, at, LexError::WideLiteral { line })),
    }
}

/// Adds the tokens of bytes that stand in the line from a byte on.
fn pieces(
    tokens: &mut Vec<Token>,
    place: LinePlace,
    skipped: usize,
    from: usize,
    bytes: &[u8],
) -> Result<(), Halt>
    requires room { place.start + from + length bytes.now < u32.MAX }
    requires few { skipped ≤ 1 }
    ensures { Reads (spec.pieces place skipped from bytes.now tokens.old.items) result tokens.new.items }
{
    let mut at = skipped;
    while at < bytes.len() {
        let piece = piece::first_piece(&bytes[at..]);
        with_piece(tokens, place, from + at, piece)?;
        at += piece.len;
    }
    Ok(())
}

/// Adds the end of a line whose text doesn't go on.
#[tactic(auto, unfolding(crate::specs::Reading::ended))]
fn ended(
    tokens: &mut Vec<Token>,
    place: LinePlace,
    class: LineClass,
    from: usize,
    line: &Line<'_>,
    behind: &[u8],
) -> Result<(), Halt>
    requires room { place.start + length line.now.bytes.now + ending_len line.now.ending < u32.MAX }
    requires within { from ≤ length line.now.bytes.now }
    ensures { Reads (spec.ended place class from (view line.now) (lines behind.now) tokens.old.items) result tokens.new.items }
{
    let text = line::text_from(line.bytes, from);
    if line::goes_on(text) {
        if line::continues(class, line::next_class(behind)) {
            return Ok(());
        }
        let at = from + (line::trimmed_len(text) - 1);
        let line = place.line;
        return Err(refused(place, at, LexError::OpenContinuation { line }));
    }
    let end = token(
        place,
        line.bytes.len(),
        line.ending.len(),
        TokenKind::LineEnd,
    );
    tokens.push(end)?;
    Ok(())
}

/// Adds the tokens of a line's text from a byte on, and what is behind it.
#[tactic(auto, unfolding(crate::specs::Reading::text))]
fn text(
    tokens: &mut Vec<Token>,
    place: LinePlace,
    class: LineClass,
    from: usize,
    skipped: usize,
    line: &Line<'_>,
    behind: &[u8],
) -> Result<(), Halt>
    requires room { place.start + length line.now.bytes.now + ending_len line.now.ending < u32.MAX }
    requires within { from ≤ length line.now.bytes.now }
    requires few { skipped ≤ 1 }
    ensures { Reads (spec.text place class from skipped (view line.now) (lines behind.now) tokens.old.items) result tokens.new.items }
{
    let body = line::body_of(line::text_from(line.bytes, from));
    pieces(tokens, place, skipped, from, body)?;
    ended(tokens, place, class, from, line, behind)
}

/// How many bytes of a continuing line's text don't count: the `&` that it begins with.
fn joint(continued: bool, text: &[u8]) -> usize
    ensures { result ≡ (if continued && begins (λ b. b == 38) text.now then 1 else 0) }
{
    match text {
        [b'&', ..] if continued => 1,
        _ => 0,
    }
}

/// Adds the tokens of a directive's line. Its sentinel is one but where a directive goes on.
#[tactic(auto, unfolding(crate::specs::Reading::directive))]
fn directive(
    tokens: &mut Vec<Token>,
    place: LinePlace,
    continued: bool,
    from: usize,
    line: &Line<'_>,
    behind: &[u8],
) -> Result<(), Halt>
    requires room { place.start + length line.now.bytes.now + ending_len line.now.ending < u32.MAX }
    requires sentinel { from + 5 ≤ length line.now.bytes.now }
    ensures { Reads (spec.directive place continued from (view line.now) (lines behind.now) tokens.old.items) result tokens.new.items }
{
    if !continued {
        tokens.push(token(place, from, line::SENTINEL_LEN, TokenKind::Sentinel))?;
    }
    text(
        tokens,
        place,
        LineClass::Directive,
        from + line::SENTINEL_LEN,
        0,
        line,
        behind,
    )
}

/// Adds the tokens of a line of this class.
#[tactic(auto, unfolding(crate::specs::Reading::of_class))]
fn of_class(
    tokens: &mut Vec<Token>,
    place: LinePlace,
    continued: bool,
    class: LineClass,
    line: &Line<'_>,
    behind: &[u8],
) -> Result<(), Halt>
    requires room { place.start + length line.now.bytes.now + ending_len line.now.ending < u32.MAX }
    requires sentinel { class ≡ LineClass.Directive → prefix_len is_blank line.now.bytes.now + 5 ≤ length line.now.bytes.now }
    ensures { Reads (spec.of_class place continued class (view line.now) (lines behind.now) tokens.old.items) result tokens.new.items }
{
    let from = bytes::blanks(line.bytes);
    match class {
        LineClass::Empty => Ok(()),
        LineClass::Conditional => Err(bad_byte(place, from)),
        LineClass::Statement => {
            let skipped = joint(continued, &line.bytes[from..]);
            text(tokens, place, class, from, skipped, line, behind)
        }
        LineClass::Directive => directive(tokens, place, continued, from, line, behind),
    }
}

/// The limit on a line's bytes: one more is refused where nothing before it is.
fn sooner(place: LinePlace, outcome: Result<(), Halt>) -> Result<(), Halt>
    requires { place.start + 1024 < u32.MAX }
    ensures { (reading : spec.Reading) (ts : spec.Tokens) → Reads reading outcome ts → Reads (spec.sooner place reading) result ts }
{
    let line = place.line;
    match outcome {
        Err(Halt::Memory) => Err(Halt::Memory),
        Err(Halt::Refused(refusal)) if refusal.at < place.start + LINE_LIMIT => {
            Err(Halt::Refused(refusal))
        }
        _ => Err(refused(place, LINE_LIMIT, LexError::LongLine { line })),
    }
}

/// Adds the tokens of a line.
#[tactic(auto, unfolding(crate::specs::Reading::one_line, crate::specs::Reading::within_limit))]
fn one_line(
    tokens: &mut Vec<Token>,
    place: LinePlace,
    continued: bool,
    class: LineClass,
    line: &Line<'_>,
    behind: &[u8],
) -> Result<(), Halt>
    requires room { place.start + length line.now.bytes.now + ending_len line.now.ending < u32.MAX }
    requires is { class ≡ class_of line.now.bytes.now }
    requires sentinel { class ≡ LineClass.Directive → prefix_len is_blank line.now.bytes.now + 5 ≤ length line.now.bytes.now }
    ensures { Reads (spec.one_line place continued (view line.now) (lines behind.now) tokens.old.items) result tokens.new.items }
{
    let outcome = of_class(tokens, place, continued, class, line, behind);
    if line.bytes.len() > LINE_LIMIT {
        sooner(place, outcome)
    } else {
        outcome
    }
}

/// Whether the next line that has text continues the line.
fn leaves_open(continued: bool, class: LineClass, line: &[u8]) -> bool
    requires { class ≡ LineClass.Directive → prefix_len is_blank line.now + 5 ≤ length line.now }
    ensures { result ≡ spec.leaves_open continued class line.now }
{
    let blanks = bytes::blanks(line);
    match class {
        LineClass::Empty => continued,
        LineClass::Conditional => false,
        LineClass::Statement => line::goes_on(line::text_from(line, blanks)),
        LineClass::Directive => {
            line::goes_on(line::text_from(line, blanks + line::SENTINEL_LEN))
        }
    }
}

fn after(place: LinePlace, line: &Line<'_>) -> LinePlace
    requires count { place.line < u32.MAX }
    requires room { place.start + length line.now.bytes.now + ending_len line.now.ending < u32.MAX }
    ensures { result ≡ spec.after place (view line.now) }
{
    LinePlace {
        line: place.line + 1,
        start: place.start + line.bytes.len() + line.ending.len(),
    }
}

fn all_lines(alloc: Global, text: &[u8]) -> Result<Vec<Token>, Halt>
    requires { length text.now < u32.MAX }
    ensures { Gives (spec.all_lines spec.first_place false (lines text.now) []) result }
{
    let mut tokens = Vec::new(alloc);
    let mut place = LinePlace { line: 1, start: 0 };
    let mut continued = false;
    let mut rest = text;
    while !rest.is_empty() {
        let (line, behind) = line::first_line(rest);
        let class = line::class_of(line.bytes);
        one_line(&mut tokens, place, continued, class, &line, behind)?;
        continued = leaves_open(continued, class, line.bytes);
        place = after(place, &line);
        rest = behind;
    }
    Ok(tokens)
}

#[tactic(auto, unfolding(crate::specs::Reading::lexed))]
fn tokens_of(alloc: Global, text: &[u8]) -> Result<Vec<Token>, LexError>
    requires { length text.now < u32.MAX }
    ensures { Finds (λ v. v.items) LexError.Memory (spec.lexed text.now) result }
{
    match all_lines(alloc, text) {
        Ok(tokens) => Ok(tokens),
        Err(Halt::Memory) => Err(LexError::Memory),
        Err(Halt::Refused(refusal)) => Err(refusal.error),
    }
}

/// The tokens of a text, or the first place at which it is refused. Names keep their letters. A token lies on
/// one line (Fortran 2018, 6.3.2.4): a name or number that is divided by `&` is two.
pub fn lex(alloc: Global, text: &[u8]) -> Result<Vec<Token>, LexError>
    requires { length text.now < u32.MAX }
    ensures exact { Finds (λ v. v.items) LexError.Memory (spec.lexed text.now) result }

    // What is read is spelled so, and what is spelled so is read.
    ensures found { IfOk result (λ v. Spells text.now v.items) }
    ensures only { (ts : spec.Tokens) → Spells text.now ts → Finds (λ v. v.items) LexError.Memory (Ok ts) result }

    // It is read exactly where no rule refuses anything in it. Else the first place that one refuses decides.
    ensures accepted { IfOk result (λ _. refusals text.now ≡ []) }
    ensures refused { IfErr result (λ e. e ≢ LexError.Memory → IsFirst (refusals text.now) e) }

    // Each token is its slice of the text, in order.
    ensures in_order { IfOk result (λ v. InOrder text.now 0 v.items) }
    ensures spans { IfOk result (λ v. Are_spans text.now v.items) }
    ensures spelled { IfOk result (λ v. AreSpelled text.now 0 v.items) }
{
    tokens_of(alloc, text)
}

/// A text that a printer writes is read back: the tokens of its lines, each at its place, whatever blanks stand
/// between them where none could be longer.
pub fn printed_is_read_back()
    ensures tokens { (ls : List Printed) → ArePrinted ls → spec.lexed (printed ls) ≡ Ok (printed_tokens spec.first_place false ls) }
    ensures lexemes { (ls : List Printed) → map (lexeme (printed ls)) (printed_tokens spec.first_place false ls) ≡ printed_lexemes 1 false ls }
{}
