//! Lines, and what each is.

ghost use Rattle.std.specs.Prelude.{◌≡◌, ◌≢◌, ◌<◌, ◌≤◌, ◌+◌, ◌-◌, ◌^◌, [], ◌∷◌, ◌++◌, length, drop, slice_index, IsTrue};
ghost use Rattle.std.specs.Bool.{OnTrue, OnFalse};
ghost use Rattle.std.specs.List.{before_first, prefix_len};
ghost use Rattle.fl_lexer.specs.Bytes.{is_blank};
ghost use Rattle.fl_lexer.specs.Lines as spec;

use crate::bytes;

/// The bytes of `!$omp`.
pub const SENTINEL_LEN: usize = 5;

/// How a line ends.
#[derive(Clone, Copy, Debug, PartialEq, Eq)]
pub enum Ending {
    /// Where the text ends.
    Missing,
    LineFeed,
    /// A carriage return and a line feed.
    CrLf,
}

impl Ending {
    pub fn len(self) -> usize
        ensures { result ≡ spec.ending_len self }
    {
        match self {
            Ending::Missing => 0,
            Ending::LineFeed => 1,
            Ending::CrLf => 2,
        }
    }
}

/// A line without its end.
#[derive(Clone, Copy, Debug)]
pub struct Line<'a> {
    pub bytes: &'a [u8],
    pub ending: Ending,
}

/// What a line is, by its first text.
#[derive(Clone, Copy, Debug, PartialEq, Eq)]
pub enum LineClass {
    /// No text, or a comment alone.
    Empty,
    /// `!$` with a blank or tab behind it, which is refused.
    Conditional,
    Statement,
    /// `!$omp` in any case, alone (OpenMP 5.2, 3.1.2).
    Directive,
}

/// A line's number and the offset of its first byte.
#[derive(Clone, Copy, Debug)]
pub struct LinePlace {
    pub line: u32,
    pub start: usize,
}

fn ends_in_return(front: &[u8]) -> bool
    ensures yes { OnTrue result ((0 < length front.now) × (slice_index front.now (length front.now - 1) ≡ 13)) }
    ensures no { OnFalse result (0 < length front.now → slice_index front.now (length front.now - 1) ≢ 13) }
{
    !front.is_empty() && front[front.len() - 1] == b'\r'
}

/// The line that these bytes and a line feed are.
fn with_feed(front: &[u8]) -> Line<'_>
    ensures line { spec.view result ≡ spec.with_feed front.now }
    ensures len { length result.bytes.now + spec.ending_len result.ending ≡ length front.now + 1 }
{
    if ends_in_return(front) {
        Line {
            bytes: &front[..front.len() - 1],
            ending: Ending::CrLf,
        }
    } else {
        Line {
            bytes: front,
            ending: Ending::LineFeed,
        }
    }
}

/// The first line of a text, and what follows it.
pub fn first_line(text: &[u8]) -> (Line<'_>, &[u8])
    requires { text.now ≢ [] }
    ensures lines { spec.lines text.now ≡ spec.view result.0 ∷ spec.lines result.1.now }
    ensures len { length result.0.bytes.now + spec.ending_len result.0.ending + length result.1.now ≡ length text.now }
    ensures shorter { length result.1.now < length text.now }
{
    let (front, back) = text.split_at(bytes::before_line_feed(text));
    if back.is_empty() {
        let line = Line {
            bytes: front,
            ending: Ending::Missing,
        };
        (line, back)
    } else {
        (with_feed(front), &back[1..])
    }
}

fn is_conditional(behind: &[u8]) -> bool
    ensures { result ≡ spec.is_conditional behind.now }
{
    match behind {
        [first, second, ..] => *first == b'$' && bytes::is_blank(*second),
        _ => false,
    }
}

fn ends_word(behind: &[u8]) -> bool
    ensures { result ≡ spec.ends_word behind.now }
{
    match behind {
        [] => true,
        [first, ..] => bytes::is_blank(*first),
    }
}

fn is_sentinel(behind: &[u8]) -> bool
    ensures { result ≡ spec.is_sentinel behind.now }
{
    match behind {
        [dollar, o, m, p, behind @ ..] => {
            *dollar == b'$'
                && bytes::is_either(*o, b'o')
                && bytes::is_either(*m, b'm')
                && bytes::is_either(*p, b'p')
                && ends_word(behind)
        }
        _ => false,
    }
}

fn class_of_bang(behind: &[u8]) -> LineClass
    ensures { result ≡ spec.class_of_bang behind.now }
{
    if is_sentinel(behind) {
        LineClass::Directive
    } else if is_conditional(behind) {
        LineClass::Conditional
    } else {
        LineClass::Empty
    }
}

fn class_of_text(text: &[u8]) -> LineClass
    ensures { result ≡ spec.class_of_text text.now }
{
    match text {
        [] => LineClass::Empty,
        [b'!', behind @ ..] => class_of_bang(behind),
        _ => LineClass::Statement,
    }
}

/// What a line is.
#[tactic(auto, unfolding(crate::specs::Lines::class_of))]
pub fn class_of(line: &[u8]) -> LineClass
    ensures value { result ≡ spec.class_of line.now }
    ensures sentinel { result ≡ LineClass.Directive → prefix_len is_blank line.now + 5 ≤ length line.now }
{
    let blanks = bytes::blanks(line);
    class_of_text(&line[blanks..])
}

/// What the first line is that has text.
pub fn next_class(text: &[u8]) -> LineClass
    ensures { result ≡ spec.next_class (spec.lines text.now) }
{
    let mut rest = text;
    while !rest.is_empty() {
        let (line, behind) = first_line(rest);
        match class_of(line.bytes) {
            LineClass::Empty => rest = behind,
            class => return class,
        }
    }
    LineClass::Empty
}

/// Whether a line of the class may continue one of this class.
pub fn continues(class: LineClass, next: LineClass) -> bool
    ensures { result ≡ spec.continues class next }
{
    match (class, next) {
        (LineClass::Directive, LineClass::Directive) => true,
        (LineClass::Statement, LineClass::Statement) => true,
        (LineClass::Statement, LineClass::Conditional) => true,
        _ => false,
    }
}

/// A line's text from a byte on, up to a comment.
pub fn text_from(line: &[u8], from: usize) -> &[u8]
    requires { from ≤ length line.now }
    ensures value { result.now ≡ spec.text_from from line.now }
    ensures within { from + length result.now ≤ length line.now }
{
    let text = &line[from..];
    let comment = bytes::before_comment(text);
    &text[..comment]
}

/// The length of a text without the blanks behind it.
pub fn trimmed_len(text: &[u8]) -> usize
    ensures value { result ≡ spec.trimmed_len text.now }
    ensures within { result ≤ length text.now }
{
    text.len() - bytes::blanks_behind(text)
}

/// Whether the last text is `&`.
#[tactic(auto, unfolding(crate::specs::Lines::goes_on))]
pub fn goes_on(text: &[u8]) -> bool
    ensures value { result ≡ spec.goes_on text.now }
    ensures some { IsTrue result → 0 < spec.trimmed_len text.now }
{
    let len = trimmed_len(text);
    len > 0 && text[len - 1] == b'&'
}

/// The text without the `&` at its end.
#[tactic(auto, unfolding(crate::specs::Lines::body_of))]
pub fn body_of(text: &[u8]) -> &[u8]
    ensures value { result.now ≡ spec.body_of text.now }
    ensures within { length result.now ≤ length text.now }
{
    if goes_on(text) {
        &text[..trimmed_len(text) - 1]
    } else {
        text
    }
}
