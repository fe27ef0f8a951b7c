//! Tokens, which the lexer makes and every reader of directives and programs takes.
#![tactic(auto)]

/// What a token is.
#[derive(Clone, Copy, Debug, PartialEq, Eq)]
pub enum TokenKind {
    /// A letter and then letters, digits and underscores.
    Word,
    /// Digits, with `_4` or `_8` behind them or not.
    Number { value: u64, suffix: Option<u8> },
    /// A sign of one or two bytes, as `(` or `**`.
    Mark,
    /// A word between dots, as `.and.`.
    Dots,
    /// `!$omp` as the first text of its line.
    Sentinel,
    /// The end of a line, or of a last line that has no line feed.
    LineEnd,
}

/// A token of a text: `start` and `end` are byte offsets, `line` and `col` its first byte's place, counted from 1.
#[derive(Clone, Copy, Debug, PartialEq, Eq)]
pub struct Token {
    pub line: u32,
    pub col: u32,
    pub start: u32,
    pub end: u32,
    pub kind: TokenKind,
}
