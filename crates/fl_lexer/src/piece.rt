//! The piece that stands first in bytes outside comments.

ghost use Rattle.std.specs.Prelude.{◌≡◌, ◌<◌, ◌≤◌, ◌^◌, ◌∷◌, length, IfSome, drop, not, ◌==◌};
ghost use Rattle.std.specs.Option.{SomeIff};
ghost use Rattle.fl_lexer.specs.Pieces as spec;

use crate::bytes;
use tokens::TokenKind;

/// The longest name.
const NAME_LIMIT: usize = 63;

/// The greatest literal, 2^63-1.
const LITERAL_LIMIT: u64 = 9_223_372_036_854_775_807;

#[derive(Clone, Copy, Debug, PartialEq, Eq)]
pub enum PieceKind {
    Blank,
    Lexical(TokenKind),
    BadByte,
    LongName,
    WideLiteral,
}

#[derive(Clone, Copy, Debug, PartialEq, Eq)]
pub struct Piece {
    pub len: usize,
    pub kind: PieceKind,
}

/// The number that digits stand for, if it is a literal's.
fn value_of(digits: &[u8]) -> Option<u64>
    ensures { SomeIff result (spec.number_from 0 digits.now ≤ 9223372036854775807) (spec.number_from 0 digits.now) }
{
    let mut value: u64 = 0;
    for digit in digits {
        let digit = u64::from(digit.saturating_sub(b'0'));
        if value > (LITERAL_LIMIT - digit) / 10 {
            return None;
        }
        value = value * 10 + digit;
    }
    Some(value)
}

fn suffix_of(bytes: &[u8]) -> Option<u8>
    ensures { result ≡ spec.suffix_of bytes.now }
{
    match bytes {
        [b'_', size, ..] if *size == b'4' || *size == b'8' => Some(*size - b'0'),
        _ => None,
    }
}

fn number_of(bytes: &[u8]) -> Piece
    ensures { result ≡ spec.number_of bytes.now }
{
    let digits = bytes::digits(bytes);
    let (front, behind) = bytes.split_at(digits);
    let suffix = suffix_of(behind);
    let len = if suffix.is_some() { digits + 2 } else { digits };
    let kind = match value_of(front) {
        Some(value) => PieceKind::Lexical(TokenKind::Number { value, suffix }),
        None => PieceKind::WideLiteral,
    };
    Piece { len, kind }
}

fn name_of(len: usize) -> Piece
    ensures { result ≡ spec.name_of len }
{
    Piece {
        len,
        kind: if len <= NAME_LIMIT {
            PieceKind::Lexical(TokenKind::Word)
        } else {
            PieceKind::LongName
        },
    }
}

fn is_dot_word(word: &[u8]) -> bool
    ensures { result ≡ spec.is_dot_word word.now }
{
    word.eq_ignore_ascii_case(b"eq")
        || word.eq_ignore_ascii_case(b"ne")
        || word.eq_ignore_ascii_case(b"lt")
        || word.eq_ignore_ascii_case(b"le")
        || word.eq_ignore_ascii_case(b"gt")
        || word.eq_ignore_ascii_case(b"ge")
        || word.eq_ignore_ascii_case(b"and")
        || word.eq_ignore_ascii_case(b"or")
        || word.eq_ignore_ascii_case(b"not")
}

fn dots_of(behind: &[u8]) -> Piece
    ensures { result ≡ spec.dots_of behind.now }
{
    let letters = bytes::letters(behind);
    let (word, behind) = behind.split_at(letters);
    if is_dot_word(word) && behind.first() == Some(&b'.') {
        Piece {
            len: letters + 2,
            kind: PieceKind::Lexical(TokenKind::Dots),
        }
    } else {
        Piece {
            len: 1,
            kind: PieceKind::BadByte,
        }
    }
}

fn mark_of(first: u8, behind: &[u8]) -> Piece
    ensures { result ≡ spec.mark_of first behind.now }
{
    let pair = match behind {
        [] => false,
        [second, ..] => bytes::is_pair(first, *second),
    };
    Piece {
        len: if pair { 2 } else { 1 },
        kind: PieceKind::Lexical(TokenKind::Mark),
    }
}

/// The piece that stands first, as long as can be.
#[tactic(auto, unfolding(crate::specs::Pieces::piece_of))]
pub fn first_piece(bytes: &[u8]) -> Piece
    requires { length bytes.now < 2 ^ 32 }
    ensures { result ≡ spec.piece_of bytes.now }
{
    let [first, behind @ ..] = bytes else {
        return Piece {
            len: 0,
            kind: PieceKind::Blank,
        };
    };
    let first = *first;
    if bytes::is_blank(first) {
        Piece {
            len: 1,
            kind: PieceKind::Blank,
        }
    } else if first.is_ascii_alphabetic() {
        name_of(1 + bytes::word(behind))
    } else if first.is_ascii_digit() {
        number_of(bytes)
    } else if first == b'.' {
        dots_of(behind)
    } else if bytes::is_mark(first) {
        mark_of(first, behind)
    } else {
        Piece {
            len: 1,
            kind: PieceKind::BadByte,
        }
    }
}
