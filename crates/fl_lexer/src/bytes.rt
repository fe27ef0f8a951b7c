//! Classes of bytes, and how far each goes.

ghost use Rattle.std.specs.Prelude.{◌≡◌, ◌≤◌, length, not, ◌==◌, codes};
ghost use Rattle.std.specs.List.{prefix_len, position_or_len, suffix_len};
ghost use Rattle.fl_lexer.specs.Bytes as spec;

/// A blank or a tab.
pub fn is_blank(byte: u8) -> bool
    ensures { result ≡ spec.is_blank byte }
{
    byte == b' ' || byte == b'\t'
}

/// A letter, digit or underscore.
pub fn is_word(byte: u8) -> bool
    ensures { result ≡ spec.is_word byte }
{
    byte.is_ascii_alphabetic() || byte.is_ascii_digit() || byte == b'_'
}

/// A mark of one byte, or the first of two.
pub fn is_mark(byte: u8) -> bool
    ensures { result ≡ spec.is_mark byte }
{
    byte == b'('
        || byte == b')'
        || byte == b','
        || byte == b'='
        || byte == b'+'
        || byte == b'-'
        || byte == b'*'
        || byte == b'/'
        || byte == b'<'
        || byte == b'>'
        || byte == b':'
        || byte == b'&'
}

/// Whether two marks are one token, as `::` and `/=` (Fortran 2018, 6.2.1).
pub fn is_pair(first: u8, second: u8) -> bool
    ensures { result ≡ spec.is_pair first second }
{
    (second == b'=' && (first == b'=' || first == b'/' || first == b'<' || first == b'>'))
        || (first == b'*' && second == b'*')
        || (first == b':' && second == b':')
}

/// Whether the byte is this small letter or its capital.
pub fn is_either(byte: u8, letter: u8) -> bool
    ensures { result ≡ spec.is_either byte letter }
{
    byte.to_ascii_lowercase() == letter
}

/// How many blanks stand first.
pub fn blanks(bytes: &[u8]) -> usize
    ensures value { result ≡ prefix_len spec.is_blank bytes.now }
    ensures within { result ≤ length bytes.now }
{
    bytes.iter().take_while(|byte| is_blank(**byte)).count()
}

/// How many blanks stand last.
pub fn blanks_behind(bytes: &[u8]) -> usize
    ensures value { result ≡ suffix_len spec.is_blank bytes.now }
    ensures within { result ≤ length bytes.now }
{
    bytes
        .iter()
        .rev()
        .take_while(|byte| is_blank(**byte))
        .count()
}

/// How many letters, digits and underscores stand first.
pub fn word(bytes: &[u8]) -> usize
    ensures value { result ≡ prefix_len spec.is_word bytes.now }
    ensures within { result ≤ length bytes.now }
{
    bytes.iter().take_while(|byte| is_word(**byte)).count()
}

pub fn letters(bytes: &[u8]) -> usize
    ensures value { result ≡ prefix_len spec.is_letter bytes.now }
    ensures within { result ≤ length bytes.now }
{
    bytes
        .iter()
        .take_while(|byte| byte.is_ascii_alphabetic())
        .count()
}

pub fn digits(bytes: &[u8]) -> usize
    ensures value { result ≡ prefix_len spec.is_digit bytes.now }
    ensures within { result ≤ length bytes.now }
{
    bytes
        .iter()
        .take_while(|byte| byte.is_ascii_digit())
        .count()
}

/// How many bytes stand before the first `!`.
pub fn before_comment(bytes: &[u8]) -> usize
    ensures value { result ≡ position_or_len spec.is_bang bytes.now }
    ensures within { result ≤ length bytes.now }
{
    bytes.iter().take_while(|byte| **byte != b'!').count()
}

/// How many bytes stand before the first line feed.
pub fn before_line_feed(bytes: &[u8]) -> usize
    ensures value { result ≡ position_or_len spec.is_line_feed bytes.now }
    ensures within { result ≤ length bytes.now }
{
    bytes.iter().take_while(|byte| **byte != b'\n').count()
}
