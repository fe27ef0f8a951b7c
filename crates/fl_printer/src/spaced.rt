//! Tokens with their spacing.

ghost use Rattle.std.specs.Prelude.{◌≡◌, ◌++◌, ◌∷◌, [], OnOk, decimal, false};
ghost use Rattle.fl_printer.specs.Words as spec;

use fl_base::{Items, Memory, Name};
use itoa::Buffer;
use std::alloc::Global;

/// A token, and whether a blank stands before it.
#[derive(Drop)]
pub struct Spaced {
    pub blank: bool,
    pub text: Name,
}

/// Adds a token.
pub fn word(alloc: Global, line: &mut Items<Spaced>, blank: bool, text: &[u8]) -> Result<(), Memory>
    ensures { OnOk result (line.new ≡ line.old ++ spec.spaced blank text.now ∷ []) }
{
    let text = Name::of(alloc, text)?;
    line.push(Spaced { blank, text })
}

/// Adds a token right behind the one before it.
pub fn joined(alloc: Global, line: &mut Items<Spaced>, text: &[u8]) -> Result<(), Memory>
    ensures { OnOk result (line.new ≡ line.old ++ spec.joined text.now ∷ []) }
{
    word(alloc, line, false, text)
}

/// Adds a token with a blank before it.
pub fn apart(alloc: Global, line: &mut Items<Spaced>, text: &[u8]) -> Result<(), Memory>
    ensures { OnOk result (line.new ≡ line.old ++ spec.apart text.now ∷ []) }
{
    word(alloc, line, true, text)
}

/// Adds a number with its suffix.
pub fn number(
    alloc: Global,
    line: &mut Items<Spaced>,
    blank: bool,
    value: u64,
    suffix: &[u8],
) -> Result<(), Memory>
    ensures { OnOk result (line.new ≡ line.old ++ spec.spaced blank (decimal value ++ suffix.now) ∷ []) }
{
    let mut buffer = Buffer::new();
    let mut text = Vec::from_slice(alloc, buffer.format(value).as_bytes())?;
    text.extend_from_slice(suffix)?;
    let text = Name::from_vec(text);
    line.push(Spaced { blank, text })
}

/// Adds a number without a suffix.
pub fn plain_number(
    alloc: Global,
    line: &mut Items<Spaced>,
    blank: bool,
    value: u32,
) -> Result<(), Memory>
    ensures { OnOk result (line.new ≡ line.old ++ spec.spaced blank (decimal value) ∷ []) }
{
    let mut buffer = Buffer::new();
    word(alloc, line, blank, buffer.format(value).as_bytes())
}

/// Adds a comma before all elements of a list but the first.
pub fn comma(alloc: Global, line: &mut Items<Spaced>, later: bool) -> Result<(), Memory>
    ensures { OnOk result (line.new ≡ line.old ++ spec.comma_if later) }
{
    if later {
        joined(alloc, line, b",")
    } else {
        Ok(())
    }
}

/// Opens the bracket of an operand.
pub fn open(
    alloc: Global,
    line: &mut Items<Spaced>,
    operand: bool,
    blank: bool,
) -> Result<(), Memory>
    ensures { OnOk result (line.new ≡ line.old ++ spec.opening operand blank) }
{
    if operand {
        word(alloc, line, blank, b"(")
    } else {
        Ok(())
    }
}

/// Closes it.
pub fn close(alloc: Global, line: &mut Items<Spaced>, operand: bool) -> Result<(), Memory>
    ensures { OnOk result (line.new ≡ line.old ++ spec.closing operand) }
{
    if operand {
        joined(alloc, line, b")")
    } else {
        Ok(())
    }
}

/// Adds names, with commas between them.
pub fn names(
    alloc: Global,
    line: &mut Items<Spaced>,
    blank: bool,
    names: &[Name],
) -> Result<(), Memory>
    ensures { OnOk result (line.new ≡ line.old ++ spec.names_from false blank names.now) }
{
    let mut later = false;
    let mut blank = blank;
    for name in names {
        comma(alloc, line, later).and(word(alloc, line, blank, name.bytes()))?;
        later = true;
        blank = true;
    }
    Ok(())
}

/// Adds names in brackets.
pub fn bracketed_names(alloc: Global, line: &mut Items<Spaced>, list: &[Name]) -> Result<(), Memory>
    ensures { OnOk result (line.new ≡ line.old ++ spec.bracketed_names list.now) }
{
    joined(alloc, line, b"(")
        .and(names(alloc, line, false, list))
        .and(joined(alloc, line, b")"))
}
