ghost use Rattle.std.specs.Prelude.{◌≡◌, ◌++◌, IfOk};
ghost use Rattle.ending.specs.declared.verdict.Verdict.TheVariants.{Refused};
ghost use Rattle.ending.specs.Stage.{IsSaid};
ghost use Rattle.program_stage.specs.Lines.{line_text as line_text_lem, column_text as column_text_lem};

use ending::{Early, Verdict};
use fl_base::Name;
use itoa::Buffer;
use std::alloc::{AllocError, Global};

fn line_text(alloc: Global, line: u32, phrase: &[u8]) -> Result<Vec<u8>, AllocError>
    ensures { IfOk result (λ text. text.items ≡ line_text_lem line phrase.now) }
{
    let mut buffer = Buffer::new();
    let mut text = Vec::from_slice(alloc, b"refused line ")?;
    text.extend_from_slice(buffer.format(line).as_bytes())?;
    text.extend_from_slice(b": ")?;
    text.extend_from_slice(phrase)?;
    text.extend_from_slice(b"\n")?;
    Ok(text)
}

/// A refusal at a line of the program.
pub(crate) fn refused_line(alloc: Global, line: u32, phrase: &[u8]) -> Early
    ensures { IsSaid Refused (line_text_lem line phrase.now) result }
{
    match line_text(alloc, line, phrase) {
        Ok(text) => Early::Said {
            verdict: Verdict::Refused,
            text,
        },
        Err(_) => Early::Memory,
    }
}

fn column_text(alloc: Global, line: u32, col: u32, phrase: &[u8]) -> Result<Vec<u8>, AllocError>
    ensures { IfOk result (λ text. text.items ≡ column_text_lem line col phrase.now) }
{
    let mut buffer = Buffer::new();
    let mut text = Vec::from_slice(alloc, b"refused line ")?;
    text.extend_from_slice(buffer.format(line).as_bytes())?;
    text.extend_from_slice(b" column ")?;
    text.extend_from_slice(buffer.format(col).as_bytes())?;
    text.extend_from_slice(b": ")?;
    text.extend_from_slice(phrase)?;
    text.extend_from_slice(b"\n")?;
    Ok(text)
}

fn with_word(alloc: Global, phrase: &[u8], word: &Name) -> Result<Vec<u8>, AllocError>
    ensures { IfOk result (λ text. text.items ≡ phrase.now ++ word.now) }
{
    let mut text = Vec::from_slice(alloc, phrase)?;
    text.extend_from_slice(word.bytes())?;
    Ok(text)
}

/// A refusal at a line of the program, for a word of it.
pub(crate) fn refused_word(alloc: Global, line: u32, phrase: &[u8], word: &Name) -> Early
    ensures { IsSaid Refused (line_text_lem line (phrase.now ++ word.now)) result }
{
    match with_word(alloc, phrase, word) {
        Ok(whole) => refused_line(alloc, line, &whole),
        Err(_) => Early::Memory,
    }
}

/// A refusal at a line and a column of the program.
pub(crate) fn refused_column(alloc: Global, line: u32, col: u32, phrase: &[u8]) -> Early
    ensures { IsSaid Refused (column_text_lem line col phrase.now) result }
{
    match column_text(alloc, line, col, phrase) {
        Ok(text) => Early::Said {
            verdict: Verdict::Refused,
            text,
        },
        Err(_) => Early::Memory,
    }
}
