ghost use Rattle.std.specs.Prelude.{◌≡◌, IfOk};
ghost use Rattle.ending.specs.declared.verdict.Verdict.TheVariants.{BadData};
ghost use Rattle.ending.specs.Stage.{IsSaid};
ghost use Rattle.data_stages.specs.Lines as spec;

use ending::{Early, Verdict};
use fl_base::Name;
use itoa::Buffer;
use std::alloc::{AllocError, Global};

fn file_text(alloc: Global, file: &[u8], fault: &[u8]) -> Result<Vec<u8>, AllocError>
    ensures { IfOk result (λ text. text.items ≡ spec.file_line file.now fault.now) }
{
    let mut text = Vec::from_slice(alloc, file)?;
    text.extend_from_slice(b" file: ")?;
    text.extend_from_slice(fault)?;
    text.extend_from_slice(b"\n")?;
    Ok(text)
}

/// A fault of a whole file.
pub(crate) fn file_fault(alloc: Global, file: &[u8], fault: &[u8]) -> Early
    ensures { IsSaid BadData (spec.file_line file.now fault.now) result }
{
    match file_text(alloc, file, fault) {
        Ok(text) => Early::Said {
            verdict: Verdict::BadData,
            text,
        },
        Err(_) => Early::Memory,
    }
}

fn name_text(alloc: Global, file: &[u8], name: &Name, fault: &[u8]) -> Result<Vec<u8>, AllocError>
    ensures { IfOk result (λ text. text.items ≡ spec.name_line file.now name.now fault.now) }
{
    let mut text = Vec::from_slice(alloc, file)?;
    text.extend_from_slice(b" ")?;
    text.extend_from_slice(name.bytes())?;
    text.extend_from_slice(b": ")?;
    text.extend_from_slice(fault)?;
    text.extend_from_slice(b"\n")?;
    Ok(text)
}

/// A fault of a name.
pub(crate) fn name_fault(alloc: Global, file: &[u8], name: &Name, fault: &[u8]) -> Early
    ensures { IsSaid BadData (spec.name_line file.now name.now fault.now) result }
{
    match name_text(alloc, file, name, fault) {
        Ok(text) => Early::Said {
            verdict: Verdict::BadData,
            text,
        },
        Err(_) => Early::Memory,
    }
}

fn number_text(
    alloc: Global,
    file: &[u8],
    name: &Name,
    fault: &[u8],
    at: u64,
) -> Result<Vec<u8>, AllocError>
    ensures { IfOk result (λ text. text.items ≡ spec.number_line file.now name.now fault.now at) }
{
    let mut buffer = Buffer::new();
    let mut text = Vec::from_slice(alloc, file)?;
    text.extend_from_slice(b" ")?;
    text.extend_from_slice(name.bytes())?;
    text.extend_from_slice(b": ")?;
    text.extend_from_slice(fault)?;
    text.extend_from_slice(b" at ")?;
    text.extend_from_slice(buffer.format(at).as_bytes())?;
    text.extend_from_slice(b"\n")?;
    Ok(text)
}

/// A fault of a number of a name.
pub(crate) fn number_fault(alloc: Global, file: &[u8], name: &Name, fault: &[u8], at: u64) -> Early
    ensures { IsSaid BadData (spec.number_line file.now name.now fault.now at) result }
{
    match number_text(alloc, file, name, fault, at) {
        Ok(text) => Early::Said {
            verdict: Verdict::BadData,
            text,
        },
        Err(_) => Early::Memory,
    }
}

fn shape_text(
    alloc: Global,
    file: &[u8],
    name: &Name,
    want: u64,
    got: u64,
) -> Result<Vec<u8>, AllocError>
    ensures { IfOk result (λ text. text.items ≡ spec.shape_line file.now name.now want got) }
{
    let mut buffer = Buffer::new();
    let mut text = Vec::from_slice(alloc, file)?;
    text.extend_from_slice(b" ")?;
    text.extend_from_slice(name.bytes())?;
    text.extend_from_slice(b": shape ")?;
    text.extend_from_slice(buffer.format(want).as_bytes())?;
    text.extend_from_slice(b" ")?;
    text.extend_from_slice(buffer.format(got).as_bytes())?;
    text.extend_from_slice(b"\n")?;
    Ok(text)
}

/// A list of another length than its array has.
pub(crate) fn shape_fault(alloc: Global, file: &[u8], name: &Name, want: u64, got: u64) -> Early
    ensures { IsSaid BadData (spec.shape_line file.now name.now want got) result }
{
    match shape_text(alloc, file, name, want, got) {
        Ok(text) => Early::Said {
            verdict: Verdict::BadData,
            text,
        },
        Err(_) => Early::Memory,
    }
}
