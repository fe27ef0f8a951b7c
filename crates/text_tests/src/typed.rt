//! What is said of a program.

use crate::rows::{Shown, expect, push_bytes};
use ending::Early;
use fl_ast::Name;
use fl_base::Memory;
use fl_types::Typed;
use outside::MemFolder;
use program_stage::load_program;
use std::alloc::Global;
use std::fmt::Write;
use std::process::Abort;

fn folder(alloc: Global, text: &str) -> Result<MemFolder, Memory> {
    let name = Name::of(alloc, b"s.f90")?;
    let text = Vec::from_slice(alloc, text.as_bytes())?;
    let mut files = Vec::new(alloc);
    files.push((name, text))?;
    Ok(MemFolder::new(files, Vec::new(alloc)))
}

fn show(out: &mut String, outcome: &Result<Typed, Early>) -> Shown {
    match outcome {
        Ok(_) => out.push_str("typed"),
        Err(Early::Said { text, .. }) => push_bytes(out, text),
        Err(_) => out.push_str("not read"),
    }
}

fn show_program(
    out: &mut String,
    alloc: Global,
    folder: &mut MemFolder,
    name: &Name,
) -> Result<(), Memory> {
    Ok(show(out, &load_program(alloc, folder, name))?)
}

/// Shows what is said of a program, `typed` where it is typed.
fn tell(out: &mut String, alloc: Global, text: &str) -> Result<(), Memory> {
    let name = Name::of(alloc, b"s.f90")?;
    let mut folder = folder(alloc, text)?;
    show_program(out, alloc, &mut folder, &name)
}

/// The text of a row: `typed`, or the line and the rule with what stands around them.
fn push_due(out: &mut String, wanted: &str) -> Shown {
    if wanted == "typed" {
        out.push_str(wanted)
    } else {
        write!(out, "refused line {wanted}\n")
    }
}

/// What is said of a program is what is wanted: `typed`, or the line and the rule that is broken first.
pub(crate) fn expect_typed<R: Abort>(
    rt: &R,
    alloc: Global,
    text: &str,
    wanted: &str,
) -> Result<(), Memory> {
    let mut told = String::new(alloc);
    tell(&mut told, alloc, text)?;
    let mut due = String::new(alloc);
    push_due(&mut due, wanted)?;
    expect(rt, told.as_str(), due.as_str(), text);
    Ok(())
}

/// The same of each row's text.
pub(crate) fn expect_all_typed<R: Abort>(
    rt: &R,
    alloc: Global,
    rows: &[(&str, &str)],
) -> Result<(), Memory> {
    for (text, wanted) in rows {
        expect_typed(rt, alloc, text, wanted)?;
    }
    Ok(())
}
