//! The adjoint of a program.

use adjoint_parser::parse_adjoint;
use adjoint_stage::load_adjoint;
use ending::Early;
use fl_ast::Name;
use fl_base::{Items, Memory};
use fl_lexer::lex;
use outside::MemFolder;
use std::alloc::Global;
use std::process::Abort;
use std::test::Fail;

/// A program, the names that are asked for, with commas between them, and its adjoint.
pub(crate) struct Row {
    pub(crate) of: &'static str,
    pub(crate) wrt: &'static str,
    pub(crate) program: &'static str,
    pub(crate) adjoint: &'static str,
}

fn folder(alloc: Global, text: &str) -> Result<MemFolder, Memory> {
    let name = Name::of(alloc, b"s.f90")?;
    let text = Vec::from_slice(alloc, text.as_bytes())?;
    let mut files = Vec::new(alloc);
    files.push((name, text))?;
    Ok(MemFolder::new(files, Vec::new(alloc)))
}

fn names(alloc: Global, listed: &str) -> Result<Items<Name>, Memory> {
    let mut names = Items::new(alloc);
    for name in listed.split(',') {
        names.push(Name::of(alloc, name.as_bytes())?)?;
    }
    Ok(names)
}

fn adjoint_of(alloc: Global, row: &Row) -> Result<Vec<u8>, Memory> {
    let mut folder = folder(alloc, row.program)?;
    let file = Name::of(alloc, b"s.f90")?;
    let of = names(alloc, row.of)?;
    let wrt = names(alloc, row.wrt)?;
    match load_adjoint(alloc, &mut folder, &file, of.as_slice(), wrt.as_slice()) {
        Ok(text) => Ok(text),
        Err(Early::Said { text, .. }) => Ok(text),
        Err(_) => Err(Memory),
    }
}

/// Whether the text reads as an adjoint.
fn is_read(alloc: Global, text: &[u8]) -> bool {
    if text.len() > 2_000_000_000 {
        return false;
    }
    match lex(alloc, text) {
        Ok(tokens) => match parse_adjoint(alloc, text, tokens.as_slice()) {
            Ok(_) => true,
            Err(_) => false,
        },
        Err(_) => false,
    }
}

pub(crate) fn expect_adjoint<R: Abort>(rt: &R, alloc: Global, row: &Row) -> Result<(), Fail> {
    let got = String::from_utf8(adjoint_of(alloc, row)?)?;
    assert_eq!(rt; got.as_str(), row.adjoint, "{}", row.program);
    assert!(rt; is_read(alloc, row.adjoint.as_bytes()));
    Ok(())
}
