ghost use Rattle.std.specs.Prelude.{◌≡◌, IfOk};
ghost use Rattle.ending.specs.declared.early.Early.TheVariants.{Memory as memory};
ghost use Rattle.ending.specs.Plan.{line};
ghost use Rattle.ending.specs.Stage.{IsSaid};

use crate::verdict::Verdict;
use fl_base::{Memory, Name};
use std::alloc::{AllocError, Global};
use thiserror::Error;

/// Why a stage gives no value, with the text that is due in its place.
#[derive(Debug, Drop, Error)]
pub enum Early {
    #[error("the command has a verdict")]
    Said { verdict: Verdict, text: Vec<u8> },
    #[error("a file is missing")]
    Missing { text: Vec<u8> },
    #[error("the folder failed")]
    Fault { text: Vec<u8> },
    #[error("memory was wanting")]
    Memory,
}

impl From<AllocError> for Early {
    ghost from_gives = { λ _ e. e ≡ memory };

    fn from(_: AllocError) -> Early {
        Early::Memory
    }
}

impl From<Memory> for Early {
    ghost from_gives = { λ _ e. e ≡ memory };

    fn from(_: Memory) -> Early {
        Early::Memory
    }
}

/// The verdict with this text.
pub fn said(alloc: Global, verdict: Verdict, text: &[u8]) -> Early
    ensures { IsSaid verdict text.now result }
{
    match Vec::from_slice(alloc, text) {
        Ok(text) => Early::Said { verdict, text },
        Err(_) => Early::Memory,
    }
}

/// The verdict with a line of these words and this name.
pub fn said_name(alloc: Global, verdict: Verdict, front: &[u8], name: &Name) -> Early
    ensures { IsSaid verdict (line front.now name.now) result }
{
    match line_of(alloc, front, name) {
        Ok(text) => Early::Said { verdict, text },
        Err(_) => Early::Memory,
    }
}

/// A line of these words and this name.
pub(crate) fn line_of(alloc: Global, front: &[u8], name: &Name) -> Result<Vec<u8>, AllocError>
    ensures { IfOk result (λ text. text.items ≡ line front.now name.now) }
{
    let mut text = Vec::from_slice(alloc, front)?;
    text.extend_from_slice(name.bytes())?;
    text.extend_from_slice(b"\n")?;
    Ok(text)
}
