ghost use Rattle.std.specs.Prelude.{◌≤◌, IfOk, codes, length};
ghost use Rattle.ending.specs.Plan.{Asks, line};
ghost use Rattle.ending.specs.Stage.{IsMissing, IsFault, IsStage};

use crate::early::{Early, line_of, said};
use crate::verdict::Verdict;
use fl_base::Name;
use outside::{Folder, TakeError};
use std::alloc::Global;

fn missing(alloc: Global, name: &Name) -> Early
    ensures { IsMissing (line (codes "no file ") name.now) result }
{
    match line_of(alloc, b"no file ", name) {
        Ok(text) => Early::Missing { text },
        Err(_) => Early::Memory,
    }
}

fn fault(alloc: Global, name: &Name) -> Early
    ensures { IsFault (line (codes "read fault ") name.now) result }
{
    match line_of(alloc, b"read fault ", name) {
        Ok(text) => Early::Fault { text },
        Err(_) => Early::Memory,
    }
}

/// The bytes of a file, at most the limit; `over` is what is said of more.
pub fn take_file<F: Folder>(
    alloc: Global,
    folder: &mut F,
    name: &Name,
    limit: u64,
    over: &[u8],
) -> Result<Vec<u8>, Early>
    ensures within { IfOk result (λ bytes. length bytes.items ≤ limit) }
    ensures stage { IsStage (λ bytes. bytes.items) (F.state folder.old) (F.state folder.new)
        (Asks name.now limit over.now) result }
{
    match folder.take(alloc, name, limit) {
        Ok(bytes) => Ok(bytes),
        Err(TakeError::Missing) => Err(missing(alloc, name)),
        Err(TakeError::TooLong) => Err(said(alloc, Verdict::OverLimit, over)),
        Err(TakeError::Failed) => Err(fault(alloc, name)),
        Err(TakeError::Memory) => Err(Early::Memory),
    }
}
