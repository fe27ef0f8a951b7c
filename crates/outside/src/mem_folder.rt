ghost use Rattle.std.specs.Prelude.{◌≡◌, ◌+◌, ◌-◌, ◌^◌, ℕ, Some, IfOk, IfSome, IsErrOf, ◌≤◌, ◌↔◌, ◌<◌, Contains, length, min, option_map, ◌==◌, IsTrue};
ghost use Rattle.outside.specs.Causes.{HasCause};
ghost use Rattle.outside.specs.Files.{found, Takes};
ghost use Rattle.outside.specs.Calls.{next};
ghost use Rattle.outside.specs.MemFiles.{MemFiles};

use crate::folder::{Folder, TakeError};
use fl_base::Name;
use std::alloc::Global;
use std::marker::Model;

/// Files in memory, with calls that are to fail.
#[derive(Drop)]
pub struct MemFolder {
    files: Vec<(Name, Vec<u8>)>,
    fails: Vec<u64>,
    calls: u64,
    faults: u64,
}

impl Model for MemFolder {
    ghost use Rattle.outside.specs.MemFiles.{MemFiles};

    ghost Value = { MemFiles };

    ghost view = { λ f. record { files = f.files.items; fails = f.fails.items; calls = f.calls; faults = f.faults } };
}

impl MemFolder {
    /// A folder of these files: of two with one name the first counts. The calls of `take` with a number among `fails`,
    /// counted from 1, fail.
    pub fn new(files: Vec<(Name, Vec<u8>)>, fails: Vec<u64>) -> MemFolder
        ensures { result ≡ record { files = files.items; fails = fails.items; calls = 0; faults = 0 } }
    {
        MemFolder {
            files,
            fails,
            calls: 0,
            faults: 0,
        }
    }
}

/// The file that counts for a name.
fn find<'a>(files: &'a [(Name, Vec<u8>)], name: &Name) -> Option<&'a Vec<u8>>
    ensures { option_map (λ file. file.now.items) result ≡ found files.now name.now }
{
    for (other, bytes) in files {
        if other.is(name) {
            return Some(bytes);
        }
    }
    None
}

/// A copy of the file that counts for a name.
fn copy(
    alloc: Global,
    files: &[(Name, Vec<u8>)],
    name: &Name,
    limit: u64,
) -> Result<Vec<u8>, TakeError>
    ensures told { Takes (found files.now name.now) limit result }
    ensures never { IsErrOf result TakeError.Failed → ⊥ }
{
    let Some(bytes) = find(files, name) else {
        return Err(TakeError::Missing);
    };
    if bytes.len() as u64 > limit {
        return Err(TakeError::TooLong);
    }
    match Vec::from_slice(alloc, bytes.as_slice()) {
        Ok(bytes) => Ok(bytes),
        Err(_) => Err(TakeError::Memory),
    }
}

/// Counts a call, and tells whether it is one of those that are to fail.
pub(crate) fn count(calls: &mut u64, fails: &[u64]) -> bool
    ensures counted { calls.new ≡ next calls.old }
    ensures fails { IsTrue result ↔ Contains fails.now (calls.old + 1) }
{
    match calls.checked_add(1) {
        Some(number) => {
            *calls = number;
            fails.contains(&number)
        }
        None => false,
    }
}

impl Folder for MemFolder {
    ghost state = { λ folder. record { contents = Some (found folder.files); faults = folder.faults } };

    fn take(&mut self, alloc: Global, name: &Name, limit: u64) -> Result<Vec<u8>, TakeError>
        ensures within { IfOk result (λ bytes. length bytes.items ≤ limit) }
        ensures same { Some (found self.new.files) ≡ Some (found self.old.files) }
        ensures told { Takes (found self.old.files name.now) limit result }
        ensures cause { HasCause self.old.faults self.new.faults (IsErrOf result TakeError.Failed) }
        // Exactly the calls that are to fail do.
        ensures fails { IsErrOf result TakeError.Failed ↔ Contains self.old.fails (self.old.calls + 1) }
        ensures counted { self.new.calls ≡ next self.old.calls }
        ensures kept { (self.new.files ≡ self.old.files) × (self.new.fails ≡ self.old.fails) }
    {
        if count(&mut self.calls, &self.fails) {
            self.faults = self.faults.saturating_add(1);
            return Err(TakeError::Failed);
        }
        copy(alloc, &self.files, name, limit)
    }
}
