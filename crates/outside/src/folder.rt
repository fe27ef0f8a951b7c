ghost use Rattle.std.specs.Prelude.{◌≡◌, IfOk, IfSome, IsErrOf, ◌≤◌, length};
ghost use Rattle.outside.specs.Causes.{HasCause};
ghost use Rattle.outside.specs.States.{FolderState};

use fl_base::Name;
use std::alloc::Global;
use thiserror::Error;

/// Why a folder gives no bytes.
#[derive(Debug, Drop, Error)]
pub enum TakeError {
    #[error("no file has the name")]
    Missing,
    #[error("the file has more bytes than the limit")]
    TooLong,
    #[error("the folder failed")]
    Failed,
    #[error("memory was wanting")]
    Memory,
}

/// Files by their names.
pub trait Folder {
    ghost use Rattle.outside.specs.Files.{Takes};

    /// What stands under each name, where the folder tells it, and how often it has failed.
    ghost state: { Self → FolderState };

    /// The bytes under a name, never more than the limit.
    fn take(&mut self, alloc: Global, name: &Name, limit: u64) -> Result<Vec<u8>, TakeError>
        ensures within { IfOk result (λ bytes. length bytes.items ≤ limit) }
        ensures same { (state self.new).contents ≡ (state self.old).contents }
        ensures told { IfSome (state self.old).contents (λ files. Takes (files name.now) limit result) }
        ensures cause { HasCause (state self.old).faults (state self.new).faults (IsErrOf result TakeError.Failed) };
}
