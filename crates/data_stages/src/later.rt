ghost use Rattle.ending.specs.Stage.{IsStage};
ghost use Rattle.data_stages.specs.Later.{certificate_stage, unread_stage};

use ending::{Early, take_file};
use fl_base::Name;
use outside::Folder;
use program_stage::not_built;
use std::alloc::Global;

/// A file whose contents no part reads yet.
pub fn load_unread<F: Folder>(
    alloc: Global,
    folder: &mut F,
    file: &Name,
    limit: u64,
    over: &[u8],
) -> Result<(), Early>
    ensures { IsStage (λ _. tt {0}) (F.state folder.old) (F.state folder.new) (unread_stage file.now limit over.now) result }
{
    let _bytes = take_file(alloc, folder, file, limit, over)?;
    Err(not_built(alloc))
}

/// The certificate, where there is one. No part reads it yet.
pub fn load_certificate<F: Folder>(
    alloc: Global,
    folder: &mut F,
    file: &Option<Name>,
) -> Result<(), Early>
    ensures { IsStage (λ _. tt {0}) (F.state folder.old) (F.state folder.new) (certificate_stage file.now) result }
{
    match file {
        Some(file) => load_unread(
            alloc,
            folder,
            file,
            4_194_304,
            b"limit certificate 4194304\n",
        ),
        None => Ok(()),
    }
}
