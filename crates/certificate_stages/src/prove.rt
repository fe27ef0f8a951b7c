//! The certificate of a program's plain pairs.

ghost use Rattle.std.specs.Prelude.{◌≡◌, ℕ, List, IfOk};
ghost use Rattle.activity.specs.Active.{AreActive};
ghost use Rattle.ending.specs.Stage.{IsStage};
ghost use Rattle.certificate_stages.specs.Certificates.{proved_for, certificate_stage};

use adjoint_stage::active_of;
use ending::Early;
use fl_base::{Memory, Name};
use fl_types::{NameSet, Typed};
use outside::Folder;
use program_certificates::proved_certificate;
use program_stage::load_program;
use std::alloc::Global;

/// The certificate for the active names.
fn text_for(alloc: Global, typed: &Typed, active: &NameSet) -> Result<Vec<u8>, Memory>
    ensures { (of wrt : List (List ℕ)) → AreActive typed.now of wrt active.now.names → IfOk result (λ text. text.items ≡ proved_for typed.now of wrt) }
{
    proved_certificate(alloc, typed, active)
}

/// The certificate of the plain pairs of the program in a file, for the names `of` by the names `wrt`.
pub fn load_certificate<F: Folder>(
    alloc: Global,
    folder: &mut F,
    file: &Name,
    of: &[Name],
    wrt: &[Name],
) -> Result<Vec<u8>, Early>
    ensures { IsStage (λ text. text.items) (F.state folder.old) (F.state folder.new) (certificate_stage file.now of.now wrt.now) result }
{
    let typed = load_program(alloc, folder, file)?;
    let active = active_of(alloc, &typed, of, wrt)?;
    match text_for(alloc, &typed, &active) {
        Ok(text) => Ok(text),
        Err(Memory) => Err(Early::Memory),
    }
}
