ghost use Rattle.std.specs.Prelude.{◌≡◌, IfOk, Some};
ghost use Rattle.outside.specs.States.{Files};
ghost use Rattle.ending.specs.Stage.{IsStage};
ghost use Rattle.adjoint_stage.specs.Adjoints.{adjoint_stage};
ghost use Rattle.commands.specs.Done.{HasAdjoint};

use adjoint_stage::load_adjoint;
use ending::Early;
use formad_words::Subject;
use outside::Folder;
use std::alloc::Global;

/// `adjoint`: the adjoint of a program, as a text.
pub(crate) fn adjoint<F: Folder>(
    alloc: Global,
    folder: &mut F,
    subject: &Subject,
) -> Result<Vec<u8>, Early>
    ensures stage { IsStage (λ text. text.items) (F.state folder.old) (F.state folder.new)
        (adjoint_stage subject.now.program subject.now.of subject.now.wrt) result }
    ensures done { IfOk result (λ text. (files : Files) → (F.state folder.old).contents ≡ Some files → HasAdjoint files subject.now text.items) }
{
    load_adjoint(
        alloc,
        folder,
        &subject.program,
        subject.of.as_slice(),
        subject.wrt.as_slice(),
    )
}
