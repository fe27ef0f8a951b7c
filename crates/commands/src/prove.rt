ghost use Rattle.std.specs.Prelude.{◌≡◌, IfOk, Some};
ghost use Rattle.outside.specs.States.{Files};
ghost use Rattle.ending.specs.Stage.{IsStage};
ghost use Rattle.certificate_stages.specs.Certificates.{certificate_stage};
ghost use Rattle.commands.specs.Done.{HasCertificate};

use certificate_stages::load_certificate;
use ending::Early;
use formad_words::Subject;
use outside::Folder;
use std::alloc::Global;

/// `prove`: the certificate of a program's plain pairs.
pub(crate) fn prove<F: Folder>(
    alloc: Global,
    folder: &mut F,
    subject: &Subject,
) -> Result<Vec<u8>, Early>
    ensures stage { IsStage (λ text. text.items) (F.state folder.old) (F.state folder.new)
        (certificate_stage subject.now.program subject.now.of subject.now.wrt) result }
    ensures done { IfOk result (λ text. (files : Files) → (F.state folder.old).contents ≡ Some files → HasCertificate files subject.now text.items) }
{
    load_certificate(
        alloc,
        folder,
        &subject.program,
        subject.of.as_slice(),
        subject.wrt.as_slice(),
    )
}
