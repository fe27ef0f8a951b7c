ghost use Rattle.std.specs.Prelude.{◌≡◌, IfOk, Some};
ghost use Rattle.outside.specs.States.{Files};
ghost use Rattle.ending.specs.Stage.{IsStage};
ghost use Rattle.run_stages.specs.Done.{IsRun};
ghost use Rattle.run_stages.specs.Runs.{run_stage};

use crate::answer::answer;
use crate::inputs::prepare;
use ending::Early;
use formad_words::Request;
use outside::Folder;
use ring_core::Steps;
use std::alloc::Global;
use std::sync::ledger::Ledger;

/// The text of a run's answer: the values of the names of `of`, and the adjoints of those of `wrt` for the seed. Or what is due in its
/// place: a refusal of one of its files, or the first stop of its forward sweep.
pub fn load_run<F: Folder, L: Ledger>(
    alloc: Global,
    folder: &mut F,
    request: &Request,
    steps: &mut Steps<L>,
) -> Result<Vec<u8>, Early>
    ensures stage { IsStage (λ text. text.items) (F.state folder.old) (F.state folder.new) (run_stage request.now) result }
    ensures done { IfOk result (λ text. (files : Files) → (F.state folder.old).contents ≡ Some files →
        IsRun files request.now text.items steps.old steps.new) }
{
    let prepared = prepare(alloc, folder, request)?;
    answer(alloc, request, &prepared, steps)
}
