ghost use Rattle.std.specs.Prelude.{◌≡◌, IfOk, Some};
ghost use Rattle.outside.specs.States.{Files};
ghost use Rattle.ending.specs.Stage.{IsStage};
ghost use Rattle.commands.specs.Done.{IsDone};
ghost use Rattle.commands.specs.Plans.{command_stage};

use crate::adjoint::adjoint;
use crate::prove::prove;
use crate::tangent::tangent;
use crate::unbuilt::{check, describe, replay};
use ending::Early;
use formad_words::Words;
use outside::Folder;
use program_stage::not_built;
use ring_core::Steps;
use run_stages::load_run;
use std::alloc::Global;
use std::sync::ledger::Ledger;

/// The text of a command's answer, or what is due in its place.
pub fn outcome_of<F: Folder, L: Ledger>(
    alloc: Global,
    folder: &mut F,
    words: &Words,
    steps: &mut Steps<L>,
) -> Result<Vec<u8>, Early>
    ensures stage { IsStage (λ text. text.items) (F.state folder.old) (F.state folder.new) (command_stage words.now) result }
    ensures done { IfOk result (λ text. (files : Files) → (F.state folder.old).contents ≡ Some files →
        IsDone files words.now text.items steps.old steps.new) }
{
    match words {
        Words::Adjoint(subject) => adjoint(alloc, folder, subject),
        Words::Prove(subject) => prove(alloc, folder, subject),
        Words::Report(subject) => describe(alloc, folder, subject),
        Words::Check {
            subject,
            certificate,
        } => check(alloc, folder, subject, certificate),
        Words::Tangent {
            program,
            data,
            direction,
        } => tangent(alloc, folder, program, data, direction, steps),
        Words::Run(request) => load_run(alloc, folder, request, steps),
        Words::Replay(request) => replay(alloc, folder, request),
        Words::Load { .. } => Err(not_built(alloc)),
    }
}
