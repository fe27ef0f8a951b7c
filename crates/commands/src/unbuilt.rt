ghost use Rattle.ending.specs.Stage.{IsStage};
ghost use Rattle.commands.specs.Unbuilt.{subject_only, check_stage, replay_stage, steps_stage, force_stage};

use data_stages::{load_args, load_seed, load_unread};
use ending::Early;
use fl_base::Name;
use formad_words::{Replay, Subject};
use outside::Folder;
use program_stage::{load_subject, not_built};
use std::alloc::Global;

/// `report`, as far as it is built.
pub(crate) fn describe<F: Folder>(
    alloc: Global,
    folder: &mut F,
    subject: &Subject,
) -> Result<Vec<u8>, Early>
    ensures { IsStage (λ text. text.items) (F.state folder.old) (F.state folder.new) (subject_only subject.now) result }
{
    let _typed = load_subject(
        alloc,
        folder,
        &subject.program,
        subject.of.as_slice(),
        subject.wrt.as_slice(),
    )?;
    Err(not_built(alloc))
}

/// `check`, as far as it is built.
pub(crate) fn check<F: Folder>(
    alloc: Global,
    folder: &mut F,
    subject: &Subject,
    certificate: &Name,
) -> Result<Vec<u8>, Early>
    ensures { IsStage (λ text. text.items) (F.state folder.old) (F.state folder.new)
        (check_stage subject.now certificate.now) result }
{
    let _typed = load_subject(
        alloc,
        folder,
        &subject.program,
        subject.of.as_slice(),
        subject.wrt.as_slice(),
    )?;
    load_unread(
        alloc,
        folder,
        certificate,
        4_194_304,
        b"limit certificate 4194304\n",
    )?;
    Err(not_built(alloc))
}

/// The files of a replay whose choices stand as they are.
fn replay_files<F: Folder>(alloc: Global, folder: &mut F, replay: &Replay) -> Result<Vec<u8>, Early>
    ensures { IsStage (λ text. text.items) (F.state folder.old) (F.state folder.new) (steps_stage replay.now) result }
{
    let of = replay.of.as_slice();
    let typed = load_subject(alloc, folder, &replay.program, of, replay.wrt.as_slice())?;
    let args = load_args(alloc, folder, &replay.data, &typed)?;
    let _weights = load_seed(alloc, folder, &replay.seed, &typed, &args, of)?;
    load_unread(
        alloc,
        folder,
        &replay.steps,
        67_108_864,
        b"limit data 67108864\n",
    )?;
    Err(not_built(alloc))
}

/// The files of a replay with a forced choice, which is judged before the data.
fn replay_forced<F: Folder>(
    alloc: Global,
    folder: &mut F,
    replay: &Replay,
) -> Result<Vec<u8>, Early>
    ensures { IsStage (λ text. text.items) (F.state folder.old) (F.state folder.new) (force_stage replay.now) result }
{
    let _typed = load_subject(
        alloc,
        folder,
        &replay.program,
        replay.of.as_slice(),
        replay.wrt.as_slice(),
    )?;
    Err(not_built(alloc))
}

/// `replay`, as far as it is built.
pub(crate) fn replay<F: Folder>(
    alloc: Global,
    folder: &mut F,
    replay: &Replay,
) -> Result<Vec<u8>, Early>
    ensures { IsStage (λ text. text.items) (F.state folder.old) (F.state folder.new) (replay_stage replay.now) result }
{
    if replay.force.is_none() {
        replay_files(alloc, folder, replay)
    } else {
        replay_forced(alloc, folder, replay)
    }
}
