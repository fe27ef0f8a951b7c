ghost use Rattle.std.specs.Prelude.{◌≡◌, ◌≤◌, ◌^◌, Ok, length, IfOk};
ghost use Rattle.ending.specs.Stage.{IsPart, IsStage};
ghost use Rattle.fl_types.specs.Rows.{judged};
ghost use Rattle.program_stage.specs.Programs.{source_stage, program_stage, subject_stage};

use crate::lexing::tokens_of;
use crate::names::check_names;
use crate::syntax::program_of;
use crate::types::typed_of;
use ending::{Early, take_file};
use fl_base::Name;
use fl_types::Typed;
use outside::Folder;
use std::alloc::Global;

/// The typed program of a text.
fn read_program(alloc: Global, text: &[u8]) -> Result<Typed, Early>
    requires { length text.now ≤ 2 ^ 20 }
    ensures part { IsPart (λ typed. typed) (source_stage text.now) result }
    ensures judged { IfOk result (λ typed. judged typed ≡ Ok typed) }
{
    let tokens = tokens_of(alloc, text)?;
    let program = program_of(alloc, text, &tokens)?;
    typed_of(alloc, program)
}

/// The typed program of the program file.
pub fn load_program<F: Folder>(alloc: Global, folder: &mut F, file: &Name) -> Result<Typed, Early>
    ensures stage { IsStage (λ typed. typed) (F.state folder.old) (F.state folder.new) (program_stage file.now) result }
    ensures judged { IfOk result (λ typed. judged typed ≡ Ok typed) }
{
    let text = take_file(alloc, folder, file, 1_048_576, b"limit program 1048576\n")?;
    read_program(alloc, &text)
}

/// The typed program of a command that takes derivatives: of the arguments `of`, by the arguments `wrt`.
pub fn load_subject<F: Folder>(
    alloc: Global,
    folder: &mut F,
    file: &Name,
    of: &[Name],
    wrt: &[Name],
) -> Result<Typed, Early>
    ensures { IsStage (λ typed. typed) (F.state folder.old) (F.state folder.new) (subject_stage file.now of.now wrt.now) result }
{
    let typed = load_program(alloc, folder, file)?;
    check_names(alloc, &typed, of)?;
    check_names(alloc, &typed, wrt)?;
    Ok(typed)
}
