//! The text of an adjoint that goes by what is shown of its loops.

ghost use Rattle.std.specs.Prelude.{◌≡◌, ℕ, List, IfOk};
ghost use Rattle.activity.specs.Active.{AreActive};
ghost use Rattle.fl_types.specs.Sharing.{has_name};
ghost use Rattle.ending.specs.Stage.{IsStage};
ghost use Rattle.adjoint_stage.specs.Adjoints.{IsTextFor};
ghost use Rattle.certificate_stages.specs.Certificates.{printed_shared, shared_stage};

use adjoint_stage::active_of;
use adjoint_unit::reverse;
use ending::Early;
use fl_ast::Program;
use fl_base::{Memory, Name};
use fl_printer::print_adjoint;
use fl_types::{Choices, NameSet, Typed};
use outside::Folder;
use program_certificates::choose;
use program_stage::load_program;
use std::alloc::Global;

/// The text of the adjoint for these choices.
fn text_with(
    alloc: Global,
    program: &Program,
    active: &NameSet,
    choices: &Choices,
) -> Result<Vec<u8>, Memory>
    ensures { IfOk result (λ text. IsTextFor program.now (λ x. has_name x active.now.names) choices.now.entries text.items) }
{
    let adjoint = reverse(alloc, program, active, choices)?;
    print_adjoint(alloc, &adjoint)
}

/// The text of the adjoint for the active names.
fn text_for(alloc: Global, typed: &Typed, active: &NameSet) -> Result<Vec<u8>, Memory>
    ensures { (of wrt : List (List ℕ)) → AreActive typed.now of wrt active.now.names → IfOk result (λ text. text.items ≡ printed_shared typed.now of wrt) }
{
    let chosen = choose(alloc, typed, active, &[])?;
    text_with(alloc, typed.program(), active, &chosen.choices)
}

/// The text of the adjoint of the program in a file, of the names `of` by the names `wrt`: a name's increments are plain where it is shown that
/// no two iterations meet.
pub fn load_shared_adjoint<F: Folder>(
    alloc: Global,
    folder: &mut F,
    file: &Name,
    of: &[Name],
    wrt: &[Name],
) -> Result<Vec<u8>, Early>
    ensures { IsStage (λ text. text.items) (F.state folder.old) (F.state folder.new) (shared_stage file.now of.now wrt.now) result }
{
    let typed = load_program(alloc, folder, file)?;
    let active = active_of(alloc, &typed, of, wrt)?;
    match text_for(alloc, &typed, &active) {
        Ok(text) => Ok(text),
        Err(Memory) => Err(Early::Memory),
    }
}
