ghost use Rattle.std.specs.Prelude.{◌≡◌, ◌≤◌, ◌^◌, length, IfOk};
ghost use Rattle.ending.specs.Stage.{IsStage};
ghost use Rattle.store_core.specs.Keys.{keys_of};
ghost use Rattle.store_core.specs.Places.{shapes_of};
ghost use Rattle.commands.specs.Tangents.{directed_stage};

use data_stages::{lay_out, load_args, load_direction};
use ending::Early;
use fl_base::Name;
use fl_types::Typed;
use outside::Folder;
use program_stage::load_program;
use std::alloc::Global;
use store_core::{Args, Direction, Layout};

/// What the files of a run in a direction give.
#[derive(Drop)]
pub(crate) struct Directed {
    pub typed: Typed,
    pub args: Args,
    pub direction: Direction,
    pub layout: Layout,
}

/// Reads the files of a run in a direction, in the order of its refusals.
pub(crate) fn prepare<F: Folder>(
    alloc: Global,
    folder: &mut F,
    program: &Name,
    values: &Name,
    direction: &Name,
) -> Result<Directed, Early>
    ensures stage { IsStage (λ inputs. inputs) (F.state folder.old) (F.state folder.new)
        (directed_stage program.now values.now direction.now) result }
    ensures laid { IfOk result (λ inputs. inputs.layout ≡ shapes_of inputs.typed inputs.args.entries) }
    ensures few { IfOk result (λ inputs. length (keys_of inputs.layout) ≤ 2 ^ 20) }
{
    let typed = load_program(alloc, folder, program)?;
    let args = load_args(alloc, folder, values, &typed)?;
    let direction = load_direction(alloc, folder, direction, &typed, &args)?;
    let layout = lay_out(alloc, &typed, &args)?;
    Ok(Directed {
        typed,
        args,
        direction,
        layout,
    })
}
