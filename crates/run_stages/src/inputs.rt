ghost use Rattle.std.specs.Prelude.{◌≡◌, ◌≤◌, ◌^◌, None, Ok, length, IfOk};
ghost use Rattle.activity.specs.Active.{AreActive, first_misfit};
ghost use Rattle.ending.specs.Stage.{IsStage};
ghost use Rattle.fl_types.specs.Rows.{judged};
ghost use Rattle.store_core.specs.Keys.{keys_of};
ghost use Rattle.store_core.specs.Places.{shapes_of};
ghost use Rattle.run_stages.specs.Given.{IsGiven};
ghost use Rattle.run_stages.specs.Runs.{data_stage, inputs_stage};

use adjoint_stage::active_of;
use data_stages::{lay_out, load_args, load_certificate, load_seed};
use ending::Early;
use fl_types::{NameSet, Typed};
use formad_words::Request;
use outside::Folder;
use program_stage::load_program;
use std::alloc::Global;
use store_core::{Args, Layout, Weights};

/// What the files of a run give.
#[derive(Drop)]
pub struct Inputs {
    pub typed: Typed,
    pub args: Args,
    pub weights: Weights,
    pub layout: Layout,
}

/// The same, with the active names.
#[derive(Drop)]
pub(crate) struct Prepared {
    pub inputs: Inputs,
    pub active: NameSet,
}

/// The places of a program with its data, after a certificate.
fn placed<F: Folder>(
    alloc: Global,
    folder: &mut F,
    request: &Request,
    typed: &Typed,
    args: &Args,
) -> Result<Layout, Early>
    ensures stage { IsStage (λ layout. layout) (F.state folder.old) (F.state folder.new)
        (data_stage request.now typed.now args.now) result }
    ensures laid { IfOk result (λ layout. layout ≡ shapes_of typed.now args.now.entries) }
    ensures few { IfOk result (λ layout. length (keys_of layout) ≤ 2 ^ 20) }
{
    load_certificate(alloc, folder, &request.certificate)?;
    lay_out(alloc, typed, args)
}

/// Reads the files of a run, in the order of its refusals.
pub(crate) fn prepare<F: Folder>(
    alloc: Global,
    folder: &mut F,
    request: &Request,
) -> Result<Prepared, Early>
    ensures stage { IsStage (λ p. p.inputs) (F.state folder.old) (F.state folder.new) (inputs_stage request.now) result }
    ensures laid { IfOk result (λ p. p.inputs.layout ≡ shapes_of p.inputs.typed p.inputs.args.entries) }
    ensures few { IfOk result (λ p. length (keys_of p.inputs.layout) ≤ 2 ^ 20) }
    ensures active { IfOk result (λ p. AreActive p.inputs.typed request.now.of request.now.wrt p.active.names) }
    ensures judged { IfOk result (λ p. judged p.inputs.typed ≡ Ok p.inputs.typed) }
    ensures given { IfOk result (λ p. IsGiven request.now p.inputs) }
    ensures fit { IfOk result (λ p. first_misfit p.inputs.typed request.now.of request.now.wrt ≡ None) }
{
    let of = request.of.as_slice();
    let typed = load_program(alloc, folder, &request.program)?;
    let active = active_of(alloc, &typed, of, request.wrt.as_slice())?;
    let args = load_args(alloc, folder, &request.data, &typed)?;
    let weights = load_seed(alloc, folder, &request.seed, &typed, &args, of)?;
    let layout = placed(alloc, folder, request, &typed, &args)?;
    let inputs = Inputs {
        typed,
        args,
        weights,
        layout,
    };
    Ok(Prepared { inputs, active })
}
