ghost use Rattle.std.specs.Prelude.{◌≡◌, ◌≤◌, ◌^◌, ◌+◌, ℕ, List, length, IfOk, OnOk};
ghost use Rattle.ending.specs.Stage.{IsPart};
ghost use Rattle.fl_types.specs.Sharing.{has_name};
ghost use Rattle.store_core.specs.Keys.{keys_of};
ghost use Rattle.store_core.specs.Places.{shapes_of};
ghost use Rattle.meaning.specs.Stops.{by_conflict};
ghost use Rattle.adjoint_sets.specs.Names.{is_active, is_needed};
ghost use Rattle.forward_run.specs.Swept.{stop_in};
ghost use Rattle.one_thread.specs.Back.{HasRun};
ghost use Rattle.run_stages.specs.Stops.{stop_stage};
ghost use Rattle.run_stages.specs.Runs.{run_meaning, ticks_of_run};

use crate::inputs::Inputs;
use crate::stop::stopped;
use ending::Early;
use fl_types::NameSet;
use footprint::Footprint;
use formad_words::Request;
use forward_run::{Forwarded, forward_watched};
use ring_core::Steps;
use std::alloc::Global;
use std::sync::ledger::Ledger;

/// Runs the program forward, keeping the old contents of the needed names, or says its first stop.
pub(crate) fn run_forward<L: Ledger>(
    alloc: Global,
    request: &Request,
    inputs: &Inputs,
    needed: &NameSet,
    steps: &mut Steps<L>,
) -> Result<Forwarded<Footprint>, Early>
    requires laid { inputs.now.layout ≡ shapes_of inputs.now.typed inputs.now.args.entries }
    requires few { length (keys_of inputs.now.layout) ≤ 2 ^ 20 }
    requires needed { (λ x. has_name x needed.now.names) ≡ is_needed inputs.now.typed (is_active inputs.now.typed request.now.of request.now.wrt) }
    ensures part { IsPart (λ _. tt {0}) (stop_stage inputs.now.layout (stop_in by_conflict (run_meaning request.now inputs.now))) result }
    ensures ran { IfOk result (λ f. HasRun (run_meaning request.now inputs.now) f.cells.items f.tape) }
    ensures ticks { OnOk result (steps.new ≡ steps.old + ticks_of_run request.now inputs.now) }
{
    match forward_watched(
        alloc,
        &inputs.typed,
        &inputs.layout,
        &inputs.args,
        needed.names.as_slice(),
        steps,
    ) {
        Ok(forwarded) => Ok(forwarded),
        Err(stop) => Err(stopped(alloc, &inputs.layout, stop)),
    }
}
