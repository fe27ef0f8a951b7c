ghost use Rattle.std.specs.Prelude.{◌≡◌, ◌+◌, ◌++◌, ◌≤◌, ◌^◌, [], ◌∷◌, length, IfOk, OnOk, Some};
ghost use Rattle.outside.specs.States.{Files};
ghost use Rattle.ending.specs.Stage.{IsPart, IsSaying, IsStage};
ghost use Rattle.store_core.specs.Keys.{keys_of};
ghost use Rattle.store_core.specs.Places.{shapes_of};
ghost use Rattle.meaning.specs.Stops.{at_end};
ghost use Rattle.dual_meaning.specs.Runs.{stop_of, ticks_of};
ghost use Rattle.answers.specs.Runs.{values_of};
ghost use Rattle.answers.specs.Tangents.{tangents_of, ring_arguments as ring_arguments_lem};
ghost use Rattle.serde_json.specs.Data.{object};
ghost use Rattle.serde_json.specs.Written.{compact_text};
ghost use Rattle.data_io.specs.Written.{tangent_members};
ghost use Rattle.commands.specs.Done.{IsTangentOf};
ghost use Rattle.commands.specs.Tangents.{say_run, stop_stage, tangent_stage, directed_meaning, directed_text};

use crate::directed::{Directed, prepare};
use data_io::write_tangent;
use dual_meaning::{RunStop, Tangents};
use ending::Early;
use fl_base::{Items, Memory, Name};
use fl_types::Typed;
use outside::Folder;
use ring_core::Steps;
use run_stages::{shown_by_width, statements_said, trap_said};
use std::alloc::Global;
use std::sync::ledger::Ledger;
use store_core::Weights;

/// All arguments of the ring kind, in their order.
fn ring_arguments(alloc: Global, typed: &Typed) -> Result<Items<Name>, Memory>
    ensures { IfOk result (λ names. names ≡ ring_arguments_lem typed.now) }
{
    let mut names = Items::new(alloc);
    for name in typed.program().args.as_slice() {
        if typed.is_ring_argument(name) {
            names.push(name.clone(alloc)?)?;
        }
    }
    Ok(names)
}

/// What is said of a run that ended early.
fn stopped(alloc: Global, stop: RunStop) -> Early
    ensures { IsSaying (say_run stop) result }
{
    match stop {
        RunStop::Trap(trap) => trap_said(alloc, trap),
        RunStop::Statements => statements_said(alloc),
        RunStop::Memory => Early::Memory,
    }
}

/// Runs a program from its arguments in a direction.
fn run_along<L: Ledger>(
    alloc: Global,
    inputs: &Directed,
    steps: &mut Steps<L>,
) -> Result<Tangents, Early>
    requires laid { inputs.now.layout ≡ shapes_of inputs.now.typed inputs.now.args.entries }
    requires few { length (keys_of inputs.now.layout) ≤ 2 ^ 20 }
    ensures part { IsPart (λ _. tt {0}) (stop_stage (stop_of (directed_meaning inputs.now))) result }
    ensures ends { IfOk result (λ _. stop_of (directed_meaning inputs.now) ≡ at_end) }
    ensures values { IfOk result (λ found. found.values.items ≡ values_of inputs.now.typed inputs.now.layout inputs.now.args) }
    ensures tangents { IfOk result (λ found. found.tangents.items
        ≡ tangents_of inputs.now.typed inputs.now.layout inputs.now.args inputs.now.direction) }
    ensures long { IfOk result (λ found. length found.values.items ≡ length (keys_of inputs.now.layout)) }
    ensures wide { IfOk result (λ found. length found.tangents.items ≡ length (keys_of inputs.now.layout)) }
    ensures ticks { OnOk result (steps.new ≡ steps.old + ticks_of (directed_meaning inputs.now)) }
{
    match dual_meaning::tangent(
        alloc,
        &inputs.typed,
        &inputs.layout,
        &inputs.args,
        &inputs.direction,
        steps,
    ) {
        Ok(found) => Ok(found),
        Err(stop) => Err(stopped(alloc, stop)),
    }
}

/// Tangents and values as a line.
fn line_of(alloc: Global, tangent: &Weights, value: &Weights) -> Result<Vec<u8>, Memory>
    ensures { IfOk result (λ text. text.items ≡ compact_text (object (tangent_members tangent.now value.now)) ++ 10 ∷ []) }
{
    let mut text = write_tangent(alloc, tangent, value)?;
    text.push(b'\n')?;
    Ok(text)
}

/// The text of the answer: the tangents and the values of all arguments of the ring kind.
#[tactic(auto, using(crate::proofs::TangentText::text_is))]
fn text(alloc: Global, inputs: &Directed, found: &Tangents) -> Result<Vec<u8>, Memory>
    requires long { length found.now.values.items ≡ length (keys_of inputs.now.layout) }
    requires wide { length found.now.tangents.items ≡ length (keys_of inputs.now.layout) }
    requires values { found.now.values.items ≡ values_of inputs.now.typed inputs.now.layout inputs.now.args }
    requires tangents { found.now.tangents.items
        ≡ tangents_of inputs.now.typed inputs.now.layout inputs.now.args inputs.now.direction }
    ensures { IfOk result (λ text. text.items ≡ directed_text inputs.now) }
{
    let typed = &inputs.typed;
    let layout = &inputs.layout;
    let names = ring_arguments(alloc, typed)?;
    let tangent = shown_by_width(alloc, typed, layout, &found.tangents, names.as_slice())?;
    let value = shown_by_width(alloc, typed, layout, &found.values, names.as_slice())?;
    let text = line_of(alloc, &tangent, &value)?;
    Ok(text)
}

/// `tangent`: the tangents and the values of all arguments of the ring kind, after a run in a direction.
pub(crate) fn tangent<F: Folder, L: Ledger>(
    alloc: Global,
    folder: &mut F,
    program: &Name,
    values: &Name,
    direction: &Name,
    steps: &mut Steps<L>,
) -> Result<Vec<u8>, Early>
    ensures stage { IsStage (λ text. text.items) (F.state folder.old) (F.state folder.new)
        (tangent_stage program.now values.now direction.now) result }
    ensures done { IfOk result (λ text. (files : Files) → (F.state folder.old).contents ≡ Some files →
        IsTangentOf files program.now values.now direction.now text.items steps.old steps.new) }
{
    let inputs = prepare(alloc, folder, program, values, direction)?;
    let found = run_along(alloc, &inputs, steps)?;
    match text(alloc, &inputs, &found) {
        Ok(text) => Ok(text),
        Err(Memory) => Err(Early::Memory),
    }
}
