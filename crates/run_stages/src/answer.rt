ghost use Rattle.std.specs.Prelude.{◌≡◌, ◌+◌, ◌≤◌, ◌^◌, None, Ok, length, IfOk, OnOk};
ghost use Rattle.activity.specs.Active.{AreActive, first_misfit};
ghost use Rattle.ending.specs.Stage.{IsPart};
ghost use Rattle.fl_types.specs.Rows.{judged};
ghost use Rattle.fl_types.specs.Sharing.{has_name};
ghost use Rattle.store_core.specs.Keys.{keys_of};
ghost use Rattle.store_core.specs.Places.{shapes_of};
ghost use Rattle.meaning.specs.Stops.{by_conflict, at_end};
ghost use Rattle.adjoint_choices.specs.Choosing.{choices_of};
ghost use Rattle.adjoint_sets.specs.Names.{is_active, is_needed};
ghost use Rattle.forward_run.specs.Swept.{stop_in};
ghost use Rattle.one_thread.specs.Back.{HasRun};
ghost use Rattle.answers.specs.Runs.{shown_at, text_of};
ghost use Rattle.answers.specs.Sweeps.{quieted as quieted_lem};
ghost use Rattle.run_stages.specs.Given.{IsGiven};
ghost use Rattle.run_stages.specs.Runs.{answer_stage, answer_text, run_meaning, ticks_of_run};

use crate::inputs::{Inputs, Prepared};
use crate::quiet::quieted;
use crate::swept::run_forward;
use crate::widths::shown_by_width;
use adjoint_choices::unproved_choices;
use data_io::{Answer, write_answer};
use ending::Early;
use fl_base::Memory;
use fl_types::{Choices, NameSet, Typed};
use footprint::Footprint;
use formad_words::Request;
use forward_run::Forwarded;
use needed_names::needed;
use one_thread::{Ran, run_back};
use ring_core::Steps;
use std::alloc::Global;
use std::sync::ledger::Ledger;

/// The answer of a run from what it leaves.
fn answer_of(
    alloc: Global,
    request: &Request,
    inputs: &Inputs,
    active: &NameSet,
    choices: Choices,
    ran: &Ran,
) -> Result<Answer, Memory>
    requires long { length ran.now.values.items ≡ length (keys_of inputs.now.layout) }
    requires wide { length ran.now.adjoints.items ≡ length (keys_of inputs.now.layout) }
    ensures { IfOk result (λ answer. answer ≡ record {
      adds = ran.now.adds;
      adjoint = quieted_lem (λ x. has_name x active.now.names) (shown_at inputs.now.typed inputs.now.layout ran.now.adjoints.items request.now.wrt);
      value = shown_at inputs.now.typed inputs.now.layout ran.now.values.items request.now.of;
      choices = choices;
      race = None;
    }) }
{
    let typed = &inputs.typed;
    let layout = &inputs.layout;
    let adjoint = shown_by_width(alloc, typed, layout, &ran.adjoints, request.wrt.as_slice())?;
    let adjoint = quieted(alloc, active, &adjoint)?;
    let value = shown_by_width(alloc, typed, layout, &ran.values, request.of.as_slice())?;
    Ok(Answer {
        adds: ran.adds,
        adjoint,
        value,
        choices,
        race: None,
    })
}

/// The text of an answer.
fn text(alloc: Global, answer: &Answer) -> Result<Vec<u8>, Memory>
    ensures { IfOk result (λ text. text.items ≡ text_of answer.now) }
{
    let mut text = write_answer(alloc, answer)?;
    text.push(b'\n')?;
    Ok(text)
}

/// The needed names, whose old contents the reverse sweep restores.
fn needed_of(alloc: Global, typed: &Typed, active: &NameSet) -> Result<NameSet, Memory>
    ensures { IfOk result (λ names. (λ x. has_name x names.names) ≡ is_needed typed.now (λ x. has_name x active.now.names)) }
{
    needed(alloc, typed.program(), active)
}

/// The text of the answer of a run that nothing stops, from what its forward sweep left.
fn answer_back(
    alloc: Global,
    request: &Request,
    prepared: &Prepared,
    needed: &NameSet,
    forwarded: Forwarded<Footprint>,
) -> Result<Vec<u8>, Memory>
    requires laid { prepared.now.inputs.layout ≡ shapes_of prepared.now.inputs.typed prepared.now.inputs.args.entries }
    requires few { length (keys_of prepared.now.inputs.layout) ≤ 2 ^ 20 }
    requires active { AreActive prepared.now.inputs.typed request.now.of request.now.wrt prepared.now.active.names }
    requires judged { judged prepared.now.inputs.typed ≡ Ok prepared.now.inputs.typed }
    requires fit { first_misfit prepared.now.inputs.typed request.now.of request.now.wrt ≡ None }
    requires given { IsGiven request.now prepared.now.inputs }
    requires needed { (λ x. has_name x needed.now.names)
        ≡ is_needed prepared.now.inputs.typed (is_active prepared.now.inputs.typed request.now.of request.now.wrt) }
    requires ran { HasRun (run_meaning request.now prepared.now.inputs) forwarded.cells.items forwarded.tape }
    ensures { IfOk result (λ text. text.items ≡ answer_text request.now prepared.now.inputs) }
{
    let inputs = &prepared.inputs;
    let active = &prepared.active;
    let choices = unproved_choices(alloc, inputs.typed.program(), active)?;
    let ran = run_back(
        alloc,
        &inputs.typed,
        &inputs.layout,
        &inputs.args,
        &inputs.weights,
        active,
        needed,
        &choices,
        forwarded,
    )?;
    let answer = answer_of(alloc, request, inputs, active, choices, &ran)?;
    text(alloc, &answer)
}

/// The text of a run's answer, or what is due in its place.
pub(crate) fn answer<L: Ledger>(
    alloc: Global,
    request: &Request,
    prepared: &Prepared,
    steps: &mut Steps<L>,
) -> Result<Vec<u8>, Early>
    requires laid { prepared.now.inputs.layout ≡ shapes_of prepared.now.inputs.typed prepared.now.inputs.args.entries }
    requires few { length (keys_of prepared.now.inputs.layout) ≤ 2 ^ 20 }
    requires active { AreActive prepared.now.inputs.typed request.now.of request.now.wrt prepared.now.active.names }
    requires judged { judged prepared.now.inputs.typed ≡ Ok prepared.now.inputs.typed }
    requires fit { first_misfit prepared.now.inputs.typed request.now.of request.now.wrt ≡ None }
    requires given { IsGiven request.now prepared.now.inputs }
    ensures part { IsPart (λ text. text.items) (answer_stage request.now prepared.now.inputs) result }
    ensures ends { IfOk result (λ _. stop_in by_conflict (run_meaning request.now prepared.now.inputs) ≡ at_end) }
    ensures text { IfOk result (λ text. text.items ≡ answer_text request.now prepared.now.inputs) }
    ensures ticks { OnOk result (steps.new ≡ steps.old + ticks_of_run request.now prepared.now.inputs) }
{
    let needed = match needed_of(alloc, &prepared.inputs.typed, &prepared.active) {
        Ok(needed) => needed,
        Err(Memory) => return Err(Early::Memory),
    };
    let forwarded = run_forward(alloc, request, &prepared.inputs, &needed, steps)?;
    match answer_back(alloc, request, prepared, &needed, forwarded) {
        Ok(text) => Ok(text),
        Err(Memory) => Err(Early::Memory),
    }
}
