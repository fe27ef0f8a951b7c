ghost use Rattle.std.specs.Prelude.{◌≡◌, ◌+◌, [], ℕ, Bool, List, length};
ghost use Rattle.fl_ast.specs.Tree.{Subroutine};
ghost use Rattle.store_core.specs.declared.layout.Shape.{Shape as LaidShape};
ghost use Rattle.meaning.specs.Programs.{meaning};
ghost use Rattle.resolved.specs.SlotTables.{Names};
ghost use Rattle.sweep_steps.specs.Steps.{step_trees};
ghost use Rattle.sweep_law.specs.Telling.{Standing};
ghost use Rattle.forward_state.specs.Holding.{Holds, ticks_of};
ghost use Rattle.forward_sweep.specs.Machine.{steps_run};
ghost use Rattle.forward_run.specs.Swept.{opening_standing, EndsAt, EndsAs, ForwardsAs, IsOpened};

use crate::opening::Opened;
use crate::stop::{ForwardStop, named};
use forward_state::{Forward, Run};
use forward_sweep::run_steps;
use meaning::Value;
use resolved::SlotTable;
use ring_core::Steps;
use std::alloc::Global;
use std::sync::ledger::Ledger;
use store_core::Tape;
use sweep_steps::Step;
use touches::Watch;

/// What a forward sweep leaves: the contents of all places, without tangents, and the tape.
#[derive(Drop)]
pub struct Forwarded<W> {
    pub cells: Vec<Option<Value>>,
    pub tape: Tape,
    pub watch: W,
}

/// A sweep that begins outside of loops.
fn begin<W: Watch>(alloc: Global, cells: Vec<Option<Value>>, watch: W) -> Forward<W>
    requires watches { W.places watch ≡ length cells.items }
    ensures holds { (names : Names) → Holds result.run (W.stands_for result.watch) (W.places result.watch) W.judge (opening_standing W.judge names cells.items) }
    ensures ticks { ticks_of result.run ≡ 0 }
{
    let run = Run {
        cells,
        line: 0,
        around: None,
        iteration: 0,
        statements: 0,
        touches: 0,
        words: 0,
        stop: None,
        lost: false,
        tape: Tape::new(alloc),
        running: None,
    };
    Forward { alloc, run, watch }
}

/// What is left of a sweep, or why it stopped.
fn end<W: Watch + Drop>(
    alloc: Global,
    table: &SlotTable,
    swept: Forward<W>,
) -> Result<Forwarded<W>, ForwardStop>
    ensures { EndsAs (λ f. record { cells = f.cells.items; tape = f.tape }) table.now swept.run result }
{
    let Forward { run, watch, .. } = swept;
    let Run {
        cells,
        tape,
        stop,
        lost,
        ..
    } = run;
    if lost {
        return Err(ForwardStop::Memory);
    }
    match stop {
        Some(stop) => Err(named(alloc, table, stop)),
        None => Ok(Forwarded { cells, tape, watch }),
    }
}

/// Runs statements over cells.
fn sweep<W: Watch + Drop, L: Ledger>(
    alloc: Global,
    table: &SlotTable,
    body: &[Step],
    cells: Vec<Option<Value>>,
    watch: W,
    steps: &mut Steps<L>,
) -> Result<Forwarded<W>, ForwardStop>
    requires watches { W.places watch ≡ length cells.items }
    ensures { EndsAt (λ f. record { cells = f.cells.items; tape = f.tape }) table.now
        (steps_run table.now (step_trees body.now) (opening_standing W.judge table.now cells.items)) result steps.old steps.new }
{
    let mut run = begin(alloc, cells, watch);
    run_steps(&mut run, table, steps, body);
    end(alloc, table, run)
}

/// Runs a program forward from its opening. It ticks once for each statement instance that begins up to the first stop, that one
/// too where it is the stop. It ends early at the first trap, past a limit, and at the end of a parallel loop whose touches the
/// watch finds to clash; the watch looks at as many places as there are cells.
pub fn forward<W: Watch + Drop, L: Ledger>(
    alloc: Global,
    opened: Opened,
    watch: W,
    steps: &mut Steps<L>,
) -> Result<Forwarded<W>, ForwardStop>
    requires watches { W.places watch ≡ length opened.cells.items }
    ensures { (p : Subroutine) (shapes : List LaidShape) (pushed : List ℕ → Bool) (words : List ℕ)
        → IsOpened p shapes pushed words opened.table (step_trees opened.body) opened.cells.items
        → ForwardsAs (λ f. record { cells = f.cells.items; tape = f.tape }) W.judge (meaning p shapes pushed words []) result steps.old steps.new }
{
    let Opened { table, cells, body } = opened;
    sweep(alloc, &table, body.as_slice(), cells, watch, steps)
}
