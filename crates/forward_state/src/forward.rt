ghost use Rattle.std.specs.Prelude.{◌≡◌, ◌+◌, ◌||◌, is_some, Some, Option, pos, List, OnOk};
ghost use Rattle.store_core.specs.Tapes.{Item};
ghost use Rattle.meaning.specs.Expressions.{content};
ghost use Rattle.meaning.specs.declared.value.Value.{Value};
ghost use Rattle.meaning.specs.declared.value.Value.TheVariants.{Index as index_value};
ghost use Rattle.meaning.specs.Sites.{with_tangent, word_of as word_of_lem};
ghost use Rattle.sweep_evaluation.specs.Machine.{Told};
ghost use Rattle.sweep_law.specs.Telling.{Standing, told};
ghost use Rattle.forward_state.specs.Holding.{Holds, Leaves, ticks_of};
ghost use Rattle.forward_state.specs.Steps.{noted, begun, touched_at, set_at, pushed, on_line, entered, with_word_on, with_tape, with_next_tape, in_iteration, closed, left, touched_if, pushed_old, number_set, unset_at, scalar_pushed};

use crate::run::{Run, SweepStop};
use crate::words::{cell, cell_at, word_of};
use dual_evaluation::Halt;
use fl_base::{Items, Memory, Name};
use fl_types::AccessKind;
use meaning::{Dual, Value};
use ring_core::{Index, Steps};
use std::alloc::Global;
use std::sync::ledger::Ledger;
use store_core::{IterationTapes, Tape};
use sweep_evaluation::Access;
use touches::Watch;

/// The most statement instances, touches and words on the tape that a run may have.
const STATEMENTS: u32 = 0x100_0000;

const TOUCHES: u32 = 0x100_0000;

const WORDS: u32 = 0x80_0000;

/// A forward sweep, with what watches the touches of its parallel loops. The first stop is kept, and after it nothing
/// changes.
#[derive(Drop)]
pub struct Forward<W> {
    pub alloc: Global,
    pub run: Run,
    pub watch: W,
}

impl<W: Watch> Access for Forward<W> {
    ghost State = { Standing };

    ghost told = { told };

    ghost stands = { λ f s. Holds f.run (W.stands_for f.watch) (W.places f.watch) W.judge s };

    ghost lost = { λ f. f.run.lost };

    ghost steady = { λ f. ticks_of f.run };

    #[inline(always)]
    fn load(&mut self, slot: usize, place: u32, accessed: bool) -> u64 {
        let content = cell(&self.run.cells, place);
        if content.is_none() {
            self.stop(Halt::Unset { slot });
            return 0;
        }
        if accessed {
            self.touch(place, AccessKind::Read);
        }
        word_of(content)
    }

    #[inline(never)]
    fn stop(&mut self, why: Halt) {
        if self.run.stop.is_none() {
            self.run.stop = Some(SweepStop::Trap {
                line: self.run.line,
                halt: why,
            });
        }
    }

    fn alloc(&self) -> Global {
        self.alloc
    }

    fn lose(&mut self) {
        self.run.lost = true;
    }
}

impl<W: Watch> Forward<W> {
    /// The iteration that runs touches a place. Outside parallel loops nothing is touched.
    #[inline(always)]
    pub fn touch(&mut self, place: u32, kind: AccessKind)
        ensures left { Leaves self.old.run self.new.run (W.stands_for self.old.watch) (W.stands_for self.new.watch)
            (W.places self.old.watch) (W.places self.new.watch) W.judge (λ s. touched_at s place kind) }
        ensures ticks { ticks_of self.new.run ≡ ticks_of self.old.run }
    {
        if self.run.stop.is_some() {
            return;
        }
        if self.run.around.is_none() {
            return;
        }
        if place as usize >= self.run.cells.len() {
            return;
        }
        if self.run.touches >= TOUCHES {
            self.run.stop = Some(SweepStop::Touches);
            return;
        }
        self.run.touches += 1;
        if self
            .watch
            .touch(self.alloc, place, self.run.iteration, kind)
            .is_err()
        {
            self.run.lost = true;
        }
    }

    /// A statement instance begins, where one may still. It ticks.
    #[inline(always)]
    pub fn begin<L: Ledger>(&mut self, steps: &mut Steps<L>)
        ensures left { Leaves self.old.run self.new.run (W.stands_for self.old.watch) (W.stands_for self.new.watch)
            (W.places self.old.watch) (W.places self.new.watch) W.judge begun }
        ensures ticks { steps.new + ticks_of self.old.run ≡ steps.old + ticks_of self.new.run }
    {
        if self.run.stop.is_some() {
            return;
        }
        steps.tick();
        if self.run.statements >= STATEMENTS {
            self.run.stop = Some(SweepStop::Statements);
            return;
        }
        self.run.statements += 1;
    }

    /// The statement at a line runs.
    #[inline(always)]
    pub fn at_line(&mut self, line: u32)
        ensures left { Leaves self.old.run self.new.run (W.stands_for self.old.watch) (W.stands_for self.new.watch)
            (W.places self.old.watch) (W.places self.new.watch) W.judge (on_line line) }
        ensures ticks { ticks_of self.new.run ≡ ticks_of self.old.run }
    {
        self.run.line = line;
    }

    /// A place gets a content, without its tangent.
    #[inline(always)]
    pub fn set(&mut self, place: u32, content: Option<Value>)
        ensures left { Leaves self.old.run self.new.run (W.stands_for self.old.watch) (W.stands_for self.new.watch)
            (W.places self.old.watch) (W.places self.new.watch) W.judge (λ s. set_at s place content) }
        ensures ticks { ticks_of self.new.run ≡ ticks_of self.old.run }
    {
        if self.run.stop.is_some() {
            return;
        }
        if (place as usize) < self.run.cells.len() {
            self.run.cells[place as usize] = still(content);
        }
    }

    /// A content's word goes to the tape.
    #[inline(always)]
    pub fn push(&mut self, content: Option<Value>)
        ensures left { Leaves self.old.run self.new.run (W.stands_for self.old.watch) (W.stands_for self.new.watch)
            (W.places self.old.watch) (W.places self.new.watch) W.judge (λ s. pushed s content) }
        ensures ticks { ticks_of self.new.run ≡ ticks_of self.old.run }
    {
        self.push_word(word_of(content));
    }

    /// A number's word goes to the tape.
    #[inline(always)]
    pub fn push_number(&mut self, number: u64)
        ensures left { Leaves self.old.run self.new.run (W.stands_for self.old.watch) (W.stands_for self.new.watch)
            (W.places self.old.watch) (W.places self.new.watch) W.judge (λ s. pushed s (Some (index_value (pos number)))) }
        ensures ticks { ticks_of self.new.run ≡ ticks_of self.old.run }
    {
        self.push_word(number);
    }

    #[inline(always)]
    fn push_word(&mut self, word: u64)
        ensures left { (v : Option Value) → word_of_lem v ≡ word → Leaves self.old.run self.new.run (W.stands_for self.old.watch) (W.stands_for self.new.watch)
            (W.places self.old.watch) (W.places self.new.watch) W.judge (λ s. pushed s v) }
        ensures ticks { ticks_of self.new.run ≡ ticks_of self.old.run }
    {
        if self.run.stop.is_some() {
            return;
        }
        if self.run.words >= WORDS {
            self.run.stop = Some(SweepStop::Words);
            return;
        }
        self.run.words += 1;
        if push_word(&mut self.run.tape, &mut self.run.running, word).is_err() {
            self.run.lost = true;
        }
    }

    /// Whether nothing more has to be done: something stopped, or memory was wanting.
    #[inline(always)]
    pub fn is_over(&self) -> bool
        ensures over { result ≡ (is_some self.now.run.stop || self.now.run.lost) }
    {
        self.run.stop.is_some() || self.run.lost
    }

    /// The content of a place.
    #[inline(always)]
    pub fn content(&self, place: u32) -> Option<Value>
        ensures { result ≡ content self.now.run.cells.items place }
    {
        cell(&self.run.cells, place)
    }

    /// The same as `touch`, where the occurrence is an access.
    #[inline(always)]
    pub fn touch_if(&mut self, accessed: bool, place: u32, kind: AccessKind)
        ensures left { Leaves self.old.run self.new.run (W.stands_for self.old.watch) (W.stands_for self.new.watch)
            (W.places self.old.watch) (W.places self.new.watch) W.judge (touched_if accessed place kind) }
        ensures ticks { ticks_of self.new.run ≡ ticks_of self.old.run }
    {
        if accessed {
            self.touch(place, kind);
        }
    }

    /// The content of a place goes to the tape, where it is pushed.
    #[inline(always)]
    pub fn push_old(&mut self, pushes: bool, place: u32)
        ensures left { Leaves self.old.run self.new.run (W.stands_for self.old.watch) (W.stands_for self.new.watch)
            (W.places self.old.watch) (W.places self.new.watch) W.judge (pushed_old pushes place) }
        ensures ticks { ticks_of self.new.run ≡ ticks_of self.old.run }
    {
        if pushes {
            let content = cell(&self.run.cells, place);
            self.push(content);
        }
    }

    /// A loop's variable, where it has a place, is set for a turn.
    #[inline(always)]
    pub fn set_number(&mut self, place: Option<u32>, number: i32)
        ensures left { Leaves self.old.run self.new.run (W.stands_for self.old.watch) (W.stands_for self.new.watch)
            (W.places self.old.watch) (W.places self.new.watch) W.judge (number_set place number) }
        ensures ticks { ticks_of self.new.run ≡ ticks_of self.old.run }
    {
        if let Some(place) = place {
            self.set(place, Some(Value::Index(Index::of(number))));
        }
    }

    /// A scalar is unset, where it has a place.
    #[inline(always)]
    pub fn unset(&mut self, place: Option<u32>)
        ensures left { Leaves self.old.run self.new.run (W.stands_for self.old.watch) (W.stands_for self.new.watch)
            (W.places self.old.watch) (W.places self.new.watch) W.judge (unset_at place) }
        ensures ticks { ticks_of self.new.run ≡ ticks_of self.old.run }
    {
        if let Some(place) = place {
            self.set(place, None);
        }
    }

    /// The content of a scalar goes to the tape, where it is pushed.
    #[inline(always)]
    pub fn push_scalar(&mut self, pushes: bool, place: Option<u32>)
        ensures left { Leaves self.old.run self.new.run (W.stands_for self.old.watch) (W.stands_for self.new.watch)
            (W.places self.old.watch) (W.places self.new.watch) W.judge (scalar_pushed pushes place) }
        ensures ticks { ticks_of self.new.run ≡ ticks_of self.old.run }
    {
        if pushes {
            let content = cell_at(&self.run.cells, place);
            self.push(content);
        }
    }

    /// The iterations of the parallel loop at a line come, whose bounds are these, with the variables of the sequential loops
    /// around it, the outermost first.
    pub fn enter(&mut self, line: u32, bounds: Items<i64>, outer: Items<(Name, i64)>)
        ensures left { Leaves self.old.run self.new.run (W.stands_for self.old.watch) (W.stands_for self.new.watch)
            (W.places self.old.watch) (W.places self.new.watch) W.judge (entered line bounds outer) }
        ensures ticks { ticks_of self.new.run ≡ ticks_of self.old.run }
    {
        if self.run.around.is_some() {
            return;
        }
        self.watch.enter(line);
        self.run.around = Some(line);
        self.run.running = Some(IterationTapes::new(self.alloc, bounds, outer));
    }

    /// An iteration begins. It ticks.
    #[inline(always)]
    pub fn iterate<L: Ledger>(&mut self, iteration: u64, steps: &mut Steps<L>)
        ensures left { Leaves self.old.run self.new.run (W.stands_for self.old.watch) (W.stands_for self.new.watch)
            (W.places self.old.watch) (W.places self.new.watch) W.judge (in_iteration iteration) }
        ensures ticks { steps.new + ticks_of self.old.run ≡ steps.old + ticks_of self.new.run }
    {
        self.next_tape(iteration);
        self.begin(steps);
    }

    #[inline(always)]
    fn next_tape(&mut self, iteration: u64)
        ensures left { Leaves self.old.run self.new.run (W.stands_for self.old.watch) (W.stands_for self.new.watch)
            (W.places self.old.watch) (W.places self.new.watch) W.judge (with_next_tape iteration) }
        ensures ticks { ticks_of self.new.run ≡ ticks_of self.old.run }
    {
        self.run.iteration = iteration;
        if begin_tape(&mut self.run.running).is_err() {
            self.run.lost = true;
        }
    }

    /// The last iteration of the parallel loop around is over.
    pub fn leave(&mut self)
        ensures left { Leaves self.old.run self.new.run (W.stands_for self.old.watch) (W.stands_for self.new.watch)
            (W.places self.old.watch) (W.places self.new.watch) W.judge left }
        ensures ticks { ticks_of self.new.run ≡ ticks_of self.old.run }
    {
        if self.run.around.is_none() {
            return;
        }
        let conflict = self.watch.leave();
        self.run.around = None;
        self.run.iteration = 0;
        if close_tapes(&mut self.run.tape, &mut self.run.running).is_err() {
            self.run.lost = true;
        }
        if self.run.stop.is_none() {
            if let Some(conflict) = conflict {
                self.run.stop = Some(SweepStop::Conflict(conflict));
            }
        }
    }
}

/// A content without its tangent.
fn still(content: Option<Value>) -> Option<Value>
    ensures { result ≡ with_tangent 0 content }
{
    match content {
        Some(Value::Ring(dual)) => Some(Value::Ring(Dual::constant(dual.value))),
        other => other,
    }
}

/// A word more, in a parallel loop on the tape of the last iteration.
fn push_word(tape: &mut Tape, running: &mut Option<IterationTapes>, word: u64) -> Result<(), Memory>
    ensures { OnOk result (record { items = tape.new; running = running.new } ≡ with_word_on (record { items = tape.old; running = running.old }) word) }
{
    match running {
        None => tape.push(word),
        Some(tapes) => {
            if tapes.count() == 0 {
                return Ok(());
            }
            tapes.push(word)
        }
    }
}

fn begin_tape(running: &mut Option<IterationTapes>) -> Result<(), Memory>
    ensures { (items : List Item) → OnOk result (record { items = items; running = running.new } ≡ with_tape (record { items = items; running = running.old })) }
{
    match running {
        None => Ok(()),
        Some(tapes) => tapes.begin(),
    }
}

/// The tapes of a loop's iterations go onto the tape.
fn close_tapes(tape: &mut Tape, running: &mut Option<IterationTapes>) -> Result<(), Memory>
    ensures { OnOk result (record { items = tape.new; running = running.new } ≡ closed (record { items = tape.old; running = running.old })) }
{
    match running.take() {
        None => Ok(()),
        Some(tapes) => tape.put_list(tapes),
    }
}
