ghost use Rattle.std.specs.Prelude.{◌≡◌, ◌<◌, ◌≤◌, ◌+◌, ◌-◌, ◌%◌, ◌^◌, [], length, replicate, None, Some, false, IfOk};
ghost use Rattle.transposition.specs.Worlds.{Local, is_one_step as is_one_step_lem};
ghost use Rattle.sweep_evaluation.specs.Machine.{ran};
ghost use Rattle.reverse_sweep.specs.Reversing.{opened_sum, closed_sum, added, grown, counted, own_value_set, own_adjoint_set, adjoint_loaded, value_stored, adjoint_stored, value_grown, adjoint_grown};
ghost use Rattle.reverse_state.specs.Holding.{Held, home_of, Placed, told_placed, PlacedStands, Gives, Leaves, word_taken, on_local, on_stage, Enters, Begins, Quits};

use crate::reading::Reading;
use crate::sums::{Sum, add_to, last_amount, put_sum};
use crate::words::{add_word, copy_words, set_word, word_at};
use dual_evaluation::Halt;
use fl_base::Memory;
use fl_types::Choice;
use operations::Cells;
use std::alloc::Global;
use std::marker::Model;
use store_core::Tape;
use sweep_evaluation::Access;

/// A reverse sweep on one thread. A place below `shared` has its value in the cell with its number and its adjoint in the
/// cell `shared` further on; the words of further places are an iteration's own.
#[derive(Drop)]
pub struct Reverse<C: Cells> {
    alloc: Global,
    shared: u32,
    cells: C,
    reading: Reading,
    values: Vec<u64>,
    adjoints: Vec<u64>,
    entry_values: Vec<u64>,
    entry_adjoints: Vec<u64>,
    sums: Vec<Sum>,
    adds: u64,
    lost: bool,
}

impl<C: Cells> Model for Reverse<C> {
    ghost use Rattle.reverse_state.specs.Holding.{Held, IsReversing, sums_back};

    ghost Value = { Held };

    ghost view = { λ r. record {
      shared = r.shared;
      reading = r.reading;
      values = r.values.items;
      adjoints = r.adjoints.items;
      entry_values = r.entry_values.items;
      entry_adjoints = r.entry_adjoints.items;
      cells = C.cells r.cells;
      sums = sums_back r.sums.items;
      adds = r.adds;
      lost = r.lost;
    } };

    ghost invariant = { λ r. IsReversing r.shared (C.cells r.cells) (C.due r.cells) r.values.items r.adjoints.items r.entry_values.items r.entry_adjoints.items };
}

impl<C: Cells> Access for Reverse<C> {
    ghost State = { Placed };

    ghost told = { told_placed };

    ghost stands = { PlacedStands };

    ghost lost = { λ r. r.lost };

    ghost steady = { λ r. 0 };

    #[inline(always)]
    fn load(&mut self, _slot: usize, place: u32, _accessed: bool) -> u64 {
        if place < self.shared {
            self.cells.load(place)
        } else {
            word_at(&self.values, (place - self.shared) as usize)
        }
    }

    fn stop(&mut self, _why: Halt) {}

    fn alloc(&self) -> Global {
        self.alloc
    }

    fn lose(&mut self) {
        self.lost = true;
    }
}

/// Whether additions are made in one step.
fn is_one_step(choice: Choice) -> bool
    ensures { result ≡ is_one_step_lem choice }
{
    match choice {
        Choice::Shared => false,
        Choice::Atomic => true,
        Choice::Reduction => true,
    }
}

/// A word is below 2^64.
fn same(word: u64) -> u64
    ensures { result ≡ word % 2 ^ 64 }
{
    word
}

impl<C: Cells + Drop> Reverse<C> {
    /// A sweep that has done nothing yet, over the cells of `shared` places and so many words of an iteration's own, which are 0.
    pub fn new(
        alloc: Global,
        cells: C,
        shared: u32,
        own: usize,
        tape: Tape,
    ) -> Result<Reverse<C>, Memory>
        requires few { shared ≤ 1048576 }
        requires doubled { length (C.cells cells) ≡ shared + shared }
        requires alone { C.due cells ≡ None }
        ensures { IfOk result (λ r. r ≡ record {
          shared = shared;
          reading = record { items = tape; inside = None };
          values = replicate own 0;
          adjoints = replicate own 0;
          entry_values = replicate own 0;
          entry_adjoints = replicate own 0;
          cells = C.cells cells;
          sums = [];
          adds = 0;
          lost = false;
        }) }
    {
        let values = vec![in alloc; 0u64; own]?;
        let adjoints = vec![in alloc; 0u64; own]?;
        let entry_values = vec![in alloc; 0u64; own]?;
        let entry_adjoints = vec![in alloc; 0u64; own]?;
        Ok(Reverse {
            alloc,
            shared,
            cells,
            reading: Reading::of(tape),
            values,
            adjoints,
            entry_values,
            entry_adjoints,
            sums: Vec::new(alloc),
            adds: 0,
            lost: false,
        })
    }
}

impl<C: Cells> Reverse<C> {
    /// Whether memory was wanting, so that nothing is known of the cells.
    pub fn is_lost(&self) -> bool
        ensures { result ≡ self.now.lost }
    {
        self.lost
    }

    /// How many atomic additions to adjoints there were, modulo 2^64.
    pub fn adds(&self) -> u64
        ensures { result ≡ self.now.adds % 2 ^ 64 }
    {
        same(self.adds)
    }

    /// The adjoint at a place, 0 where there is none.
    #[inline(always)]
    pub fn load_adjoint(&mut self, place: Option<u32>) -> u64
        ensures { Gives self.old self.new result (adjoint_loaded self.old.shared place) }
    {
        match place {
            None => 0,
            Some(place) => {
                if place < self.shared {
                    self.cells.load(self.shared + place)
                } else {
                    word_at(&self.adjoints, (place - self.shared) as usize)
                }
            }
        }
    }

    /// Stores a word, where it has a place.
    #[inline(always)]
    pub fn store_value(&mut self, word: u64, place: Option<u32>)
        ensures { Leaves self.old self.new (value_stored self.old.shared word place) }
    {
        match place {
            None => {}
            Some(place) => {
                if place < self.shared {
                    self.cells.store(place, word);
                } else {
                    set_word(&mut self.values, (place - self.shared) as usize, word);
                }
            }
        }
    }

    /// Stores an adjoint, where it has a place.
    #[inline(always)]
    pub fn store_adjoint(&mut self, word: u64, place: Option<u32>)
        ensures { Leaves self.old self.new (adjoint_stored self.old.shared word place) }
    {
        match place {
            None => {}
            Some(place) => {
                if place < self.shared {
                    self.cells.store(self.shared + place, word);
                } else {
                    set_word(&mut self.adjoints, (place - self.shared) as usize, word);
                }
            }
        }
    }

    /// Adds to the newest sum of a cell, or else to the cell.
    fn add(&mut self, cell: u32, amount: u64)
        requires { cell < self.old.shared + self.old.shared }
        ensures { Leaves self.old self.new (on_stage (added cell amount)) }
    {
        let is_summed = add_to(&mut self.sums, cell, amount);
        if !is_summed {
            self.cells.add(cell, amount);
        }
    }

    /// Adds in one step, or by a load and a store.
    fn grow(&mut self, one_step: bool, cell: u32, amount: u64)
        requires { cell < self.old.shared + self.old.shared }
        ensures { Leaves self.old self.new (on_stage (grown one_step cell amount)) }
    {
        if one_step {
            self.add(cell, amount);
        } else {
            let word = self.cells.load(cell);
            self.cells.store(cell, word.wrapping_add(amount));
        }
    }

    /// Adds to the word at a place, where there is one.
    pub fn grow_value(&mut self, one_step: bool, amount: u64, place: Option<u32>)
        ensures { Leaves self.old self.new (value_grown self.old.shared one_step amount place) }
    {
        match place {
            None => {}
            Some(place) => {
                if place < self.shared {
                    self.grow(one_step, place, amount);
                } else {
                    add_word(&mut self.values, (place - self.shared) as usize, amount);
                }
            }
        }
    }

    /// Counts an addition where it is atomic.
    fn count(&mut self, choice: Choice)
        ensures { Leaves self.old self.new (on_stage (counted choice)) }
    {
        match choice {
            Choice::Shared => {}
            Choice::Atomic => self.adds = self.adds.wrapping_add(1),
            Choice::Reduction => {}
        }
    }

    /// Adds to the adjoint at a shared place.
    fn grow_shared(&mut self, choice: Choice, cell: u32, amount: u64)
        requires { cell < self.old.shared + self.old.shared }
        ensures { Leaves self.old self.new (λ s. on_stage (counted choice) (on_stage (grown (is_one_step_lem choice) cell amount) s)) }
    {
        self.grow(is_one_step(choice), cell, amount);
        self.count(choice);
    }

    /// Adds to the adjoint at a place, where there is one.
    pub fn grow_adjoint(&mut self, choice: Choice, amount: u64, place: Option<u32>)
        ensures { Leaves self.old self.new (adjoint_grown self.old.shared choice amount place) }
    {
        match place {
            None => {}
            Some(place) => {
                if place < self.shared {
                    self.grow_shared(choice, self.shared + place, amount);
                } else {
                    add_word(&mut self.adjoints, (place - self.shared) as usize, amount);
                }
            }
        }
    }

    /// Takes what is on top of the tape: its word, 0 where it is none.
    pub fn pop(&mut self) -> u64
        ensures { Gives self.old self.new result word_taken }
    {
        self.reading.pop()
    }

    /// Sets a word of an iteration's own. At a shared place nothing is set.
    pub fn set_own_value(&mut self, place: Option<u32>, word: u64)
        ensures { Leaves self.old self.new (on_local (own_value_set self.old.shared place word)) }
    {
        match place {
            None => {}
            Some(place) => {
                if place >= self.shared {
                    set_word(&mut self.values, (place - self.shared) as usize, word);
                }
            }
        }
    }

    /// Sets an adjoint of an iteration's own. At a shared place nothing is set.
    pub fn set_own_adjoint(&mut self, place: Option<u32>, word: u64)
        ensures { Leaves self.old self.new (on_local (own_adjoint_set self.old.shared place word)) }
    {
        match place {
            None => {}
            Some(place) => {
                if place >= self.shared {
                    set_word(&mut self.adjoints, (place - self.shared) as usize, word);
                }
            }
        }
    }

    /// Begins a sum of the additions to the adjoint at a shared place.
    pub fn open_sum(&mut self, place: u32)
        requires { place < self.old.shared }
        ensures { Leaves self.old self.new (on_stage (opened_sum (self.old.shared + place))) }
    {
        if put_sum(&mut self.sums, self.shared + place).is_err() {
            self.lost = true;
        }
    }

    /// Adds the newest sum, which is that of the adjoint at a shared place.
    pub fn close_sum(&mut self, place: u32)
        requires { place < self.old.shared }
        ensures { Leaves self.old self.new (on_stage (closed_sum (self.old.shared + place))) }
    {
        let cell = self.shared + place;
        let amount = last_amount(&mut self.sums);
        self.add(cell, amount);
    }

    /// Comes to the iterations of a parallel loop, whose tapes are on top. Each of them begins with the words of an iteration's own that
    /// are here now.
    pub fn enter(&mut self)
        requires { home_of self.old ≡ None }
        ensures { Enters self.old self.new }
    {
        copy_words(&self.values, &mut self.entry_values);
        copy_words(&self.adjoints, &mut self.entry_adjoints);
        self.reading.enter();
    }

    /// Begins an iteration.
    pub fn begin(&mut self, iteration: u128)
        ensures { Begins iteration self.old self.new }
    {
        copy_words(&self.entry_values, &mut self.values);
        copy_words(&self.entry_adjoints, &mut self.adjoints);
        self.reading.begin(iteration);
    }

    /// Goes on below the tapes of the iterations, with the words that were there at the loop's entry.
    pub fn quit(&mut self)
        ensures { Quits self.old self.new }
    {
        copy_words(&self.entry_values, &mut self.values);
        copy_words(&self.entry_adjoints, &mut self.adjoints);
        self.reading.leave();
    }

    pub fn into_cells(self) -> C
        ensures cells { C.cells result ≡ self.cells }
        ensures doubled { length (C.cells result) ≡ self.shared + self.shared }
    {
        let Reverse { cells, .. } = self;
        cells
    }
}
