ghost use Rattle.std.specs.Prelude.{◌≡◌, ◌∷◌, [], OnOk, OnErr, slice_get, reverse};
ghost use Rattle.std.specs.Option.{option_copied};
ghost use Rattle.store_core.specs.Tapes.{Item, word, lists, IsWordOnTop, IsListOnTop, is_list_on_top, top_word, top_list, lower, lists_among};
ghost use Rattle.store_core.specs.Tops.{IsTop};

use crate::iteration_tapes::IterationTapes;
use fl_base::Memory;
use std::alloc::Global;
use std::marker::Model;

/// A list of iteration tapes on a tape, with the number of words below it.
#[derive(Drop)]
pub(crate) struct Placed {
    below: usize,
    list: IterationTapes,
}

/// What is on top of a tape.
#[derive(Clone, Copy)]
enum Top {
    Nothing,
    Word,
    List,
}

/// A stack of what the forward run keeps for the reverse one, seen as the list of its items, the top first.
#[derive(Drop)]
pub struct Tape {
    words: Vec<u64>,
    lists: Vec<Placed>,
}

impl Model for Tape {
    ghost use Rattle.std.specs.Prelude.{List, length, reverse};
    ghost use Rattle.store_core.specs.Tapes.{Item};
    ghost use Rattle.store_core.specs.Stacks.{stack, AreBelow};

    ghost Value = { List Item };

    ghost view = { λ tape. stack (reverse tape.words.items) (reverse tape.lists.items) };

    ghost invariant = { λ tape. AreBelow (reverse tape.lists.items) (length tape.words.items) };
}

impl Tape {
    /// An empty tape, which takes no memory.
    pub fn new(alloc: Global) -> Tape
        ensures { result ≡ [] }
    {
        Tape {
            words: Vec::new(alloc),
            lists: Vec::new(alloc),
        }
    }

    /// Puts a word on top. Where memory is wanting the tape is as before.
    pub fn push(&mut self, value: u64) -> Result<(), Memory>
        ensures ok { OnOk result (self.new ≡ word value ∷ self.old) }
        ensures err { OnErr result (self.new ≡ self.old) }
    {
        self.words.push(value)?;
        Ok(())
    }

    /// Takes the word that is on top.
    pub fn pop(&mut self) -> u64
        requires { IsWordOnTop self.old }
        ensures { self.old ≡ word result ∷ self.new }
    {
        match self.words.pop() {
            Some(value) => value,
            None => unreachable!(),
        }
    }

    /// Puts the tapes of a parallel loop's iterations on top. Where memory is wanting the tape is as before.
    pub fn put_list(&mut self, list: IterationTapes) -> Result<(), Memory>
        ensures ok { OnOk result (self.new ≡ lists list ∷ self.old) }
        ensures err { OnErr result (self.new ≡ self.old) }
    {
        let below = self.words.len();
        self.lists.push(Placed { below, list })?;
        Ok(())
    }

    /// Takes the list that is on top.
    pub fn take_list(&mut self) -> IterationTapes
        requires { IsListOnTop self.old }
        ensures { self.old ≡ lists result ∷ self.new }
    {
        match self.lists.pop() {
            Some(Placed { below: _, list }) => list,
            None => unreachable!(),
        }
    }

    /// Takes what is on top, and gives it where it is a word. 0 where a list is on top, and where there is nothing.
    pub fn take_word(&mut self) -> u64
        ensures word { result ≡ top_word self.old }
        ensures rest { self.new ≡ lower self.old }
    {
        match self.top() {
            Top::Nothing => 0,
            Top::Word => self.pop(),
            Top::List => {
                self.take_list();
                0
            }
        }
    }

    /// Takes what is on top, and gives it where it is a list. None where a word is on top, and where there is nothing.
    pub fn take_any(&mut self) -> Option<IterationTapes>
        ensures list { result ≡ top_list self.old }
        ensures rest { self.new ≡ lower self.old }
    {
        match self.top() {
            Top::Nothing => None,
            Top::Word => {
                self.pop();
                None
            }
            Top::List => Some(self.take_list()),
        }
    }

    fn top(&self) -> Top
        ensures { IsTop result self.now }
    {
        if self.has_list_on_top() {
            Top::List
        } else if self.words.as_slice().is_empty() {
            Top::Nothing
        } else {
            Top::Word
        }
    }

    fn has_list_on_top(&self) -> bool
        ensures { result ≡ is_list_on_top self.now }
    {
        match self.lists.last() {
            None => false,
            Some(placed) => placed.below == self.words.as_slice().len(),
        }
    }

    /// The list with this number from the bottom, counted from 0. None exactly where there are fewer.
    pub fn list(&self, number: u64) -> Option<&IterationTapes>
        ensures { option_copied result ≡ slice_get (reverse (lists_among self.now)) number }
    {
        match self.lists.get(number as usize) {
            Some(placed) => Some(&placed.list),
            None => None,
        }
    }
}
