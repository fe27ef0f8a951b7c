ghost use Rattle.std.specs.Prelude.{◌≡◌, ◌<◌, ◌≤◌, length, None, Some, Option, List, slice_index};
ghost use Rattle.transposition.specs.Tapes.{Tape as TapeTree, Tapes, tape_at, rest, top, top_tapes};
ghost use Rattle.forward_law.specs.Forward.{tape_back};
ghost use Rattle.reverse_state.specs.Reading.{lists_back, now_of, around_of, words_of as words_of_lem, AreWithin, Takes, TakesWord};

use std::marker::Model;
use store_core::{IterationTapes, Tape};

/// The tapes of a parallel loop's iterations, and how many words are left of the one that is read. No word is copied.
#[derive(Drop)]
pub(crate) struct Iterations {
    tapes: Option<IterationTapes>,
    iteration: u128,
    left: usize,
}

/// A tape that is read downwards, in a parallel loop that of an iteration.
#[derive(Drop)]
pub(crate) struct Reading {
    tape: Tape,
    inside: Option<Iterations>,
}

impl Model for Reading {
    ghost use Rattle.reverse_state.specs.Reading.{TapeReading, inside_of, IsWithin};

    ghost Value = { TapeReading };

    ghost view = { λ r. record { items = r.tape; inside = inside_of r.inside } };

    ghost invariant = { λ r. IsWithin r.inside };
}

/// Takes the word on top of a tape.
fn word_from(tape: &mut Tape) -> u64
    ensures word { result ≡ top (tape_back tape.old) }
    ensures rest { tape_back tape.new ≡ rest (tape_back tape.old) }
{
    tape.take_word()
}

/// Takes the tapes of iterations on top of a tape.
fn tapes_from(tape: &mut Tape) -> Option<IterationTapes>
    ensures tapes { lists_back result ≡ top_tapes (tape_back tape.old) }
    ensures rest { tape_back tape.new ≡ rest (tape_back tape.old) }
{
    tape.take_any()
}

/// The words of an iteration.
fn words_of(tapes: &Option<IterationTapes>, iteration: u128) -> &[u64]
    ensures { result.now ≡ words_of_lem tapes.now iteration }
{
    match tapes {
        None => &[],
        Some(tapes) => {
            if iteration < tapes.count() as u128 {
                tapes.tape(iteration as usize)
            } else {
                &[]
            }
        }
    }
}

fn word_at(words: &[u64], at: usize) -> u64
    requires { at < length words.now }
    ensures { result ≡ slice_index words.now at }
{
    words[at]
}

/// Reads the next word of an iteration, 0 after its last.
fn next_word(inside: &mut Iterations) -> u64
    requires { AreWithin inside.old }
    ensures { TakesWord inside.old inside.new result }
{
    if inside.left == 0 {
        return 0;
    }
    inside.left -= 1;
    word_at(words_of(&inside.tapes, inside.iteration), inside.left)
}

/// Reads the words of an iteration from the last on.
fn begin_words(inside: &mut Iterations, iteration: u128)
    ensures { inside.new ≡ record { tapes = inside.old.tapes; iteration = iteration; left = length (words_of_lem inside.old.tapes iteration) } }
{
    inside.iteration = iteration;
    inside.left = words_of(&inside.tapes, iteration).len();
}

impl Reading {
    pub fn of(tape: Tape) -> Reading
        ensures { result ≡ record { items = tape; inside = None } }
    {
        Reading { tape, inside: None }
    }

    /// Takes what is on top: its word, 0 where it is none.
    pub fn pop(&mut self) -> u64
        ensures { Takes self.old self.new result }
    {
        match &mut self.inside {
            None => word_from(&mut self.tape),
            Some(inside) => next_word(inside),
        }
    }

    /// Comes to the tapes of iterations that are on top.
    pub fn enter(&mut self)
        requires { around_of self.old ≡ None }
        ensures { around_of self.new ≡ Some (top_tapes (now_of self.old), rest (now_of self.old)) }
    {
        let tapes = tapes_from(&mut self.tape);
        self.inside = Some(Iterations {
            tapes,
            iteration: 0,
            left: 0,
        });
    }

    /// Reads the tape of an iteration from its top on.
    pub fn begin(&mut self, iteration: u128)
        ensures around { around_of self.new ≡ around_of self.old }
        ensures now { (a : Tapes × TapeTree) → around_of self.old ≡ Some a → now_of self.new ≡ tape_at a.0 iteration }
    {
        match &mut self.inside {
            None => {}
            Some(inside) => begin_words(inside, iteration),
        }
    }

    /// Goes on below the tapes of iterations.
    pub fn leave(&mut self)
        ensures around { around_of self.new ≡ None }
        ensures now { (a : Tapes × TapeTree) → around_of self.old ≡ Some a → now_of self.new ≡ a.1 }
    {
        self.inside = None;
    }
}
