ghost use Rattle.std.specs.Prelude.{◌≡◌, ◌<◌, ◌≤◌, ◌-◌, ◌∷◌, ◌++◌, [], OnOk, OnErr, length, slice_index_or, take, drop};
ghost use Rattle.store_core.specs.Tapes.{with_word};
ghost use Rattle.store_core.specs.FlatTapes.{pieces, AreStarts, end_of};

use fl_base::{Items, Memory, Name};
use std::alloc::Global;
use std::marker::Model;

/// The tapes of one execution of a parallel loop, one for each iteration, with the loop's bounds as they were pushed and
/// the values of the sequential loop variables around it, the outermost first. Iterations are numbered from 0.
#[derive(Drop)]
pub struct IterationTapes {
    bounds: Items<i64>,
    outer: Items<(Name, i64)>,
    words: Vec<u64>,
    starts: Vec<usize>,
}

impl Model for IterationTapes {
    ghost use Rattle.store_core.specs.Tapes.{IterationLists};
    ghost use Rattle.store_core.specs.FlatTapes.{pieces, AreStarts};
    ghost use Rattle.std.specs.Prelude.{length};

    ghost Value = { IterationLists };

    ghost view = { λ l. record { bounds = l.bounds; outer = l.outer; tapes = pieces l.words.items l.starts.items } };

    ghost invariant = { λ l. AreStarts l.starts.items (length l.words.items) };
}

impl IterationTapes {
    /// No tape yet. It takes no memory.
    pub fn new(alloc: Global, bounds: Items<i64>, outer: Items<(Name, i64)>) -> IterationTapes
        ensures { result ≡ record { bounds = bounds; outer = outer; tapes = [] } }
    {
        IterationTapes {
            bounds,
            outer,
            words: Vec::new(alloc),
            starts: Vec::new(alloc),
        }
    }

    /// The number of iterations that have a tape.
    pub fn count(&self) -> usize
        ensures { result ≡ length self.now.tapes }
    {
        self.starts.len()
    }

    pub fn bounds(&self) -> &[i64]
        ensures { result.now ≡ self.now.bounds }
    {
        self.bounds.as_slice()
    }

    pub fn outer(&self) -> &[(Name, i64)]
        ensures { result.now ≡ self.now.outer }
    {
        self.outer.as_slice()
    }

    /// Begins the tape of the next iteration. Where memory is wanting nothing changes.
    pub fn begin(&mut self) -> Result<(), Memory>
        ensures ok { OnOk result (self.new ≡ record self.old { tapes = self.old.tapes ++ [] ∷ [] }) }
        ensures err { OnErr result (self.new ≡ self.old) }
    {
        let start = self.words.len();
        self.starts.push(start)?;
        Ok(())
    }

    /// Puts a word on the tape of the iteration that was begun last. Where memory is wanting nothing changes.
    pub fn push(&mut self, word: u64) -> Result<(), Memory>
        requires { 0 < length self.old.tapes }
        ensures ok { OnOk result (self.new ≡ record self.old { tapes = with_word self.old.tapes word }) }
        ensures err { OnErr result (self.new ≡ self.old) }
    {
        self.words.push(word)?;
        Ok(())
    }

    /// The words of an iteration, in the order in which they were pushed.
    pub fn tape(&self, iteration: usize) -> &[u64]
        requires { iteration < length self.now.tapes }
        ensures { result.now ≡ slice_index_or self.now.tapes iteration [] }
    {
        piece(&self.words, &self.starts, iteration)
    }
}

/// Where the piece with this number ends, of so many words.
fn end(starts: &[usize], at: usize, words: usize) -> usize
    requires { at < length starts.now }
    ensures { result ≡ end_of starts.now at words }
{
    if at + 1 < starts.len() {
        starts[at + 1]
    } else {
        words
    }
}

fn part(words: &[u64], start: usize, end: usize) -> &[u64]
    requires order { start ≤ end }
    requires within { end ≤ length words.now }
    ensures { result.now ≡ take (end - start) (drop start words.now) }
{
    &words[start..end]
}

fn piece<'a>(words: &'a [u64], starts: &[usize], at: usize) -> &'a [u64]
    requires within { at < length starts.now }
    requires starts { AreStarts starts.now (length words.now) }
    ensures { result.now ≡ slice_index_or (pieces words.now starts.now) at [] }
{
    part(words, starts[at], end(starts, at, words.len()))
}
