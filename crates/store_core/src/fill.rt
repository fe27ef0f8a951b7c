ghost use Rattle.std.specs.Prelude.{◌≡◌, ◌+◌, ◌*◌, ◌≤◌, ◌^◌, length, take, drop, map, slice_index, IfOk};
ghost use Rattle.store_core.specs.Keys.{keys_of};
ghost use Rattle.store_core.specs.Filled.{fitted, place_words, opening_words, seeded_words, written, entry_at, entries_at};

use crate::layout::Layout;
use crate::values::{Args, Entry, Weights, words};
use cells::Store;
use fl_base::{Items, Memory, Name};
use std::alloc::Global;

/// Writes words from a cell on, and zeros where there are fewer than `count`.
fn fill(store: &mut Store, at: u32, count: u32, words: &[u64])
    requires within { at + count ≤ length store.old }
    requires few { length store.old ≤ 2 ^ 22 }
    ensures { store.new ≡ written store.old at (fitted count words.now) }
{
    for k in 0..count {
        store.set(at + k, word_at(words, k as usize));
    }
}

/// The word at a position, 0 after the last.
fn word_at(words: &[u64], k: usize) -> u64
    ensures { result ≡ slice_index words.now k }
{
    match words.get(k) {
        Some(word) => *word,
        None => 0,
    }
}

impl Layout {
    /// Writes the words of all places from a cell on.
    fn fill(&self, store: &mut Store, base: u32, entries: &[Entry])
        requires within { base + length (keys_of self.now) ≤ length store.old }
        requires few { length store.old ≤ 2 ^ 22 }
        ensures { store.new ≡ written store.old base (place_words self.now entries.now) }
    {
        let shapes = self.shapes();
        for (i, shape) in shapes.iter().enumerate() {
            let first = self.first(i);
            let count = self.next(i) - first;
            fill(store, base + first, count, words(entries, &shape.name));
        }
    }

    /// The words of all places, 0 where a name has no entry.
    pub fn words_of(&self, alloc: Global, entries: &[Entry]) -> Result<Vec<u64>, Memory>
        ensures { IfOk result (λ words. words.items ≡ place_words self.now entries.now) }
    {
        let mut store = Store::zeros(alloc, self.count() as usize)?;
        self.fill(&mut store, 0, entries);
        Ok(store.into_words())
    }

    /// The store at a run's start: the arguments' words, and 0 in every other cell.
    pub fn opening(&self, alloc: Global, args: &Args) -> Result<Store, Memory>
        ensures words { IfOk result (λ store. store ≡ opening_words self.now args.now.entries) }
        ensures paired { IfOk result (λ store. length store ≡ 2 * length (keys_of self.now)) }
    {
        let mut store = Store::zeros(alloc, 2 * self.count() as usize)?;
        self.fill(&mut store, 0, args.entries.as_slice());
        Ok(store)
    }

    /// Sets the adjoint cells to the weights, and to 0 where there are none.
    pub fn seed(&self, store: &mut Store, weights: &Weights)
        requires { length store.old ≡ 2 * length (keys_of self.now) }
        ensures words { store.new ≡ seeded_words self.now weights.now.entries store.old }
        ensures paired { length store.new ≡ length store.old }
    {
        self.fill(store, self.count(), weights.entries.as_slice());
    }

    /// The words of names among the value cells; a name without places has none.
    pub fn values_of(&self, alloc: Global, store: &Store, names: &[Name]) -> Result<Weights, Memory>
        requires { length store.now ≡ 2 * length (keys_of self.now) }
        ensures { IfOk result (λ weights. weights.entries
            ≡ entries_at self.now (take (length (keys_of self.now)) store.now) names.now) }
    {
        let (values, _) = store.words().split_at(self.count() as usize);
        Ok(Weights {
            entries: self.entries(alloc, values, names)?,
        })
    }

    /// The words of names among the adjoint cells.
    pub fn adjoints_of(
        &self,
        alloc: Global,
        store: &Store,
        names: &[Name],
    ) -> Result<Weights, Memory>
        requires { length store.now ≡ 2 * length (keys_of self.now) }
        ensures { IfOk result (λ weights. weights.entries
            ≡ entries_at self.now (drop (length (keys_of self.now)) store.now) names.now) }
    {
        let (_, adjoints) = store.words().split_at(self.count() as usize);
        Ok(Weights {
            entries: self.entries(alloc, adjoints, names)?,
        })
    }

    /// The entries of names, from the words of all places.
    pub fn entries(
        &self,
        alloc: Global,
        words: &[u64],
        names: &[Name],
    ) -> Result<Items<Entry>, Memory>
        requires { length words.now ≡ length (keys_of self.now) }
        ensures { IfOk result (λ entries. entries ≡ entries_at self.now words.now names.now) }
    {
        let mut entries = Items::new(alloc);
        for name in names {
            entries.push(self.entry(alloc, words, name)?)?;
        }
        Ok(entries)
    }

    fn entry(&self, alloc: Global, words: &[u64], name: &Name) -> Result<Entry, Memory>
        requires { length words.now ≡ length (keys_of self.now) }
        ensures { IfOk result (λ entry. entry ≡ entry_at self.now words.now name.now) }
    {
        let name_copy = name.clone(alloc)?;
        match self.slot(name) {
            Some(slot) => {
                let shapes = self.shapes();
                let shape = &shapes[slot];
                let from = self.first(slot) as usize;
                let to = self.next(slot) as usize;
                let words = &words[from..to];
                Ok(Entry {
                    name: name_copy,
                    scalar: shape.axes.is_empty(),
                    words: Items::from_slice(alloc, words)?,
                })
            }
            None => Ok(Entry {
                name: name_copy,
                scalar: false,
                words: Items::new(alloc),
            }),
        }
    }
}
