//! Sets of names.

ghost use Rattle.std.specs.Prelude.{◌≡◌, [], ◌||◌, List, ℕ, OnOk, bytes_eq};
ghost use Rattle.fl_types.specs.Sharing.{has_name};

use fl_base::{Memory, Name};
use std::alloc::Global;
use std::collections::BTreeSet;
use std::marker::Model;

/// Names, each found by search. Contracts see the list of their bytes, of which only the members matter.
#[derive(Drop)]
pub struct Keys<'t> {
    keys: BTreeSet<&'t [u8]>,
}

impl<'t> Model for Keys<'t> {
    ghost use Rattle.std.specs.Prelude.{ℕ, List, map};
    ghost use Rattle.std.specs.Map.Iter.{deref};

    ghost Value = { List (List ℕ) };

    ghost view = { λ s. map deref s.keys.keys };
}

impl<'t> Keys<'t> {
    /// No names, which takes no memory.
    pub fn new(alloc: Global) -> Keys<'t>
        ensures { result ≡ [] }
    {
        Keys {
            keys: BTreeSet::new(alloc),
        }
    }

    pub fn has(&self, name: &Name) -> bool
        ensures { result ≡ has_name name.now self.now }
    {
        self.keys.contains(name.bytes())
    }

    pub fn insert(&mut self, name: &'t Name) -> Result<(), Memory>
        ensures { OnOk result ((x : List ℕ) → has_name x self.new ≡ (bytes_eq x name.now || has_name x self.old)) }
    {
        self.keys.insert(name.bytes())?;
        Ok(())
    }
}
