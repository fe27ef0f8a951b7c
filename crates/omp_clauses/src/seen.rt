//! The names that stood before.

ghost use Rattle.std.specs.Prelude.{◌≡◌, [], ◌||◌, bytes_eq, ℕ, List, IfOk};
ghost use Rattle.std.specs.List.{list_any};

use fl_base::{Memory, Name};
use std::alloc::Global;
use std::collections::BTreeSet;
use std::marker::Model;

/// Names, of which the set knows quickly whether it has one. It is seen as a list of them.
pub struct Seen {
    names: BTreeSet<Vec<u8>>,
}

impl Drop for Seen {
    fn drop(self) {
        let Seen { names } = self;
        drop(names);
    }
}

impl Model for Seen {
    ghost use Rattle.std.specs.Prelude.{ℕ, List, map};

    ghost Value = { List (List ℕ) };

    ghost view = { λ s. map (λ k. k.items) s.names.keys };
}

impl Seen {
    pub fn new(alloc: Global) -> Seen
        ensures { result ≡ [] }
    {
        Seen {
            names: BTreeSet::new(alloc),
        }
    }

    pub fn has(&self, name: &Name) -> bool
        ensures { result ≡ list_any (bytes_eq name.now) self.now }
    {
        self.names.contains(name.bytes())
    }

    /// The same names and this one.
    pub fn with(self, alloc: Global, name: &Name) -> Result<Seen, Memory>
        ensures { IfOk result (λ s. (x : List ℕ) → list_any (bytes_eq x) s ≡ (bytes_eq x name.now || list_any (bytes_eq x) self)) }
    {
        let Seen { mut names } = self;
        let key = Vec::from_slice(alloc, name.bytes())?;
        let _is_new = names.insert(key)?;
        Ok(Seen { names })
    }
}
