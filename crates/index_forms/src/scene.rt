//! What a walk over a parallel loop goes by.

ghost use Rattle.std.specs.Prelude.{◌≡◌};
ghost use Rattle.fl_types.specs.Sharing.{has_name};
ghost use Rattle.index_forms.specs.Scenes.{is_fixed_there};

use crate::form::Side;
use fl_base::{Items, Name};

/// The variable of a loop, with its first value and its step where these are literals.
#[derive(Drop)]
pub struct Counter {
    pub name: Name,
    pub first: Option<i64>,
    pub step: Option<i64>,
}

/// Names as a walk asks for them: those that make no accesses, those that the iterations write, and those of the ring kind.
#[derive(Drop)]
pub struct Scene {
    pub side: Side,
    pub unshared: Items<Name>,
    pub written: Items<Name>,
    pub ring: Items<Name>,
    pub counter: Counter,
    pub further: Option<Counter>,
}

pub fn has_name(name: &Name, names: &[Name]) -> bool
    ensures { result ≡ has_name name.now names.now }
{
    names.iter().any(|other| name.is(other))
}

impl Scene {
    /// Whether the name is an index array that the loop doesn't assign.
    pub fn is_fixed(&self, name: &Name) -> bool
        ensures { result ≡ is_fixed_there self.now name.now }
    {
        if has_name(name, self.unshared.as_slice()) || has_name(name, self.written.as_slice()) {
            return false;
        }
        !has_name(name, self.ring.as_slice())
    }
}
