//! A value whose drop is one call.

ghost use Rattle.std.specs.Prelude.{◌≡◌};

use std::marker::Model;

/// Holds a value where calls that can fail follow, so that dropping it is one step there. Takes no memory.
pub struct Held<T: Drop> {
    value: T,
}

impl<T: Drop> Model for Held<T> {
    ghost Value = { T };

    ghost coded = { T.code };

    ghost view = { λ h. h.value };
}

impl<T: Drop> Drop for Held<T> {
    fn drop(self) {
        let Held { value: _value } = self;
    }
}

impl<T: Drop> Held<T> {
    pub fn of(value: T) -> Held<T>
        ensures { result ≡ value }
    {
        Held { value }
    }

    pub fn get(&self) -> &T
        ensures { result.now ≡ self.now }
    {
        &self.value
    }

    pub fn into_inner(self) -> T
        ensures { result ≡ self }
    {
        let Held { value } = self;
        value
    }
}
