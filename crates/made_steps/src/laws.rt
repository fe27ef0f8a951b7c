//! A law on the names of a program.

ghost use Rattle.loop_scopes.specs.Scopes.{OpeningIsOutside};

/// A program begins outside of its loops, and each of its declared names has a slot, as `steps_of` requires.
pub fn opening_is_outside()
    ensures { OpeningIsOutside }
{}
