//! A law on the world of a program.

ghost use Rattle.made_undos.specs.UndoScopes.{OpeningIsUndone};

/// The world of a program is outside of its loops, and each of its declared names has a slot, as `undos_of` requires.
pub fn opening_is_undone()
    ensures { OpeningIsUndone }
{}
