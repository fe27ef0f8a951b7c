ghost use Rattle.read_adjoints.specs.Reading.{AskedAdjointsAreRead};

/// The text of the adjoint of a typed program, of any names by any names, is lexed, and its tokens are in the grammar of adjoints, as this
/// adjoint: line and loop numbers aside. The numbers in the program's declarations are small, as those of every value are. It does nothing.
pub fn asked_adjoints_are_read()
    ensures { AskedAdjointsAreRead }
{}
