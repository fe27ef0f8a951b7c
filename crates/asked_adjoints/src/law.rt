ghost use Rattle.asked_adjoints.specs.Asked.{AskedAdjointsAreReadable, ChoicesAreFair};

/// Where nothing is known of which iterations meet, no adjoint of a name that is private in a parallel loop is collected there by
/// iteration. It does nothing.
pub fn choices_are_fair()
    ensures { ChoicesAreFair }
{}

/// The adjoint of a typed program is readable with a level to spare, of any names by any names. It does nothing.
pub fn asked_adjoints_are_readable()
    ensures { AskedAdjointsAreReadable }
{}
