ghost use Rattle.readable_adjoints.specs.Fitting.{AdjointsAreReadable};

/// The adjoint of a typed program is readable with a level to spare, whatever names are needed, where each active name is declared and no
/// adjoint of a name that is private in a parallel loop is collected there by iteration. It does nothing.
pub fn adjoints_are_readable()
    ensures { AdjointsAreReadable }
{}
