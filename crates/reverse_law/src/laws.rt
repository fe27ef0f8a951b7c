ghost use Rattle.reverse_law.specs.Counting.{AddsAreCounted, ProgramAddsAreCounted, SerialAddsAreCounted};
ghost use Rattle.reverse_law.specs.Reverse.{ReverseIsPlayed, IterationIsPlayed, ProgramIsNamed, MachineIsTransposed};

/// Statements of a reverse sweep make the operations of the trees that undo their statements, and end in the same cells and words, from
/// every tape and all words.
pub fn reverse_is_played()
    ensures { ReverseIsPlayed }
{}

/// So does each iteration of a parallel loop that runs alone.
pub fn iteration_is_played()
    ensures { IterationIsPlayed }
{}

/// A program begins on the names of its table.
pub fn program_is_named()
    ensures { ProgramIsNamed }
{}

/// A reverse sweep on what an unstopped forward run left comes to the program's adjoint.
pub fn machine_is_transposed()
    ensures { MachineIsTransposed }
{}

/// Outside of parallel loops, none of which is in another, a reverse sweep counts as many atomic additions as the trees make, from every
/// tape and all words.
pub fn adds_are_counted()
    ensures { AddsAreCounted }
{}

/// So it does of a whole program.
pub fn program_adds_are_counted()
    ensures { ProgramAddsAreCounted }
{}

/// Statements without parallel loops, as those of an iteration, count their additions in one step to the cells that are incremented
/// atomically there.
pub fn serial_adds_are_counted()
    ensures { SerialAddsAreCounted }
{}
