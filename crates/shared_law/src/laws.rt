ghost use Rattle.shared_law.specs.Apart.{KnownChoicesFit, ReadsAreApart, ReadsAreEvaluated};
ghost use Rattle.shared_law.specs.Known.{KnownIsCalm, KnownIsTransposed, KnownMachineIsTransposed};

/// The choices that go by what is known of a program's loops fit. It does nothing.
pub fn known_choices_fit()
    ensures { KnownChoicesFit }
{}

/// With these choices, in the run of an accepted program that nothing stops, no two iterations of a parallel loop have differentiated reads
/// of a name with the choice Shared at one place. It does nothing.
pub fn reads_are_apart()
    ensures { ReadsAreApart }
{}

/// Each differentiated read that the log of an iteration tells is one that the iteration evaluates, of the name of its place. It does nothing.
pub fn reads_are_evaluated()
    ensures { ReadsAreEvaluated }
{}

/// With these choices, in the run of an accepted program that nothing stops, any two iterations of each parallel loop are calm, which is what
/// makes their reverse iterations apart from each other. It does nothing.
pub fn known_runs_are_calm()
    ensures { KnownIsCalm }
{}

/// And the reverse part with these choices leaves, in the adjoint's cell of each place of an active name of `wrt`, the program's adjoint, for a
/// seed on the names of `of` alone. It does nothing.
pub fn known_is_transposed()
    ensures { KnownIsTransposed }
{}

/// So does the machine of reverse sweeps. It does nothing.
pub fn known_machine_is_transposed()
    ensures { KnownMachineIsTransposed }
{}
