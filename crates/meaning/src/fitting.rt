ghost use Rattle.meaning.specs.FittingLaws.{FittingIsByPlace, ValuesFit, ConditionsAreDefined, CountsFit, RunsFit, EntriesFit, DirectionsFit, KindsGoByNames, EntriesAreKinded, ProgramsAreKinded, TouchesAreAccesses};
ghost use Rattle.meaning.specs.Groups.{RunsTouch, IterationsTouch, LoopsTouch};
ghost use Rattle.meaning.specs.Frame.{NamesAreKept, CellsAreKept};
ghost use Rattle.meaning.specs.Reached.{RunsAreSound};

/// Cells fit exactly where there are as many as keys, and each fits its key.
pub fn fitting_is_by_place()
    ensures { FittingIsByPlace }
{}

/// In fitting cells a well-kinded expression has a value of its kind or a cause of the language's own.
pub fn values_fit()
    ensures { ValuesFit }
{}

/// In fitting cells a well-kinded condition evaluates only what is defined.
pub fn conditions_are_defined()
    ensures { ConditionsAreDefined }
{}

/// In fitting cells the bounds and the step of a well-kinded loop are index numbers.
pub fn counts_fit()
    ensures { CountsFit }
{}

/// A well-kinded body that starts from fitting cells ends with fitting cells, or traps.
pub fn runs_fit()
    ensures { RunsFit }
{}

/// Each statement that such a run reaches is run in fitting cells, and evaluates only what is defined.
pub fn runs_are_sound()
    ensures { RunsAreSound }
{}

/// Every program starts in fitting cells.
pub fn entries_fit()
    ensures { EntriesFit }
{}

/// Whether cells fit doesn't depend on their tangents.
pub fn directions_fit()
    ensures { DirectionsFit }
{}

/// Whether a tree is well kinded depends on the kinds of its names and on how many subscripts they have.
pub fn kinds_go_by_names()
    ensures { KindsGoByNames }
{}

/// A body that is well kinded by its declarations is so at the entry of the program.
pub fn entries_are_kinded()
    ensures { EntriesAreKinded }
{}

/// So is the body of a program with its layout, where names are declared once and arrays are arguments.
pub fn programs_are_kinded()
    ensures { ProgramsAreKinded }
{}

/// A run ends with as many cells as it began with.
pub fn cells_are_kept()
    ensures { CellsAreKept }
{}

/// A name that a body doesn't write holds after its run what it held before.
pub fn names_are_kept()
    ensures { NamesAreKept }
{}

/// What an assignment, a condition or the bounds of a loop touch are its accesses, in order.
pub fn touches_are_accesses()
    ensures { TouchesAreAccesses }
{}

/// A run without parallel loops touches what the groups that it evaluates access, in order, and each stands among its accesses.
pub fn runs_touch()
    ensures { RunsTouch }
{}

/// An iteration of a parallel loop touches what the groups that it evaluates access, in order, and each stands among the loop's.
pub fn iterations_touch()
    ensures { IterationsTouch }
{}

/// The iterations of a parallel loop together touch what their groups access, in order, each with its number.
pub fn loops_touch()
    ensures { LoopsTouch }
{}
