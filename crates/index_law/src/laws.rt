//! Laws on the definitions of forms and of runs.

ghost use Rattle.index_law.specs.Paths.{PathsAreFollowed, IterationsFollowPaths};
ghost use Rattle.index_law.specs.Fixed.{FixedIsUnwritten, FixedAtStart, FixedAfter, FixedInside};
ghost use Rattle.index_law.specs.Valuations.{ValuationsStand, ReadsAreElements};
ghost use Rattle.index_law.specs.Variables.{VariablesHold};
ghost use Rattle.index_law.specs.Worth.{SumsAreExact, DifferencesAreExact, FormsAreSubscripts};
ghost use Rattle.index_law.specs.Meetings.{FactsHold};
ghost use Rattle.index_law.specs.Respect.{AccessesHavePlaces, FactsAreRespected};
ghost use Rattle.index_law.specs.Iterations.{InvariantsHold};
ghost use Rattle.index_law.specs.Starts.{KnownAtStartHolds};
ghost use Rattle.index_law.specs.Steps.{KnownAfterHolds, KnownInsideHolds, KnownLessHolds};

/// A sum of multiples of forms is worth that of their values, and a difference that of theirs.
pub fn sums_are_exact()
    ensures sums { SumsAreExact }
    ensures differences { DifferencesAreExact }
{}

/// The forms of an access's subscripts are worth the subscripts that were evaluated, under each valuation that has the values of the
/// scalars and of the nodes that Read and Opaque atoms stand for.
pub fn forms_are_subscripts()
    ensures { FormsAreSubscripts }
{}

/// In a run of a parallel loop without a conflict, two accesses of which one writes never come to one place in different iterations.
pub fn facts_hold()
    ensures { FactsHold }
{}

/// In such a run each access that is evaluated has a place, and no valuation that has the values of two accesses of one name, of which
/// one writes, makes their subscripts the same in different iterations.
pub fn facts_are_respected()
    ensures places { AccessesHavePlaces }
    ensures respect { FactsAreRespected }
{}

/// Along a run what is known of scalars stays true: behind a statement, in the turns of a sequential loop, and where less is known.
pub fn known_stays_true()
    ensures after { KnownAfterHolds }
    ensures inside { KnownInsideHolds }
    ensures less { KnownLessHolds }
{}

/// What the iterations of a parallel loop don't write, scalars and elements alike, holds at the start of each what it held before the loop.
pub fn invariants_hold()
    ensures { InvariantsHold }
{}

/// The form of a loop's variable is worth it: by the first bound and the step where these are literals, and by atoms for what isn't.
pub fn variables_hold()
    ensures { VariablesHold }
{}

/// Along a run of a parallel loop what is known of scalars at the start of an iteration is true there: the loops' variables, and what the
/// iterations don't write.
pub fn known_at_start_is_true()
    ensures { KnownAtStartHolds }
{}

/// For any two iterations of a loop instance one valuation stands at the start of both, whose Read atoms have what arrays hold before the
/// loop; wherever what is known is true, these atoms are worth the elements that are evaluated.
pub fn valuations_stand()
    ensures starts { ValuationsStand }
    ensures elements { ReadsAreElements }
{}

/// The arrays that a parallel loop doesn't assign hold throughout its iterations what they held before it.
pub fn fixed_arrays_stay()
    ensures unwritten { FixedIsUnwritten }
    ensures start { FixedAtStart }
    ensures after { FixedAfter }
    ensures inside { FixedInside }
{}

/// Statements, and an iteration of a parallel loop, that went through and came to an access came to every access whose path is the
/// beginning of its path.
pub fn paths_are_followed()
    ensures statements { PathsAreFollowed }
    ensures iterations { IterationsFollowPaths }
{}
