ghost use Rattle.meaning.specs.Laws.{TangentsAreUnseen, TangentsAreLinear, ConflictIsReported, ValuesGoByKeys, VariablesFit, CellsAreReplayed, TrapsAreTold, RunsGoByKeys, ReportsAreOne};
ghost use Rattle.meaning.specs.Widths.{WidthsAreRespected, WordsAreResidues, RunsRespectWidths, StopsRespectWidths};

/// Values, events, conflicts and traps of a program don't depend on the tangents that it begins with.
pub fn tangents_are_unseen()
    ensures { TangentsAreUnseen }
{}

/// The tangents at the end are linear in those at the beginning.
pub fn tangents_are_linear()
    ensures { TangentsAreLinear }
{}

/// A conflict is reported of a parallel loop's touches exactly where two of them clash, and it is the least.
pub fn conflict_is_reported()
    ensures { ConflictIsReported }
{}

/// What an expression or a condition is worth doesn't depend on the loops around it.
pub fn values_go_by_keys()
    ensures { ValuesGoByKeys }
{}

/// The variable of a loop never leaves the range of the index kind.
pub fn variables_fit()
    ensures { VariablesFit }
{}

/// What a run's log tells of stores, replayed, makes the cells that it ends with.
pub fn cells_are_replayed()
    ensures { CellsAreReplayed }
{}

/// On data of B bits, what an operation gives depends on what is left of its operands modulo 2^B alone. With 64 bits that is
/// the word itself.
pub fn widths_are_respected()
    ensures operations { WidthsAreRespected }
    ensures words { WordsAreResidues }
{}

/// Runs on data of B bits from cells that are equal modulo 2^B stay so, with their logs; they stop at the same event.
pub fn runs_respect_widths()
    ensures runs { RunsRespectWidths }
    ensures stops { StopsRespectWidths }
{}

/// A run traps exactly where its log tells a trap, and it is that one.
pub fn traps_are_told()
    ensures { TrapsAreTold }
{}

/// What a run does depends neither on the loops around it nor on what it pushes or touches.
pub fn runs_go_by_keys()
    ensures { RunsGoByKeys }
{}

/// At most one thing is reported of a parallel loop's touches.
pub fn reports_are_one()
    ensures { ReportsAreOne }
{}
