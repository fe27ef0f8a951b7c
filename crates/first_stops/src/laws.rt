ghost use Rattle.first_stops.specs.Kept.{RunsKeepTheirFirstStop, NotesAreKeptInParts};

/// A run that takes what a log tells one by one, and does nothing more after its first stop, ends with that stop, the ticks
/// up to there and the cells there.
pub fn runs_keep_their_first_stop()
    ensures { RunsKeepTheirFirstStop }
{}

/// What is told in two parts may be taken one part after the other.
pub fn notes_are_kept_in_parts()
    ensures { NotesAreKeptInParts }
{}
