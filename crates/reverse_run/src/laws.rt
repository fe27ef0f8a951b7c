ghost use Rattle.reverse_run.specs.Flatness.{StandingIsFlat};

/// Statements that stand for what they undo are what a sweep asks for, where no parallel loop is in another.
pub fn standing_is_flat()
    ensures { StandingIsFlat }
{}
