ghost use Rattle.sweep_law.specs.Telling.{EvaluationsAreTold};

/// In fitting cells the evaluation of a split tree tells what that of its expression tells, up to the first stop, and where
/// there was none it gives the value.
pub fn evaluations_are_told()
    ensures { EvaluationsAreTold }
{}
