ghost use Rattle.forward_law.specs.Forward.{ForwardIsTold, OutsideIsTold};

/// In fitting cells the steps of statements keep what the meaning tells of these statements, up to the first stop. Where there was
/// none they come to the meaning's cells, and the tape is that of the log, in a parallel loop that of its last iteration.
pub fn forward_is_told()
    ensures { ForwardIsTold }
{}

/// Outside parallel loops that tape is what its items are.
pub fn outside_is_told()
    ensures { OutsideIsTold }
{}
