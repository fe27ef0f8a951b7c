ghost use Rattle.std.specs.Prelude.{◌≡◌, ℕ, ◌++◌, take, Some, IfSome, IsErr, MatchResult};
ghost use Rattle.outside.specs.Causes.{HasCause};
ghost use Rattle.outside.specs.States.{SinkState};

/// A write failed.
#[derive(Debug, Drop)]
pub struct Failed;

/// Takes bytes in pieces.
pub trait Sink {
    /// What was taken, where the sink tells it, and how often it has failed.
    ghost state: { Self → SinkState };

    /// Takes a piece whole, or fails and has taken some front of it.
    fn put(&mut self, piece: &[u8]) -> Result<(), Failed>
        ensures told { IfSome (state self.old).taken (λ before. MatchResult result
            (λ _. (state self.new).taken ≡ Some (before ++ piece.now))
            (λ _. (count : ℕ) × ((state self.new).taken ≡ Some (before ++ take count piece.now)))) }
        ensures cause { HasCause (state self.old).faults (state self.new).faults (IsErr result) };
}
