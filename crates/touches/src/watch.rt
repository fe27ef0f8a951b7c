ghost use Rattle.std.specs.Prelude.{◌≡◌, ◌<◌, ◌++◌, ◌∷◌, [], List, ℕ, Option, OnOk, option_map};
ghost use Rattle.meaning.specs.Logs.{Touch};
ghost use Rattle.meaning.specs.Conflicts.{Clash};
ghost use Rattle.touches.specs.Touching.{touch, conflict_at};

use fl_base::Memory;
use fl_types::AccessKind;
use std::alloc::Global;

/// Two iterations of a parallel loop that clash at a place: the line of its `do`, and the two iterations' numbers, the
/// lesser first.
#[derive(Clone, Copy, Debug, PartialEq, Eq)]
pub struct Conflict {
    pub line: u32,
    pub place: u32,
    pub first: u64,
    pub second: u64,
}

/// What is told of each touch of a parallel loop while it runs, and judges the loop at its end. It may keep less than the
/// touches.
pub trait Watch {
    // A watch stands for the line of a loop and the touches since that loop was entered, in order.
    ghost stands_for: { Self → ℕ → List Touch → Type 0 };

    // What is said of a loop at its end, by its line and its touches.
    ghost judge: { ℕ → List Touch → Option Clash };

    // How many places it looks at. A touch at a place from this number on is not told.
    ghost places: { Self → ℕ };

    /// A parallel loop begins, whose `do` is on this line.
    fn enter(&mut self, line: u32)
        ensures stands { stands_for self.new line [] }
        ensures places { places self.new ≡ places self.old };

    /// An iteration touches a place.
    fn touch(
        &mut self,
        alloc: Global,
        place: u32,
        iteration: u64,
        kind: AccessKind,
    ) -> Result<(), Memory>
        ensures stands { place < places self.old → OnOk result
            ((line : ℕ) (ts : List Touch) → stands_for self.old line ts →
            stands_for self.new line (ts ++ touch place iteration kind ∷ [])) }
        ensures places { places self.new ≡ places self.old };

    /// The loop's last iteration is over.
    fn leave(&mut self) -> Option<Conflict>
        ensures judged { (line : ℕ) (ts : List Touch) → stands_for self.old line ts →
            result ≡ option_map (conflict_at line) (judge line ts) }
        ensures places { places self.new ≡ places self.old };
}
