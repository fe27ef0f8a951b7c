ghost use Rattle.std.specs.Prelude.{◌≡◌, ℕ, Bool, true};
ghost use Rattle.sweep_evaluation.specs.Machine.{Told, ran, Does};

use dual_evaluation::Halt;
use std::alloc::Global;

/// What an evaluation loads words of, and where its first stop is kept. After a stop loads give words of no meaning and
/// leave nothing.
pub trait Access {
    // What is so of the cells, of what was told and of the first stop.
    ghost State: { Type 0 };

    // What a load gives and leaves, and what a stop leaves.
    ghost told: { Told State };

    ghost stands: { Self → State → Type 0 };

    // Memory was wanting: it stands for nothing more.
    ghost lost: { Self → Bool };

    // What no load and no stop changes.
    ghost steady: { Self → ℕ };

    /// The word at a place of a slot's name, whose touch is told where the occurrence is an access.
    fn load(&mut self, slot: usize, place: u32, accessed: bool) -> u64
        ensures does { Does stands lost self.old self.new result (λ s. ran (told.word s place) (told.loaded s slot place accessed)) }
        ensures steady { steady self.new ≡ steady self.old };

    /// There is no value or place.
    fn stop(&mut self, why: Halt)
        ensures does { Does stands lost self.old self.new result (λ s. ran result (told.stopped s why)) }
        ensures steady { steady self.new ≡ steady self.old };

    /// What subscripts of many axes take memory of.
    fn alloc(&self) -> Global;

    /// Memory is wanting.
    fn lose(&mut self)
        ensures lost { lost self.new ≡ true }
        ensures steady { steady self.new ≡ steady self.old };
}
