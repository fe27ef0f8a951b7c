//! What is known of the parallel loops of a program, as certificates are checked and found against it.
#![tactic(auto)]

mod knowledge;
mod laws;
mod program;

pub use laws::loops_stand_at_their_numbers;
pub use program::known_loops;
