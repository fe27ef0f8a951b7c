//! Why what a sweep evaluates is what the program means: its loads and stops, kept to the first stop, are those of the
//! meaning's log, and its numbers are the values.
#![tactic(auto)]

mod laws;

pub use laws::evaluations_are_told;
