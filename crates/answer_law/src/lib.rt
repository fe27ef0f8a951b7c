//! Why a run's answer is what its reverse sweep leaves: the adjoints that stand in the cells, and the values at the end of the forward sweep.
#![tactic(auto)]

mod laws;

pub use laws::{made_is_answered, read_words_are_small, seeds_are_asked};
