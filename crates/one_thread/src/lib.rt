//! The reverse part of a run on one thread, from what its forward sweep left.
#![tactic(auto)]

mod back;

pub use back::{Ran, run_back};
