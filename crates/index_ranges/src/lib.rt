//! Ranges of the variables of inner loops.
#![tactic(auto)]

mod range;

pub use range::{Range, ranges};
