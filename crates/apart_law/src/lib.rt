//! Why reads of a name whose pairs are shown never fall on one place in different iterations: one valuation has the values of both accesses and
//! of all that serve them.
#![tactic(auto)]

mod laws;

pub use laws::{loops_are_apart, numbers_are_own, pairs_are_valued, ranges_hold};
