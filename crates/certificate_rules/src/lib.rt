//! Which derivations are accepted, and that an accepted one shows what it is to show.
#![tactic(auto)]

mod laws;

pub use laws::{accepted_is_disjoint, stated_is_accepted};
