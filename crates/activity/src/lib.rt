//! Which names are active: those whose adjoints a reverse part has to compute.
#![tactic(auto)]

mod flow;
mod order;
mod set;

pub use set::{ActivityError, active};
