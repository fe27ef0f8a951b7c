//! Which names are needed: those whose values a reverse part reads, so that a forward part has to push them.
#![tactic(auto)]

mod names;
mod reads;
mod set;
mod terms;
mod walk;

pub use set::needed;
