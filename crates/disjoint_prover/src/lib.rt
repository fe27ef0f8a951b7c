//! Which pairs are plainly disjoint, each with its stated derivation.
#![tactic(auto)]

mod alone;
mod elements;
mod least;
mod lines;
mod plain;
mod shown;

pub use plain::{is_plain, prove};
