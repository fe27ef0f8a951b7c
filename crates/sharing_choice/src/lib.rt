//! Which choices a reverse part goes by, and the derivations that they rest on.
#![tactic(auto)]

mod choice;
mod copied;
mod derivation;
mod derivations;
mod shown;

pub use choice::{SharingChoice, choose, plain_derivations, shared_choices};
