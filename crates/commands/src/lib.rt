//! The commands: each is its answer's text, or what is due in its place.
#![tactic(auto)]

mod adjoint;
mod directed;
mod outcome;
mod prove;
mod tangent;
mod unbuilt;

pub use outcome::outcome_of;
