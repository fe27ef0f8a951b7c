//! Why a reverse sweep of an accepted program comes to the adjoint: its machine leaves it at the active names that are asked by.
#![tactic(auto)]

mod laws;

pub use laws::{machine_is_accepted, made_machine_is_transposed};
