//! Reverse sweeps: statements as they are undone, on one thread.
#![tactic(auto)]

mod bounds;
mod evaluations;
mod iterations;
mod laws;
mod statements;
mod stores;
mod sweep;

pub use laws::standing_is_flat;
pub use statements::undo_all;
pub use stores::undo_store;
pub use sweep::{SweptBack, sweep_back};
