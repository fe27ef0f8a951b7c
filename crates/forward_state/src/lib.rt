//! What a forward sweep keeps while it runs: cells, counts, the first stop, and the tape.
#![tactic(auto)]

mod forward;
mod run;
mod words;

pub use forward::Forward;
pub use run::{Run, SweepStop};
