//! The forward part of a sweep, over statements as sweeps run them: assignments, increments, choices and loops.
#![tactic(auto)]

mod flow;
mod heads;
mod rounds;
mod stores;

pub use flow::run_steps;
pub use heads::{Further, head_run, inner_run};
pub use stores::run_store;
