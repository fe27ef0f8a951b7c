//! The parallel loops of a program, and the accesses of each.
#![tactic(auto)]

mod assignments;
mod classes;
mod infos;
mod numbers;
mod path;
mod reads;
mod statements;
mod view;

pub use infos::{LoopInfo, loops};
pub use numbers::accesses;
pub use view::{LoopView, parallel_loops};
