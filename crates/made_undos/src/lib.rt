//! Statements of reverse sweeps, made from resolved statements that are well kinded.
#![tactic(auto)]

mod around;
mod chains;
mod laws;
mod reductions;
mod undo;
mod undos;
mod variables;

pub use laws::opening_is_undone;
pub use undos::undos_of;
