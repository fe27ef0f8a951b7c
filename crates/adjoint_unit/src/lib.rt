//! The adjoint of a program.
#![tactic(auto)]

mod declare;
mod head;
mod private;
mod unit;

pub use unit::reverse;
