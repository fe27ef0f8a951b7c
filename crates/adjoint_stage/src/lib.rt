//! The adjoint's stage of a command: from the program file and the names that it is asked for to the adjoint's text.
#![tactic(auto)]

mod active;
mod adjoint;

pub use active::active_of;
pub use adjoint::load_adjoint;
