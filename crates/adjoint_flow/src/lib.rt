//! The statements of an adjoint: the forward and the reverse of each statement of a program.
#![tactic(auto)]

mod backward;
mod branch;
mod forward;
mod loops;

pub use backward::backward_all;
pub use forward::forward_all;
