//! The loops of an adjoint, around the statements that a loop's body became.
#![tactic(auto)]

mod around;
mod heads;
mod iteration;
mod parallel;
mod sequential;
mod statement;

pub use parallel::{push_backward_parallel, push_forward_parallel};
pub use sequential::{push_backward_loop, push_forward_loop};
pub use statement::zeroed;
