//! The names that a parallel loop of an adjoint has of its own, and its clauses.
#![tactic(auto)]

mod assigned;
mod clauses;
mod numbers;
mod privates;

pub use clauses::{backward_clauses, forward_clauses};
pub use numbers::push_bounds_in;
pub use privates::{private_scalars, pushed_scalars};
