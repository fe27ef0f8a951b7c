//! Which nodes the edges of a graph lead to, the nodes being numbers or declared names.
#![tactic(auto)]

mod closing;
mod naming;

pub use closing::{Link, reach};
pub use naming::{push_index, push_link, reached_from, reached_names};
