//! The evaluation of split trees over anything that loads words by place and keeps its first stop: no call answers a `Result`.
#![tactic(auto)]

mod access;
mod conditions;
mod indices;
mod rings;

pub use access::Access;
pub use conditions::holds;
pub use indices::{index, locate};
pub use rings::ring;
