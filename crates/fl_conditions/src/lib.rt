//! Conditions: from tokens to trees.
#![tactic(auto)]

mod condition;
mod tree;

pub use condition::cond;
pub use tree::{Judged, Mixed};
