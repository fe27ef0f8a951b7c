//! Bounds of loops: they are set before a loop, pushed after it, and popped before its reverse.
#![tactic(auto)]

mod bounds;
mod head;
mod own;
mod turns;

pub use bounds::{push_pops, push_pushes, push_settings};
pub use head::{LoopHead, by, hi, lo};
pub use own::numbered;
pub use turns::{count, last_value, turn_number};
