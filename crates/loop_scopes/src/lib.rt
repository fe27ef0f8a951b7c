//! The names of loops by slot: what is known of them where a sweep's statements are made.
#![tactic(auto)]

mod loops;
mod marks;
mod nest;
mod privates;

pub use loops::{LoopNames, Loops, name_of};
pub use marks::Marks;
pub use nest::is_nest;
pub use privates::private_scalars;
