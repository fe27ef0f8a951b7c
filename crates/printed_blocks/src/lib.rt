//! Printed blocks of statements are read back.
#![tactic(auto)]

mod block;

pub use block::printed_blocks_are_read;
