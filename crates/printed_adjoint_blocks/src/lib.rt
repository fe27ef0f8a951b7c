//! Printed statements of adjoints are read back.
#![tactic(auto)]

mod block;

pub use block::printed_adjoint_blocks_are_read;
