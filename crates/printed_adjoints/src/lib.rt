//! Printed adjoints are read back.
#![tactic(auto)]

mod adjoint;

pub use adjoint::printed_adjoints_are_read;
