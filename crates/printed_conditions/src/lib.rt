//! Printed conditions are read back.
#![tactic(auto)]

mod condition;

pub use condition::printed_conditions_are_read;
