//! Printed programs are read back.
#![tactic(auto)]

mod program;

pub use program::printed_programs_are_read;
