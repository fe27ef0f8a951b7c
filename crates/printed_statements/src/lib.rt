//! Printed statements are read back.
#![tactic(auto)]

mod line;

pub use line::printed_lines_are_read;
