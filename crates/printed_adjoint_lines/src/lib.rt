//! Printed lines of an adjoint's statements are read back.
#![tactic(auto)]

mod line;

pub use line::printed_adjoint_lines_are_read;
