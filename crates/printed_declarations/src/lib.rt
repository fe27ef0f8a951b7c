//! Printed declarations are read back.
#![tactic(auto)]

mod declaration;

pub use declaration::printed_declarations_are_read;
