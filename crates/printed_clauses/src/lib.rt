//! Printed directives are read back.
#![tactic(auto)]

mod directive;

pub use directive::printed_directives_are_read;
