//! What is printed is parsed as what it was printed from, and printed as the same bytes.
#![tactic(auto)]

mod laws;

pub use laws::{asked_adjoints_are_printed_again, read_programs_are_printed_again};
