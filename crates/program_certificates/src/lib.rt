//! Choices and certificates of programs: what is shown of pairs of accesses, by what is known of the program's loops.
#![tactic(auto)]

mod program;

pub use program::{check, choose, prove_pairs, proved_certificate};
