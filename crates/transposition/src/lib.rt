//! The reverse part of a program is its transposed derivative.
#![tactic(auto)]

mod laws;

pub use laws::{
    iterations_are_disciplined, program_is_transposed, reverse_is_transposed,
    statements_are_undone, unstopped_is_calm, well_kinded_is_typed,
};
