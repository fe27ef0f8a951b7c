//! Why a reverse sweep does what undoes a program: its machine comes to what the trees of operations play.
#![tactic(auto)]

mod laws;

pub use laws::{
    adds_are_counted, iteration_is_played, machine_is_transposed, program_adds_are_counted,
    program_is_named, reverse_is_played, serial_adds_are_counted,
};
