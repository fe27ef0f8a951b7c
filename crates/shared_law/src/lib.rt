//! Why differentiated reads of names with the choice Shared are apart: along a run that nothing stops, by what is shown of each loop.
#![tactic(auto)]

mod laws;

pub use laws::{
    known_choices_fit, known_is_transposed, known_machine_is_transposed, known_runs_are_calm,
    reads_are_apart, reads_are_evaluated,
};
