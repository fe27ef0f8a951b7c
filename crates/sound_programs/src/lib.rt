//! What the law of transposition asks of names holds of every accepted program.
#![tactic(auto)]

mod laws;

pub use laws::{
    accepted_is_transposed, asked_names_fit, inactive_is_zero, layouts_fit, made_choices_fit,
    made_is_transposed, parallel_loops_fit, places_suffice, programs_are_sound,
};
