//! Why what is known of subscripts holds of runs.
#![tactic(auto)]

mod laws;

pub use laws::{
    facts_are_respected, facts_hold, fixed_arrays_stay, forms_are_subscripts, invariants_hold,
    known_at_start_is_true, known_stays_true, paths_are_followed, sums_are_exact, valuations_stand,
    variables_hold,
};
