//! What a program means: its values, tangents and events, in order on one thread; arithmetic on values, and laws.
#![tactic(auto)]

mod arithmetic;
mod fitting;
mod laws;
mod value;

pub use arithmetic::{binary, intrinsic, literal, relates};
pub use fitting::{
    cells_are_kept, conditions_are_defined, counts_fit, directions_fit, entries_are_kinded,
    entries_fit, fitting_is_by_place, iterations_touch, kinds_go_by_names, loops_touch,
    names_are_kept, programs_are_kinded, runs_are_sound, runs_fit, runs_touch,
    touches_are_accesses, values_fit,
};
pub use laws::{
    cells_are_replayed, conflict_is_reported, reports_are_one, runs_go_by_keys,
    runs_respect_widths, tangents_are_linear, tangents_are_unseen, traps_are_told,
    values_go_by_keys, variables_fit, widths_are_respected,
};
pub use value::{Cause, Dual, IterationCount, TrapAt, Value};
