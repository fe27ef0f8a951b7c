//! Expressions, conditions, bounds of loops and assignments over duals, names being slots of a table.
#![tactic(auto)]

mod assignment;
mod bounds;
mod evaluator;
mod stop;

pub use assignment::assign;
pub use bounds::{begin_turn, turn_count, turns_of, value_in};
pub use evaluator::{evaluate, holds};
pub use stop::{EvalStop, Halt, cause_of};
