//! Directives: from tokens to what they say.
#![tactic(auto)]

mod clause;
mod directive;
mod error;
mod line;
mod seen;
mod state;

pub use directive::{
    DirectiveLine, atomic, directive_line, end_atomic, end_parallel_do, parallel_do,
};
pub use error::cause_at;
pub use line::{own_cause, read_directive};
pub use parsing::ClauseError;
