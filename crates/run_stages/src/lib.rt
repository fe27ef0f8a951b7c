//! The command `run`: its files, the forward sweep with its stops, the reverse sweep, and the answer's text.
#![tactic(auto)]

mod answer;
mod inputs;
mod quiet;
mod run;
mod stop;
mod swept;
mod widths;

pub use inputs::Inputs;
pub use run::load_run;
pub use stop::{statements_said, trap_said};
pub use widths::shown_by_width;
