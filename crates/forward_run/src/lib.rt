//! The forward sweep of a whole program: its opening, the run of its statements, and what is left of it or why it stopped.
#![tactic(auto)]

mod entry;
mod opening;
mod stop;
mod sweep;
mod values;
mod watched;

pub use opening::{Opened, marks_of, open_program, stmts_of, table_of};
pub use stop::ForwardStop;
pub use sweep::{Forwarded, forward};
pub use values::final_values;
pub use watched::forward_watched;
