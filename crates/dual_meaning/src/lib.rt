//! Programs run over duals, in order on one thread, names being looked up once.
#![tactic(auto)]

mod along;
mod privates;
mod program;
mod rounds;
mod statements;

pub use along::{Tangents, tangent};
pub use program::run_program;
pub use rounds::Round;
pub use statements::{Progress, RunStop, run_statements};
