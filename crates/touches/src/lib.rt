//! What looks at the touches of parallel loops.
#![tactic(auto)]

mod watch;

pub use watch::{Conflict, Watch};
