//! Why a forward sweep does what the program means: what it keeps, to the first stop, is what the meaning's log tells, and its tape is
//! that of the log.
#![tactic(auto)]

mod laws;

pub use laws::{forward_is_told, outside_is_told};
