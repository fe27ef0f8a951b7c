//! What readers of tokens are made of.
#![tactic(auto)]

mod cursor;
mod fault;
mod symbol;

pub use cursor::{Cursor, Number, Word, lowered_text, symbol_of};
pub use fault::{Cause, ClauseError, Failure, Fault};
pub use symbol::Symbol;
