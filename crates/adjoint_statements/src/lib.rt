//! Statements of an adjoint's text: those of a program, and the calls of the tape.
#![tactic(auto)]

mod assign;
mod block;
mod branch;
mod ifs;
mod line;
mod room;
mod rules;
mod tape;

pub use block::{Block, block_from};
pub use room::{ADJOINT, Room};
pub use rules::stmts;
