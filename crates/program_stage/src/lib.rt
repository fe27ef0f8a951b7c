//! The program's stage of a command: its file, its text, and the names that a command is asked for.
#![tactic(auto)]

mod lexing;
mod line;
mod names;
mod program;
mod syntax;
mod types;
mod unbuilt;

pub use program::{load_program, load_subject};
pub use unbuilt::not_built;
