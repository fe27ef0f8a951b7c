//! What the reverse sweep of a program begins with: the statements that undo the program's, for given choices.
#![tactic(auto)]

mod choices;
mod opening;

pub use opening::{Undoing, open_reverse};
