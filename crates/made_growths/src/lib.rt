//! The increments of adjoints, one for each occurrence of an active name on a right side, made from resolved expressions.
#![tactic(auto)]

mod factors;
mod growths;
mod names;
mod path;
mod tests;

pub use growths::push_growths;
pub use names::{UndoNames, choice_in, is_active};
