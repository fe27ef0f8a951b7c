//! Names of a program, found by sorted indexes that are made once.
#![tactic(auto)]

mod declared;
mod indexed;
mod keys;
mod marks;

pub use indexed::{Indexed, keys_of, mark_names};
pub use keys::Keys;
pub use marks::mark_varying;
