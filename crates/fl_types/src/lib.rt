//! Typed programs, and sets and choices of their names.
#![tactic(auto)]

mod access;
mod arguments;
mod choice;
mod increment;
mod nests;
mod sharing;
mod surface;
mod typed;

pub use access::{Access, AccessKind, PathStep};
pub use choice::{Choice, Choices, Chosen, NameSet};
pub use increment::{IncrementForm, increment_form};
pub use nests::{is_nest, iteration_body};
pub use sharing::Sharing;
pub use typed::{TypeError, Typed};
