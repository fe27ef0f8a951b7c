//! What is asked of active names and choices holds of those that a program's adjoint is made with.
#![tactic(auto)]

mod law;

pub use law::{asked_adjoints_are_readable, choices_are_fair};
