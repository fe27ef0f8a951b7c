//! Statements of sweeps, made from resolved ones that are well kinded.
#![tactic(auto)]

mod heads;
mod laws;
mod nest;
mod parallel;
mod steps;
mod store;
mod terms;

pub use laws::opening_is_outside;
pub use steps::steps_of;
pub use terms::{SignedExpr, split_terms, terms_of};
