//! Which choices a reverse part goes by, where nothing is known of which iterations meet.
#![tactic(auto)]

mod assigned;
mod carried;
mod choices;
mod order;

pub use choices::unproved_choices;
