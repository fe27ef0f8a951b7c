//! The stages of a command that read its data: the data file, the seed file or the direction file, and the places that they take.
#![tactic(auto)]

mod data;
mod fault;
mod later;
mod layout;
mod line;

pub use data::{load_args, load_direction, load_seed};
pub use later::{load_certificate, load_unread};
pub use layout::lay_out;
