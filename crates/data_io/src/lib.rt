//! Data and seed files in, answers out, as JSON.
#![tactic(auto)]

mod answer;
mod data;
mod direction;
mod number;
mod read;

pub use answer::{Answer, RaceText, write_answer, write_tangent};
pub use data::DataError;
pub use direction::read_direction;
pub use read::{read_args, read_seed};
