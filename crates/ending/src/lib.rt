//! How a call ends: its status, the text that is due with it, and what the sink takes of that text.
#![tactic(auto)]

mod early;
mod file;
mod put;
mod status;
mod verdict;

pub use early::{Early, said, said_name};
pub use file::take_file;
pub use put::{finish, put_as};
pub use status::Status;
pub use verdict::Verdict;
