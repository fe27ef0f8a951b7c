//! The words of a call: a command, its files, and words of the form name=value.
#![tactic(auto)]

mod command;
mod error;
mod names;
mod number;
mod schedule;
mod setting;
mod settings;
mod text;
mod words;

pub use error::WordsError;
pub use setting::Force;
pub use words::{Replay, Request, Subject, Words, read_words};
