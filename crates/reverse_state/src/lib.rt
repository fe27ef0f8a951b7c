//! What a reverse sweep has at hand while it runs on one thread: cells, an iteration's own words, sums, and the tape that it reads.
#![tactic(auto)]

mod reading;
mod reverse;
mod sums;
mod words;

pub use reverse::Reverse;
