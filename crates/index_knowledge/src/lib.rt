//! What is known of a loop's subscripts.
#![tactic(auto)]

mod fact;
mod pair;
mod path;

pub use fact::{Fact, difference, differences, facts};
pub use pair::{Pair, pairs};
pub use path::{is_prefix, serves};
