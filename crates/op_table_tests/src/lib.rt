//! Tests of `op_table` over real threads: a team of workers on lists of operations of every kind.
#![tactic(auto)]

mod lists;
mod team;
#[cfg(test)]
mod tests;

pub use lists::{Lists, after_team, table_of};
pub use team::{Sweep, after_all};
