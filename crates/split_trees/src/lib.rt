//! Trees split by kind, made from resolved ones that are well kinded.
#![tactic(auto)]

mod code;
mod nodes;
mod split;

pub use code::Code;
pub use split::{
    is_marked, split_condition, split_expression, split_index, split_place, split_ring,
};
