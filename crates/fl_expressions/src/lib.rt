//! Expressions: from tokens to trees.
#![tactic(auto)]

mod expression;
mod operand;
mod tree;

pub use expression::{
    expr, is_product_op, is_sum_op, product_op, rest_of, subscripts, sum_op, unopened,
};
pub use operand::{is_pairing, is_single, pairing, single};
pub use tree::{Listed, Measured, kind_of};
