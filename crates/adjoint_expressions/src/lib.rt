//! Expressions of an adjoint's text: those of a program, with `merge` as a further operand.
#![tactic(auto)]

mod expression;
mod operand;
mod tree;

pub use expression::adjoint_expr;
pub use tree::{AListed, AMeasured};
