//! Laws on printed texts with what reads them.
#![tactic(auto)]

mod expression;
mod token;

pub use expression::printed_expressions_are_read;
pub use token::printed_tokens_are_read;
