//! Printed expressions of adjoints are read back.
#![tactic(auto)]

mod expression;

pub use expression::printed_adjoint_expressions_are_read;
