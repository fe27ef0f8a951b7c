//! The parser of adjoints: from the tokens of an adjoint's text to its tree.
#![tactic(auto)]

mod error;
mod text;
mod unit;

pub use text::parse_adjoint;
