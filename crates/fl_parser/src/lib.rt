//! The parser: from tokens to the tree of a program.
#![tactic(auto)]

mod decl;
mod dims;
mod error;
mod text;
mod unit;

pub use decl::decls;
pub use error::{
    ParseError, Position, begins_line, error_by, spot_at, token_at, told_apart, word_at,
};
pub use parsing::ClauseError;
pub use text::parse;
pub use unit::{UnitHead, end_unit, unit_head};
