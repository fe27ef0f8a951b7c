//! Programs and adjoints as texts.
#![tactic(auto)]

mod aexpr;
mod astmt;
mod decl;
mod directive;
mod expr;
mod layout;
mod row;
mod sign;
mod spaced;
mod stmt;
mod tape;
mod unit;

pub use unit::{print, print_adjoint};
