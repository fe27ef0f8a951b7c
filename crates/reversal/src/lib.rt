//! Adjoint trees of programs.
#![tactic(auto)]

mod chain;
mod class;
mod copy;
mod declare;
mod expression;
mod factor;
mod growth;
mod increment;
mod name;
mod plain;
mod scope;

pub use class::{is_plus, is_ring, is_ring_kind, sharing, varies_in};
pub use declare::{arguments, declared, push_with_adjoint};
pub use expression::{in_adjoint, literal};
pub use increment::{push_backward_assignment, push_forward_assignment};
pub use name::{adjoint_name, has_name, main_tape, scalar, value};
pub use plain::cleared;
pub use scope::{Region, Scope};
