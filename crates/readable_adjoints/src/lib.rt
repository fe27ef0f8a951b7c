//! The adjoint of a typed program is readable.
#![tactic(auto)]

mod law;

pub use law::adjoints_are_readable;
