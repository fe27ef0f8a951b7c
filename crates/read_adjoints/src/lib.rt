//! The printed adjoint of a typed program is read back.
#![tactic(auto)]

mod law;

pub use law::asked_adjoints_are_read;
