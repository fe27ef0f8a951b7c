//! The stages of the commands that go by certificates: from the program file and the names that they are asked for to the text.
#![tactic(auto)]

mod prove;
mod shared;

pub use prove::load_certificate;
pub use shared::load_shared_adjoint;
