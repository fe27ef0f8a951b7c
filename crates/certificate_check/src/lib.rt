//! Whether a certificate's derivations are for pairs of a program's loops, and accepted.
#![tactic(auto)]

mod check;
mod fault;
mod flaw;
mod pairing;

pub use check::check_cert;
pub use fault::CheckError;
pub use flaw::{Flaw, first_flaw};
pub use pairing::{LoopPairs, pair_at};
