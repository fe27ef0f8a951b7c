//! Runs that keep their first stop: what a run has come to after each thing that its log tells. Laws are the contracts of
//! functions without a body.
#![tactic(auto)]

pub mod laws;
