//! The pairs that choices and certificates go by are those of what is known of subscripts.
#![tactic(auto)]

mod laws;

pub use laws::pairs_are_known;
