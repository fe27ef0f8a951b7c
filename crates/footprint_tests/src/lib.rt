//! Tests of a footprint: one table is told lists of touches, loop after loop, and what is due of each was found by hand.
#![tactic(auto)]

#[cfg(test)]
mod tests;
