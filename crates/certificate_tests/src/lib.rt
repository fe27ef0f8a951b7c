//! Tests of certificates: derivations for the pair of `x(i)` and `x(i+1)` in a loop with the step 2.
#![tactic(auto)]

#[cfg(test)]
mod tests;
