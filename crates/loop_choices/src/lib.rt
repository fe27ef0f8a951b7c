//! How adjoints are incremented in each parallel loop, from a list of choices.
#![tactic(auto)]
