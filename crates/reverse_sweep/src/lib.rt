//! What a reverse sweep does, as definitions that compute: a machine beside the trees of operations that undo a program.
#![tactic(auto)]
