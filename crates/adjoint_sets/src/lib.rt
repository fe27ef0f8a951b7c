//! The active and the needed names of a program as definitions that compute, and laws that sets which are said by what edges lead to are
//! these. Definitions and laws alone.
#![tactic(auto)]
