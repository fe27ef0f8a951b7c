//! What a command answers, as text: definitions alone, from the meaning of programs down to bytes.
#![tactic(auto)]
