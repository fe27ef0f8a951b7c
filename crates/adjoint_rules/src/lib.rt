//! What the adjoint of a program is: which names' values its reverse part needs, and its tree. Definitions alone; the
//! parts that make the tree, run it and prove it right cite them.
#![tactic(auto)]
