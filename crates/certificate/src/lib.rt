//! Certificates: derivations for pairs of accesses, and their text.
//!
//! A text is the line `formad 1` and then derivations. Words have one blank between them, and each line ends with a line feed. A derivation is
//! the line `pair LOOP F G`, any number of the lines `hyp D`, `comb { M L }` and `cong A B { L }`, one of `close distinct L [ M ]`,
//! `close residue L`, `close range L` and `close fact N { L }`, and `end`. Numbers are decimal, below 2^32 and without leading zeros; only a
//! multiplier M may have a minus sign, before a number other than 0, and lies in -2^31 .. 2^31-1.
#![tactic(auto)]

mod derivation;
mod error;
mod laws;
mod line;
mod number;
mod printing;
mod reading;
mod stage;
mod words;

pub use derivation::{Close, Derivation, Given, Heading, Line, Multiple};
pub use error::CertError;
pub use laws::printed_is_read;
pub use printing::print_cert;
pub use reading::read_cert;
