//! Tokens of a text: lines, comments, directives and continuation.
#![tactic(auto)]

mod bytes;
mod error;
mod lexer;
mod line;
mod piece;

pub use error::LexError;
pub use lexer::{lex, printed_is_read_back};
pub use tokens::{Token, TokenKind};
