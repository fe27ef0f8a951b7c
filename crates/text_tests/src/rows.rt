//! Texts of rows, and what is told of them.

use std::alloc::AllocError;
use std::process::Abort;

pub(crate) type Shown = Result<(), AllocError>;

pub(crate) fn push_bytes(text: &mut String, bytes: &[u8]) -> Shown {
    for byte in bytes {
        text.push(char::from(*byte))?;
    }
    Ok(())
}

/// What is told of a text is what is wanted.
pub(crate) fn expect<R: Abort>(rt: &R, told: &str, wanted: &str, text: &str) {
    assert_eq!(rt; told, wanted, "{text}");
}
