//! Texts that are put together. They grow in place, so that no text is alive where a piece may fail.

use std::alloc::AllocError;
use std::process::Abort;

pub(crate) type Shown = Result<(), AllocError>;

pub(crate) fn push_times(text: &mut String, piece: &str, times: usize) -> Shown {
    for _ in 0..times {
        text.push_str(piece)?;
    }
    Ok(())
}

pub(crate) fn push_bytes(text: &mut String, bytes: &[u8]) -> Shown {
    for byte in bytes {
        text.push(char::from(*byte))?;
    }
    Ok(())
}

/// What is told of a text is what is wanted.
pub(crate) fn expect<R: Abort>(rt: &R, told: &str, wanted: &str, text: &[u8]) {
    assert_eq!(rt; told, wanted, "{text:?}");
}
