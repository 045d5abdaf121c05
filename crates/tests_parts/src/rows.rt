//! Compares what a row of a test's table leads to with what is wanted.

use std::process::Abort;
use std::str;

/// Compares the text that a row leads to with the text that is wanted.
pub(crate) fn is_told(rt: &impl Abort, row: &str, told: &str, want: &str) {
    assert!(rt; told == want, "{row}: {told}");
}

/// Returns the text that the bytes are; `?` if they are none.
pub(crate) fn text_of(bytes: &[u8]) -> &str {
    str::from_utf8(bytes).unwrap_or("?")
}
