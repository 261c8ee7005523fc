//! Shows bytes as one line.

use crate::fault::RowFault;
use std::alloc::{AllocError, Global};
use std::fmt::Write;

fn push_shown(text: &mut String, byte: u8) -> Result<(), AllocError> {
    match byte {
        b'\n' => text.push_str("\\n"),
        b'\r' => text.push_str("\\r"),
        b'\t' => text.push_str("\\t"),
        b'\\' => text.push_str("\\\\"),
        b' '..=b'~' => text.push(byte as char),
        _ => write!(text, "\\x{byte:02x}"),
    }
}

/// Returns the bytes as a text of ASCII characters in one line, escaped as in a row.
pub fn shown(alloc: Global, bytes: &[u8]) -> Result<String, AllocError> {
    let mut text = String::new(alloc);
    for byte in bytes {
        push_shown(&mut text, *byte)?;
    }
    Ok(text)
}

/// Returns the text in memory of its own.
pub fn text_of(alloc: Global, text: &str) -> Result<Vec<u8>, RowFault> {
    Ok(String::from_str(alloc, text)?.into_bytes())
}
