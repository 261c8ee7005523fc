//! Reads the fields of a row.

use crate::fault::RowFault;
use std::alloc::Global;
use usbnum_core::parse_code;

/// Cuts a text at its first bar.
pub fn cut(text: &str) -> Result<(&str, &str), RowFault> {
    match text.split_once('|') {
        Some(parts) => Ok(parts),
        None => Err(RowFault::BadRow),
    }
}

/// Reads a number in decimal digits.
pub fn number_of(text: &str) -> Result<u32, RowFault> {
    match text.parse::<u32>() {
        Ok(number) => Ok(number),
        Err(_) => Err(RowFault::BadRow),
    }
}

// The byte at the front of an escaped text, and the rest of the text.
fn first_byte(text: &[u8]) -> Option<(u8, &[u8])> {
    match text {
        [b'\\', b'n', rest @ ..] => Some((b'\n', rest)),
        [b'\\', b'r', rest @ ..] => Some((b'\r', rest)),
        [b'\\', b't', rest @ ..] => Some((b'\t', rest)),
        [b'\\', b'\\', rest @ ..] => Some((b'\\', rest)),
        [b'\\', b'x', high, low, rest @ ..] => {
            let code = parse_code(&[b'0', b'0', *high, *low])?;
            Some(((code % 256) as u8, rest))
        }
        [b'\\', ..] => None,
        [byte, rest @ ..] => Some((*byte, rest)),
        [] => None,
    }
}

fn push_plain(bytes: &mut Vec<u8>, text: &[u8]) -> Result<(), RowFault> {
    let mut rest = text;
    for _ in 0..text.len() {
        match first_byte(rest) {
            Some((byte, more)) => {
                bytes.push(byte)?;
                rest = more;
            }
            None => break,
        }
    }
    if rest.is_empty() {
        Ok(())
    } else {
        Err(RowFault::BadRow)
    }
}

// Pushes `COUNT TEXT}` as so many texts, and what follows it as it is.
fn push_repeated(bytes: &mut Vec<u8>, part: &str) -> Result<(), RowFault> {
    let Some((repeated, rest)) = part.split_once('}') else {
        return Err(RowFault::BadRow);
    };
    let Some((count, text)) = repeated.split_once(' ') else {
        return Err(RowFault::BadRow);
    };
    for _ in 0..number_of(count)? {
        push_plain(bytes, text.as_bytes())?;
    }
    push_plain(bytes, rest.as_bytes())
}

fn push_parts(bytes: &mut Vec<u8>, text: &str) -> Result<(), RowFault> {
    let Some((first, rest)) = text.split_once("\\{") else {
        return push_plain(bytes, text.as_bytes());
    };
    push_plain(bytes, first.as_bytes())?;
    for part in rest.split("\\{") {
        push_repeated(bytes, part)?;
    }
    Ok(())
}

/// Returns the bytes of an escaped text: `\n`, `\r`, `\t` and `\\` are as in Rust, `\x` has two
/// digits of a byte, and `\{COUNT TEXT}` has the escaped text so many times.
pub fn bytes_of(alloc: Global, text: &str) -> Result<Vec<u8>, RowFault> {
    let mut bytes = Vec::new(alloc);
    push_parts(&mut bytes, text)?;
    Ok(bytes)
}
