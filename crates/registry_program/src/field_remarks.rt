//! Says which fields of the request lines of an input are no fields of their orders: they are ignored.

use crate::line_remarks::value_of;
use crate::remarks::listed;
use registry_rules::{Accepted, Rejection, ReplyText};
use registry_wire::{accepted_line, line_request};
use serde_json::Value;
use std::alloc::Global;
use usbnum_core::NoMemory;

/// Returns a request line as a record has it, which has all that was read of it, or `None` if it is no
/// request.
fn as_read(alloc: Global, line: &[u8]) -> Result<Option<Value>, NoMemory> {
    let request = match line_request(alloc, line) {
        Ok(request) => request,
        Err(Rejection::NoMemory) => return Err(NoMemory),
        Err(Rejection::Refused(_)) => return Ok(None),
    };
    let accepted = Accepted {
        request,
        reply: ReplyText::new(String::new(alloc)),
    };
    let text = accepted_line(alloc, &accepted)?;
    value_of(alloc, text.as_bytes())
}

/// Returns whether a field of a line was not read: a line that is read has no such field. Null stands
/// for a field that is absent, and a reply is none of a request.
fn is_ignored(name: &str, value: &Value, read: &Value) -> bool {
    !value.is_null() && (name == "done" || read.get(name).is_none())
}

/// Returns the words for the fields of a request line that were not read, if it has such fields.
fn ignored_in(alloc: Global, line: &[u8]) -> Result<Option<String>, NoMemory> {
    let Some(read) = as_read(alloc, line)? else {
        return Ok(None);
    };
    let Some(given) = value_of(alloc, line)? else {
        return Ok(None);
    };
    let Some(fields) = given.as_object() else {
        return Ok(None);
    };
    let mut names = Vec::new(alloc);
    for (name, value) in fields.iter() {
        if is_ignored(name.as_str(), value, &read) {
            names.push(name.as_str())?;
        }
    }
    listed(alloc, "unknown fields are ignored:", &names)
}

/// Returns the bytes before the first line feed, and those after it, if there is one.
fn first_line(bytes: &[u8]) -> (&[u8], Option<&[u8]>) {
    match bytes.iter().position(|byte| *byte == b'\n') {
        Some(end) => (&bytes[..end], Some(&bytes[end + 1..])),
        None => (bytes, None),
    }
}

/// Returns the words for the first request line with fields that its order does not have, if there is
/// one.
pub(crate) fn remark_on_fields(alloc: Global, bytes: &[u8]) -> Result<Option<String>, NoMemory> {
    let mut rest = bytes;
    let mut number = 0usize;
    for _ in 0..bytes.len() {
        number = number.saturating_add(1);
        let (line, after) = first_line(rest);
        if let Some(words) = ignored_in(alloc, line)? {
            return Ok(Some(format!(in alloc; "line {number}: {words}")?));
        }
        match after {
            Some(after) => rest = after,
            None => return Ok(None),
        }
    }
    Ok(None)
}
