//! Says what stands in the line of an input that a message names: where it stops being JSON, what is
//! at a bad field, and which reply a record has.

use crate::remarks::{front_in, front_of, rule_in_record};
use serde_json::Value;
use std::alloc::Global;
use usbnum_core::NoMemory;

/// The most characters that are shown of a reply. A reply of a registry is shorter.
const MOST_OF_REPLY: usize = 512;

/// Returns the number of the line that a message names, and the message after it.
pub(crate) fn numbered(message: &[u8]) -> Option<(usize, &[u8])> {
    let rest = message.strip_prefix("line ".as_bytes())?;
    let end = rest.iter().position(|byte| *byte == b':')?;
    let mut number = 0usize;
    for digit in &rest[..end] {
        let digit = usize::from(digit.wrapping_sub(b'0'));
        number = number.saturating_mul(10).saturating_add(digit);
    }
    Some((number, rest[end..].strip_prefix(": ".as_bytes())?))
}

/// Returns the detail of a refusal with this name of which a text begins the message.
pub(crate) fn detail_in<'a>(text: &'a [u8], name: &str) -> Option<&'a str> {
    let rest = text.strip_prefix("{\"detail\":\"".as_bytes())?;
    let end = rest.iter().position(|byte| *byte == b'"')?;
    let after = rest[end..].strip_prefix("\",\"name\":\"".as_bytes())?;
    if let [b'"', ..] = after.strip_prefix(name.as_bytes())? {
        std::str::from_utf8(&rest[..end]).ok()
    } else {
        None
    }
}

/// Returns the line with this number, from 1, without its line feed.
pub(crate) fn line_at(bytes: &[u8], number: usize) -> Option<&[u8]> {
    let mut rest = bytes;
    for _ in 1..number {
        let end = rest.iter().position(|byte| *byte == b'\n')?;
        rest = &rest[end + 1..];
    }
    match rest.iter().position(|byte| *byte == b'\n') {
        Some(end) => Some(&rest[..end]),
        None => Some(rest),
    }
}

/// Returns how many lines are not blank.
pub(crate) fn count_lines(bytes: &[u8]) -> usize {
    let mut count = 0usize;
    let mut is_blank = true;
    for byte in bytes {
        if *byte == b'\n' {
            is_blank = true;
        } else if is_blank && *byte != b' ' && *byte != b'\t' && *byte != b'\r' {
            is_blank = false;
            count = count.saturating_add(1);
        }
    }
    count
}

/// Returns the column, from 1, at which a line that is JSON begins.
fn begin_of(line: &[u8]) -> usize {
    match line.iter().position(|byte| !byte.is_ascii_whitespace()) {
        Some(at) => at.saturating_add(1),
        None => 1,
    }
}

/// Returns the column, from 1, at which a line stops being a JSON object, and why.
fn json_fault(alloc: Global, line: &[u8]) -> Result<(usize, &'static str), NoMemory> {
    let text = match std::str::from_utf8(line) {
        Ok(text) => text,
        Err(error) => return Ok((error.valid_up_to().saturating_add(1), "invalid UTF-8")),
    };
    match Value::from_str(alloc, text) {
        Ok(_) => Ok((begin_of(line), "not an object")),
        Err(error) => {
            if error.is_memory() {
                Err(NoMemory)
            } else if error.is_eof() {
                Ok((error.column(), "the line ends inside the JSON"))
            } else {
                Ok((error.column(), "invalid JSON"))
            }
        }
    }
}

/// Reads a line as JSON, if it is that.
pub(crate) fn value_of(alloc: Global, line: &[u8]) -> Result<Option<Value>, NoMemory> {
    let Ok(text) = std::str::from_utf8(line) else {
        return Ok(None);
    };
    match Value::from_str(alloc, text) {
        Ok(value) => Ok(Some(value)),
        Err(error) if error.is_memory() => Err(NoMemory),
        Err(_) => Ok(None),
    }
}

/// Returns the words for what the value of a field may be, if it is a field of a request or a record.
fn rule_of_field(field: &str) -> Option<&'static str> {
    match field {
        "caller" | "org" | "keeper" => Some("it must be a text of 1 to 32 of a-z, 0-9 and -"),
        "key" => Some("it must be a text of 1 to 64 of A-Z, a-z, 0-9, - and _"),
        "order" => Some("it must be the name of an order, as enrol, ask or grant"),
        "title" | "name" | "licence" | "reason" => {
            Some(
                "it must be a line of 1 to 200 bytes without a control character, and no space at either end",
            )
        }
        "site" | "source" => {
            Some("it must be a link with http or https, which is kept in at most 400 bytes")
        }
        "number" | "first" | "vendor" => {
            Some("it must be a text of four hexadecimal digits, not 0000")
        }
        "last" => Some(
            "it must be a text of four hexadecimal digits, not 0000, and of no lower number than first",
        ),
        "petition" => Some("it must be a whole number from 1 to 4294967295"),
        "items" => Some("it must be an array of pairs, each of four digits and a title or null"),
        "done" => Some("it must be a text"),
        "at" => Some("it must be a time as 2026-11-28T20:34:13Z"),
        "digest" => Some("it must be a text of 64 of 0-9 and a-f"),
        _ => None,
    }
}

/// Returns the words for what an object has at a name.
fn found_at(alloc: Global, value: &Value, name: &str) -> Result<String, NoMemory> {
    match value.get(name) {
        Some(found) => {
            let text = found.to_string(alloc)?;
            let front = front_of(alloc, text.as_str())?;
            Ok(format!(in alloc; "{name} is {front}")?)
        }
        None => Ok(format!(in alloc; "{name} is missing")?),
    }
}

/// Returns the words for what a line has at a bad field, and what may be there.
fn bad_field(alloc: Global, line: &[u8], field: &str) -> Result<Option<String>, NoMemory> {
    let Some(value) = value_of(alloc, line)? else {
        return Ok(None);
    };
    let words = found_at(alloc, &value, field)?;
    match rule_of_field(field) {
        Some(rule) => Ok(Some(format!(in alloc; "{words}; {rule}")?)),
        None => Ok(Some(words)),
    }
}

/// Returns the words for what the founding in a line of a record has at a bad key, and what it must
/// have there.
fn bad_founding(alloc: Global, line: &[u8], key: &str) -> Result<Option<String>, NoMemory> {
    let Some(value) = value_of(alloc, line)? else {
        return Ok(None);
    };
    let words = found_at(alloc, &value, key)?;
    match rule_in_record(alloc, key)? {
        Some(rule) => Ok(Some(format!(in alloc; "{words}; {rule}")?)),
        None => Ok(Some(words)),
    }
}

/// Returns the words for the reply that a line of a record has.
fn recorded_reply(alloc: Global, line: &[u8]) -> Result<Option<String>, NoMemory> {
    let Some(value) = value_of(alloc, line)? else {
        return Ok(None);
    };
    let Some(done) = value.get("done") else {
        return Ok(None);
    };
    let text = done.to_string(alloc)?;
    let front = front_in(alloc, text.as_str(), MOST_OF_REPLY)?;
    Ok(Some(format!(in alloc; "the record has {{\"done\":{front}}}")?))
}

/// Returns the words for the digest that a line of a record has.
fn recorded_digest(alloc: Global, line: &[u8]) -> Result<Option<String>, NoMemory> {
    let Some(value) = value_of(alloc, line)? else {
        return Ok(None);
    };
    let words = found_at(alloc, &value, "digest")?;
    Ok(Some(format!(in alloc; "{words}; the record of the registry has another there")?))
}

/// Returns the words for a line, by the message about it after its number. Those for JSON have the
/// column, which counts bytes, before a colon.
fn words_for_line(
    alloc: Global,
    number: usize,
    line: &[u8],
    message: &[u8],
) -> Result<Option<String>, NoMemory> {
    if message.starts_with("{\"name\":\"BadJson\"".as_bytes()) {
        let (column, why) = json_fault(alloc, line)?;
        return Ok(Some(format!(in alloc; "line {number}, column {column}: {why}")?));
    }
    let words = if let Some(field) = detail_in(message, "BadField") {
        bad_field(alloc, line, field)?
    } else if let Some(key) = detail_in(message, "BadFounding") {
        bad_founding(alloc, line, key)?
    } else if message.starts_with("another reply: ".as_bytes()) {
        recorded_reply(alloc, line)?
    } else if message == "another record".as_bytes() {
        recorded_digest(alloc, line)?
    } else {
        None
    };
    match words {
        Some(words) => Ok(Some(format!(in alloc; "line {number}: {words}")?)),
        None => Ok(None),
    }
}

/// Returns what is seen in the line of an input that a message names.
pub(crate) fn remark_on_lines(
    alloc: Global,
    bytes: &[u8],
    message: &[u8],
) -> Result<Option<String>, NoMemory> {
    let Some((number, rest)) = numbered(message) else {
        return Ok(None);
    };
    match line_at(bytes, number) {
        Some(line) => words_for_line(alloc, number, line, rest),
        None => Ok(None),
    }
}
