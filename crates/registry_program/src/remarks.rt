//! Says what is wrong in a founding file, from its bytes: where it stops being TOML, and what it has in
//! the place of its keys.

use registry_commands::is_known_key;
use registry_rules::limits::{MOST_CURATORS, MOST_LICENCES};
use registry_wire::FoundingFault;
use std::alloc::Global;
use toml::{Table, Value};
use usbnum_core::{NoMemory, Slug, Span, Title, parse_pid, parse_vid};

/// The most characters that are shown of a text.
const MOST_SHOWN: usize = 64;

/// The number of bytes of names after which no further name is shown.
const MOST_NAMES: usize = 512;

const FAULTS: [FoundingFault; 6] = [
    FoundingFault::Toml,
    FoundingFault::Vendor,
    FoundingFault::Name,
    FoundingFault::Curators,
    FoundingFault::Licences,
    FoundingFault::Fixed,
];

/// Returns the fault of a founding file of which a line begins the message.
fn fault_in(line: &[u8]) -> Option<FoundingFault> {
    let rest = line.strip_prefix("{\"detail\":\"".as_bytes())?;
    for fault in FAULTS {
        if let Some([b'"', ..]) = rest.strip_prefix(fault.name().as_bytes()) {
            return Some(fault);
        }
    }
    None
}

/// Returns the line and the column, both from 1, of the place after these bytes. A column counts
/// characters.
fn place_after(bytes: &[u8]) -> (usize, usize) {
    let mut line = 1usize;
    let mut column = 1usize;
    for byte in bytes {
        if *byte == b'\n' {
            line = line.saturating_add(1);
            column = 1;
        } else if *byte & 0xC0 != 0x80 {
            column = column.saturating_add(1);
        }
    }
    (line, column)
}

/// Returns where bytes stop being TOML, and why. An error of memory has no place.
fn toml_words(
    alloc: Global,
    bytes: &[u8],
    error: &toml::de::Error,
) -> Result<Option<String>, NoMemory> {
    let Some(span) = error.span() else {
        return Ok(None);
    };
    let (line, column) = place_after(&bytes[..span.start.min(bytes.len())]);
    let why = error.message();
    Ok(Some(format!(in alloc; "line {line}, column {column}: {why}")?))
}

/// Returns the front of a text, in as many characters as are shown.
pub(crate) fn front_of(alloc: Global, text: &str) -> Result<String, NoMemory> {
    front_in(alloc, text, MOST_SHOWN)
}

/// Returns the front of a text, in at most so many characters.
pub(crate) fn front_in(alloc: Global, text: &str, most: usize) -> Result<String, NoMemory> {
    let mut front = String::new(alloc);
    let mut count = 0usize;
    for character in text.chars() {
        if count >= most {
            front.push_str("..")?;
            return Ok(front);
        }
        front.push(character)?;
        count = count.saturating_add(1);
    }
    Ok(front)
}

/// Returns whether a text is one number, or a span by its first and last number.
fn is_span(text: &[u8]) -> bool {
    let (first, last) = match text {
        [a, b, c, d] => (parse_pid(&[*a, *b, *c, *d]), parse_pid(&[*a, *b, *c, *d])),
        [a, b, c, d, b'-', last @ ..] => (parse_pid(&[*a, *b, *c, *d]), parse_pid(last)),
        _ => return false,
    };
    match (first, last) {
        (Some(first), Some(last)) => Span::new(first, last).is_some(),
        _ => false,
    }
}

/// Returns whether a text may be the value of a key, or an item of its list.
fn may_be(alloc: Global, key: FoundingFault, text: &str) -> Result<bool, NoMemory> {
    let text = text.as_bytes();
    match key {
        FoundingFault::Toml => Ok(false),
        FoundingFault::Vendor => Ok(parse_vid(text).is_some()),
        FoundingFault::Name | FoundingFault::Licences => Ok(Title::new(alloc, text)?.is_some()),
        FoundingFault::Curators => Ok(Slug::new(alloc, text)?.is_some()),
        FoundingFault::Fixed => Ok(is_span(text)),
    }
}

/// Returns the words for what the value of a key may be, or an item of its list.
fn what_may_be(key: FoundingFault) -> &'static str {
    match key {
        FoundingFault::Toml => "nothing",
        FoundingFault::Vendor => "a text of four hexadecimal digits, not 0000",
        FoundingFault::Name | FoundingFault::Licences => {
            "a line of 1 to 200 bytes without a control character, and no space at either end"
        }
        FoundingFault::Curators => "1 to 32 of a-z, 0-9 and -",
        FoundingFault::Fixed => {
            "a list of texts as 0001 or 0001-0010, of four hexadecimal digits, not 0000, not descending"
        }
    }
}

/// Returns the most items of the list of a key, if it is one with a limit.
fn most_of(key: FoundingFault) -> Option<usize> {
    match key {
        FoundingFault::Curators => Some(MOST_CURATORS),
        FoundingFault::Licences => Some(MOST_LICENCES),
        _ => None,
    }
}

/// Returns the words for what a key must have.
fn rule_of(alloc: Global, key: FoundingFault) -> Result<String, NoMemory> {
    let it = what_may_be(key);
    match most_of(key) {
        Some(most) => Ok(format!(in alloc; "it must have 1 to {most} texts, each {it}")?),
        None => Ok(format!(in alloc; "it must be {it}")?),
    }
}

/// Returns the words for what the key with this name must have in the founding of a record, if it is
/// one of a founding. There the lists are in order.
pub(crate) fn rule_in_record(alloc: Global, name: &str) -> Result<Option<String>, NoMemory> {
    for key in FAULTS {
        if key != FoundingFault::Toml && key.name() == name {
            let rule = rule_of(alloc, key)?;
            return match key {
                FoundingFault::Vendor | FoundingFault::Name => Ok(Some(rule)),
                FoundingFault::Fixed => Ok(Some(format!(in alloc;
                    "{rule}; in order, and none that overlaps or touches another"
                )?)),
                _ => Ok(Some(format!(in alloc; "{rule}; in order, and without repeats")?)),
            };
        }
    }
    Ok(None)
}

/// Returns the words for a value that a key may not have, or an item that its list may not have.
fn bad_value(alloc: Global, key: FoundingFault, value: &Value) -> Result<Option<String>, NoMemory> {
    let Some(text) = value.as_str() else {
        let kind = value.type_str();
        return Ok(Some(format!(in alloc; "is of type {kind}")?));
    };
    if may_be(alloc, key, text)? {
        return Ok(None);
    }
    let front = front_of(alloc, text)?;
    Ok(Some(format!(in alloc; "is \"{front}\"")?))
}

/// Returns the words for the first item that the list of a key may not have.
fn bad_item(
    alloc: Global,
    key: FoundingFault,
    items: &[Value],
) -> Result<Option<String>, NoMemory> {
    let mut number = 0usize;
    for item in items {
        number = number.saturating_add(1);
        if let Some(words) = bad_value(alloc, key, item)? {
            let name = key.name();
            return Ok(Some(format!(in alloc; "item {number} of {name} {words}")?));
        }
    }
    Ok(None)
}

/// Returns the words for the value of a key that has a list.
fn bad_list(alloc: Global, key: FoundingFault, value: &Value) -> Result<Option<String>, NoMemory> {
    let name = key.name();
    let Some(items) = value.as_array() else {
        let kind = value.type_str();
        return Ok(Some(format!(in alloc; "{name} is of type {kind}")?));
    };
    if let Some(words) = bad_item(alloc, key, items)? {
        return Ok(Some(words));
    }
    let count = items.len();
    match most_of(key) {
        Some(most) if count == 0 || count > most => {
            Ok(Some(format!(in alloc; "{name} has {count} items")?))
        }
        _ => Ok(None),
    }
}

/// Returns the words for what a table has at a bad key.
fn bad_key(alloc: Global, table: &Table, key: FoundingFault) -> Result<Option<String>, NoMemory> {
    if key == FoundingFault::Toml {
        return Ok(None);
    }
    let name = key.name();
    let Some(value) = table.get(name) else {
        return Ok(Some(format!(in alloc; "{name} is missing")?));
    };
    match key {
        FoundingFault::Vendor | FoundingFault::Name => match bad_value(alloc, key, value)? {
            Some(words) => Ok(Some(format!(in alloc; "{name} {words}")?)),
            None => Ok(None),
        },
        _ => bad_list(alloc, key, value),
    }
}

/// Returns these words with the names, or `None` if there are no names.
pub(crate) fn listed(
    alloc: Global,
    words: &str,
    names: &[&str],
) -> Result<Option<String>, NoMemory> {
    let mut text = String::from_str(alloc, words)?;
    let mut before = " ";
    for name in names {
        if text.len() > MOST_NAMES {
            text.push_str(", ..")?;
            return Ok(Some(text));
        }
        text.push_str(before)?;
        text.push_str(if name.is_empty() { "\"\"" } else { "" })?;
        text.push_str(front_of(alloc, name)?.as_str())?;
        before = ", ";
    }
    Ok(if names.is_empty() { None } else { Some(text) })
}

/// Returns the names of the keys of a table that no founding has, if there are any.
fn unknown_keys(alloc: Global, table: &Table) -> Result<Option<String>, NoMemory> {
    let mut names = Vec::new(alloc);
    for key in table.keys() {
        if !is_known_key(key.as_str()) {
            names.push(key.as_str())?;
        }
    }
    listed(alloc, "unknown keys are ignored:", &names)
}

/// Returns which keys of a founding file are unknown, if it is TOML and any is.
pub(crate) fn remark_on_keys(alloc: Global, bytes: &[u8]) -> Result<Option<String>, NoMemory> {
    match toml::table_from_slice(alloc, bytes) {
        Ok(table) => unknown_keys(alloc, &table),
        Err(_) => Ok(None),
    }
}

/// Returns what is wrong in a founding file at the key that a message names, what that key must have,
/// and which keys are unknown.
pub(crate) fn remark_on_founding(
    alloc: Global,
    bytes: &[u8],
    message: &[u8],
) -> Result<Option<String>, NoMemory> {
    let Some(fault) = fault_in(message) else {
        return Ok(None);
    };
    let table = match toml::table_from_slice(alloc, bytes) {
        Ok(table) => table,
        Err(error) => return toml_words(alloc, bytes, &error),
    };
    let Some(words) = bad_key(alloc, &table, fault)? else {
        return Ok(None);
    };
    let rule = rule_of(alloc, fault)?;
    match unknown_keys(alloc, &table)? {
        Some(unknown) => Ok(Some(format!(in alloc; "{words}; {rule}; {unknown}")?)),
        None => Ok(Some(format!(in alloc; "{words}; {rule}")?)),
    }
}
