//! Says what is seen in a list in the syntax of usb.ids: its faulty line, or what it has where
//! nothing of a vendor was found.

use crate::line_remarks::{detail_in, line_at, numbered};
use crate::remarks::front_of;
use std::alloc::Global;
use usbids_text::{Document, Kind, Top, read_all};
use usbnum_core::{NoMemory, Vid};

/// Returns the words for what a line of a list must be, by the name of its fault.
fn rule_of(fault: &[u8], line: &[u8]) -> Option<&'static str> {
    match std::str::from_utf8(fault) {
        Ok("BadTop") => match line {
            [b' ', ..] => Some("a device begins with a tab, and not with spaces"),
            _ => Some(
                "a line without a tab begins with four hexadecimal digits, or with a tag as C",
            ),
        },
        Ok("BadCode") => {
            Some("the code is one to four hexadecimal digits, and four directly below a vendor")
        }
        Ok("NoParent") => Some("the lines above it have none that it stands below"),
        Ok("LineTooLong") => Some("a line has at most 65536 bytes, and a name at most 65000"),
        _ => None,
    }
}

/// Returns the words for a line of a list, as far as they are shown.
fn shown_line(alloc: Global, line: &[u8]) -> Result<String, NoMemory> {
    match std::str::from_utf8(line) {
        Ok(text) => front_of(alloc, text),
        Err(_) => Ok(String::from_str(alloc, "not UTF-8")?),
    }
}

/// Returns what the line of a list has that a message calls faulty, and what it must be.
pub(crate) fn remark_on_list(
    alloc: Global,
    bytes: &[u8],
    message: &[u8],
) -> Result<Option<String>, NoMemory> {
    let Some(detail) = detail_in(message, "BadList") else {
        return Ok(None);
    };
    let Some((number, fault)) = numbered(detail.as_bytes()) else {
        return Ok(None);
    };
    let Some(line) = line_at(bytes, number) else {
        return Ok(None);
    };
    let front = shown_line(alloc, line)?;
    match rule_of(fault, line) {
        Some(rule) => Ok(Some(format!(in alloc; "line {number} is \"{front}\"; {rule}")?)),
        None => Ok(Some(format!(in alloc; "line {number} is \"{front}\"")?)),
    }
}

/// What is seen of the vendors of a list.
#[derive(Clone, Copy, Debug, PartialEq, Eq)]
struct Seen {
    /// The lines of vendors.
    vendors: usize,
    /// The devices below them.
    devices: usize,
    /// Whether a line is of the vendor that is looked for.
    has_vendor: bool,
    /// The devices below such lines.
    own: usize,
}

fn add_top(seen: Seen, vendor: Vid, top: &Top) -> Seen {
    match top.kind() {
        Kind::Tagged(_) => seen,
        Kind::Vendor => {
            let devices = top.mids().len();
            let is_own = top.code() == vendor.get();
            Seen {
                vendors: seen.vendors.saturating_add(1),
                devices: seen.devices.saturating_add(devices),
                has_vendor: seen.has_vendor || is_own,
                own: seen.own.saturating_add(if is_own { devices } else { 0 }),
            }
        }
    }
}

fn seen_in(list: &Document, vendor: Vid) -> Seen {
    let mut seen = Seen {
        vendors: 0,
        devices: 0,
        has_vendor: false,
        own: 0,
    };
    for top in list.tops() {
        seen = add_top(seen, vendor, top);
    }
    seen
}

/// Returns what a list has, if it has no device of a vendor.
pub(crate) fn remark_on_vendor(
    alloc: Global,
    bytes: &[u8],
    vendor: Vid,
) -> Result<Option<String>, NoMemory> {
    let Ok(list) = read_all(alloc, bytes) else {
        return Ok(None);
    };
    let seen = seen_in(&list, vendor);
    if seen.own > 0 {
        return Ok(None);
    }
    let code = vendor.get();
    let (vendors, devices) = (seen.vendors, seen.devices);
    let words = if seen.has_vendor {
        format!(in alloc;
            "vendor {code:04x} has no devices; vendors in the list: {vendors}, devices: {devices}"
        )?
    } else {
        format!(in alloc;
            "no line of vendor {code:04x}; vendors in the list: {vendors}, devices: {devices}"
        )?
    };
    Ok(Some(words))
}
