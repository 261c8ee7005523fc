//! Makes values of the fields of a row, which have commas between them.

use row_texts::RowFault;
use std::alloc::Global;
use usbnum_core::{Link, Number, Pid, Slug, Span, Title, Vid, parse_pid, parse_vid};

pub fn slug(alloc: Global, text: &str) -> Result<Slug, RowFault> {
    Slug::new(alloc, text.as_bytes())?.ok_or(RowFault::BadRow)
}

pub fn title(alloc: Global, text: &str) -> Result<Title, RowFault> {
    Title::new(alloc, text.as_bytes())?.ok_or(RowFault::BadRow)
}

pub fn link(alloc: Global, text: &str) -> Result<Link, RowFault> {
    Link::new(alloc, text.as_bytes())?.ok_or(RowFault::BadRow)
}

pub fn vid(text: &str) -> Result<Vid, RowFault> {
    parse_vid(text.as_bytes()).ok_or(RowFault::BadRow)
}

pub fn pid(text: &str) -> Result<Pid, RowFault> {
    parse_pid(text.as_bytes()).ok_or(RowFault::BadRow)
}

/// Returns the field before the first comma, and the others.
pub fn field(text: &str) -> Result<(&str, &str), RowFault> {
    match text.split_once(',') {
        Some(parts) => Ok(parts),
        None => Err(RowFault::BadRow),
    }
}

/// Reads a product ID, or a hyphen in place of one.
pub fn maybe_pid(text: &str) -> Result<Option<Pid>, RowFault> {
    if text == "-" {
        Ok(None)
    } else {
        Ok(Some(pid(text)?))
    }
}

/// Reads a vendor ID, or a hyphen in place of one.
pub fn maybe_vid(text: &str) -> Result<Option<Vid>, RowFault> {
    if text == "-" {
        Ok(None)
    } else {
        Ok(Some(vid(text)?))
    }
}

/// Reads the two IDs of a number.
pub fn number(vendor: &str, code: &str) -> Result<Number, RowFault> {
    Ok(Number {
        vid: vid(vendor)?,
        pid: pid(code)?,
    })
}

/// Reads two product IDs with a hyphen between them.
pub fn span(text: &str) -> Result<Span, RowFault> {
    let Some((first, last)) = text.split_once('-') else {
        return Err(RowFault::BadRow);
    };
    Span::new(pid(first)?, pid(last)?).ok_or(RowFault::BadRow)
}

/// Returns whether a number is held, and not returned.
pub fn is_held(text: &str) -> Result<bool, RowFault> {
    match text {
        "held" => Ok(true),
        "returned" => Ok(false),
        _ => Err(RowFault::BadRow),
    }
}
