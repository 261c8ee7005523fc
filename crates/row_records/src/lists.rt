//! Makes lists of the records of a row, which have semicolons between them.

use crate::records::{entry, org, petition};
use crate::values::{field, number, span, title, vid};
use registry_rules::{Entry, Org, Petition, Vendor};
use row_texts::RowFault;
use std::alloc::Global;
use usbnum_core::{Number, Spans, Vid};

// A vendor: its ID, the ends of its reserved numbers, and its name.
fn vendor(alloc: Global, text: &str) -> Result<Vendor, RowFault> {
    let (code, rest) = field(text)?;
    let (_, name) = field(rest)?;
    Ok(Vendor {
        vid: vid(code)?,
        name: title(alloc, name)?,
    })
}

pub fn vendors(alloc: Global, text: &str) -> Result<Vec<Vendor>, RowFault> {
    let mut vendors = Vec::new(alloc);
    for part in text.split(';') {
        vendors.push(vendor(alloc, part)?)?;
    }
    Ok(vendors)
}

fn spans(alloc: Global, text: &str) -> Result<Spans, RowFault> {
    let mut spans = Spans::new(alloc);
    if text != "-" {
        spans.add(span(text)?)?;
    }
    Ok(spans)
}

fn reserved_of(alloc: Global, text: &str) -> Result<(Vid, Spans), RowFault> {
    let (code, rest) = field(text)?;
    let (ends, _) = field(rest)?;
    Ok((vid(code)?, spans(alloc, ends)?))
}

/// Returns the reserved numbers of vendors.
pub fn reserved(alloc: Global, text: &str) -> Result<Vec<(Vid, Spans)>, RowFault> {
    let mut reserved = Vec::new(alloc);
    for part in text.split(';') {
        reserved.push(reserved_of(alloc, part)?)?;
    }
    Ok(reserved)
}

fn owned(alloc: Global, text: &str) -> Result<(Number, Entry), RowFault> {
    let (vendor, rest) = field(text)?;
    let (code, rest) = field(rest)?;
    let number = number(vendor, code)?;
    Ok((number, entry(alloc, rest)?))
}

/// Returns numbers with their entries; none of an empty text.
pub fn numbers(alloc: Global, text: &str) -> Result<Vec<(Number, Entry)>, RowFault> {
    let mut numbers = Vec::new(alloc);
    if !text.is_empty() {
        for part in text.split(';') {
            numbers.push(owned(alloc, part)?)?;
        }
    }
    Ok(numbers)
}

/// Returns organisations; none of an empty text.
pub fn orgs(alloc: Global, text: &str) -> Result<Vec<Org>, RowFault> {
    let mut orgs = Vec::new(alloc);
    if !text.is_empty() {
        for part in text.split(';') {
            orgs.push(org(alloc, part)?)?;
        }
    }
    Ok(orgs)
}

pub fn petitions(alloc: Global, text: &str) -> Result<Vec<(u32, Petition)>, RowFault> {
    let mut petitions = Vec::new(alloc);
    for part in text.split(';') {
        petitions.push(petition(alloc, part)?)?;
    }
    Ok(petitions)
}
