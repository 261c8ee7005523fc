//! Replies and refusals, and the line that is written for each.

use crate::files::refusal_text;
use registry_rules::{NumberName, Refusal, Reply};
use registry_wire::{Field, FoundingFault, WireRefusal, reply_json};
use row_texts::{RowFault, number_of};
use std::alloc::Global;
use usbids_text::{LineFault, Why};

fn reply_text(alloc: Global, reply: &Reply) -> Result<Vec<u8>, RowFault> {
    Ok(reply_json(alloc, reply)?.into_bytes())
}

/// Shows the line of a reply.
pub(crate) fn done(alloc: Global, text: &str) -> Result<Vec<u8>, RowFault> {
    reply_text(alloc, &row_records::done(alloc, text)?)
}

fn refused_text(alloc: Global, refusal: Refusal) -> Result<Vec<u8>, RowFault> {
    reply_text(alloc, &Reply::Refused(refusal))
}

/// Shows the line of a refusal without a detail.
pub(crate) fn refused(alloc: Global, text: &str) -> Result<Vec<u8>, RowFault> {
    refused_text(alloc, row_records::refusal_of(number_of(text)?)?)
}

/// Shows the line of a refusal that names the owner of a number.
pub(crate) fn owned(alloc: Global, text: &str) -> Result<Vec<u8>, RowFault> {
    refused_text(alloc, Refusal::NumberOwned(row_records::slug(alloc, text)?))
}

/// Shows the line of a refusal that names an owned number of a range.
pub(crate) fn range_owned(alloc: Global, text: &str, foreign: bool) -> Result<Vec<u8>, RowFault> {
    let (vendor, code) = row_records::field(text)?;
    let number = row_records::number(vendor, code)?;
    refused_text(alloc, Refusal::RangeOwned(NumberName { number, foreign }))
}

// The refusal of a text with this number, with some detail where it has one.
fn wire_refusal(number: u32) -> Result<WireRefusal, RowFault> {
    Ok(match number {
        27 => WireRefusal::BadJson,
        28 => WireRefusal::BadField(Field::Title),
        29 => WireRefusal::BadList(LineFault {
            line: 2,
            why: Why::NoParent,
        }),
        32 => WireRefusal::BadFounding(FoundingFault::Toml),
        _ => return Err(RowFault::BadRow),
    })
}

/// Shows the line of a refusal of a text.
pub(crate) fn by_the_wire(alloc: Global, text: &str) -> Result<Vec<u8>, RowFault> {
    refusal_text(alloc, wire_refusal(number_of(text)?)?)
}
