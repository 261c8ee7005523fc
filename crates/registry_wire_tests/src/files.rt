//! Request lines, founding files, imports and stamps, and the result of reading each.

use registry_rules::{Founding, Rejection, Request};
use registry_wire::{
    WireRefusal, founding_from_toml, import_request, line_request, refusal_json, stamp_from_text,
};
use row_records::canonical;
use row_texts::{RowFault, bytes_of, cut, text_of};
use std::alloc::Global;
use std::fmt::Write;
use usbids_text::{Document, ReadFault, read_all};
use usbnum_core::{Key, Vid};

pub(crate) fn refusal_text(alloc: Global, refusal: WireRefusal) -> Result<Vec<u8>, RowFault> {
    Ok(refusal_json(alloc, refusal)?.into_bytes())
}

pub(crate) fn rejection_text(
    alloc: Global,
    rejection: Rejection<WireRefusal>,
) -> Result<Vec<u8>, RowFault> {
    match rejection {
        Rejection::Refused(refusal) => refusal_text(alloc, refusal),
        Rejection::NoMemory => Err(RowFault::OutOfMemory),
    }
}

/// Shows the request or the refusal of a line.
pub(crate) fn line(alloc: Global, line: &[u8]) -> Result<Vec<u8>, RowFault> {
    match line_request(alloc, line) {
        Ok(request) => canonical(alloc, &request),
        Err(rejection) => rejection_text(alloc, rejection),
    }
}

fn push_members(text: &mut String, founding: &Founding) -> Result<(), RowFault> {
    for curator in founding.curators.as_slice() {
        write!(&mut *text, "|{curator}")?;
    }
    for licence in founding.licences.as_slice() {
        write!(&mut *text, "/{licence}")?;
    }
    Ok(())
}

fn push_fixed(text: &mut String, founding: &Founding) -> Result<(), RowFault> {
    for span in founding.fixed.parts() {
        write!(&mut *text, " {span}")?;
    }
    Ok(())
}

pub(crate) fn founding_text(alloc: Global, founding: &Founding) -> Result<Vec<u8>, RowFault> {
    let (vendor, name) = (founding.vendor, &founding.name);
    let mut text = format!(in alloc; "{vendor} {name}")?;
    push_members(&mut text, founding)?;
    push_fixed(&mut text, founding)?;
    Ok(text.into_bytes())
}

/// Shows the values of a founding file, or its refusal.
pub(crate) fn founding(alloc: Global, bytes: &[u8]) -> Result<Vec<u8>, RowFault> {
    match founding_from_toml(alloc, bytes) {
        Ok(founding) => founding_text(alloc, &founding),
        Err(rejection) => rejection_text(alloc, rejection),
    }
}

fn document_of(alloc: Global, bytes: &[u8]) -> Result<Document, RowFault> {
    match read_all(alloc, bytes) {
        Ok(document) => Ok(document),
        Err(ReadFault::NoMemory) => Err(RowFault::OutOfMemory),
        Err(ReadFault::Line(_)) => Err(RowFault::BadRow),
    }
}

fn key_of(alloc: Global, text: &str) -> Result<Key, RowFault> {
    Key::new(alloc, text.as_bytes())?.ok_or(RowFault::BadRow)
}

// The request by which `cora` imports a list for `acme`.
fn import_of(alloc: Global, named: Option<Vid>, list: &Document) -> Result<Request, RowFault> {
    let founding = row_records::vid("1209")?;
    let caller = row_records::slug(alloc, "cora")?;
    let org = row_records::slug(alloc, "acme")?;
    let key = key_of(alloc, "i1")?;
    let request = import_request(alloc, caller, key, org, founding, named, list)?;
    Ok(request)
}

fn import_text(alloc: Global, named: Option<Vid>, list: &[u8]) -> Result<Vec<u8>, RowFault> {
    let list = document_of(alloc, list)?;
    canonical(alloc, &import_of(alloc, named, &list)?)
}

/// Shows the request that imports a list: the devices of the vendor before the bar, or of the
/// founding vendor where that is a hyphen.
pub(crate) fn import(alloc: Global, text: &str) -> Result<Vec<u8>, RowFault> {
    let (vendor, list) = cut(text)?;
    let named = row_records::maybe_vid(vendor)?;
    let list = bytes_of(alloc, list)?;
    import_text(alloc, named, &list)
}

/// Shows the stamp of a text, if it is one.
pub(crate) fn time(alloc: Global, text: &[u8]) -> Result<Vec<u8>, RowFault> {
    match stamp_from_text(text) {
        Some(stamp) => Ok(format!(in alloc; "{stamp:?}")?.into_bytes()),
        None => text_of(alloc, "none"),
    }
}
