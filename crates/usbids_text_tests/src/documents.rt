//! Tags, names, and documents as texts.

use row_texts::{RowFault, cut, text_of};
use std::alloc::Global;
use usbids_text::{Document, Kind, Leaf, Mid, Name, ReadFault, Tag, Top};

/// Shows a tag, if the bytes are one.
pub(crate) fn tag(alloc: Global, bytes: &[u8]) -> Result<Vec<u8>, RowFault> {
    match Tag::new(bytes) {
        Some(tag) => text_of(alloc, tag.as_str()),
        None => text_of(alloc, "none"),
    }
}

/// Shows the length of a name and its first 40 bytes, if the bytes are one.
pub(crate) fn name(alloc: Global, bytes: &[u8]) -> Result<Vec<u8>, RowFault> {
    let Some(name) = Name::new(alloc, bytes)? else {
        return text_of(alloc, "none");
    };
    let name = name.as_bytes();
    let count = name.len();
    let mut text = format!(in alloc; "{count} ")?.into_bytes();
    text.extend_from_slice(&name[..count.min(40)])?;
    Ok(text)
}

/// Shows a fault of a text.
pub(crate) fn fault_text(alloc: Global, fault: ReadFault) -> Result<Vec<u8>, RowFault> {
    match fault {
        ReadFault::Line(fault) => Ok(format!(in alloc; "{fault}")?.into_bytes()),
        ReadFault::NoMemory => Err(RowFault::OutOfMemory),
    }
}

fn push_entry(
    alloc: Global,
    text: &mut Vec<u8>,
    mark: &str,
    code: u16,
    digits: u8,
    name: &[u8],
) -> Result<(), RowFault> {
    let head = format!(in alloc; "[{mark} {code:x}/{digits} ")?;
    text.extend_from_slice(head.as_bytes())?;
    text.extend_from_slice(name)?;
    Ok(text.push(b']')?)
}

fn push_mid(alloc: Global, text: &mut Vec<u8>, mid: &Mid) -> Result<(), RowFault> {
    push_entry(alloc, text, "-", mid.code(), mid.digits(), mid.name())?;
    for leaf in mid.leaves() {
        push_entry(alloc, text, "--", leaf.code(), leaf.digits(), leaf.name())?;
    }
    Ok(())
}

fn push_top(alloc: Global, text: &mut Vec<u8>, top: &Top) -> Result<(), RowFault> {
    let mark = match top.kind() {
        Kind::Vendor => "vendor",
        Kind::Tagged(tag) => tag.as_str(),
    };
    push_entry(alloc, text, mark, top.code(), top.digits(), top.name())?;
    for mid in top.mids() {
        push_mid(alloc, text, mid)?;
    }
    Ok(())
}

/// Shows each entry: its kind or depth, its code, the count of its digits, and its name.
pub(crate) fn document_text(alloc: Global, document: &Document) -> Result<Vec<u8>, RowFault> {
    let mut text = text_of(alloc, "document ")?;
    for top in document.tops() {
        push_top(alloc, &mut text, top)?;
    }
    Ok(text)
}

fn name_of(alloc: Global, text: &str) -> Result<Name, RowFault> {
    Name::new(alloc, text.as_bytes())?.ok_or(RowFault::BadRow)
}

fn mid_of(alloc: Global, name: &str, leaf: &str) -> Result<Mid, RowFault> {
    let mut mid = Mid::new(alloc, 0x11, 4, name_of(alloc, name)?);
    mid.push(Leaf::new(0x7, 2, name_of(alloc, leaf)?))?;
    Ok(mid)
}

fn top_of(alloc: Global, name: &str, mid: Mid) -> Result<Top, RowFault> {
    // A device of a vendor has four digits.
    if mid.digits() != 4 {
        return Err(RowFault::BadRow);
    }
    let mut top = Top::new(alloc, Kind::Vendor, 0x1209, 4, name_of(alloc, name)?);
    top.push(mid)?;
    Ok(top)
}

/// Shows a document that is made of the names of a vendor, a device and an interface.
pub(crate) fn built(alloc: Global, text: &str) -> Result<Vec<u8>, RowFault> {
    let (vendor, rest) = cut(text)?;
    let (device, interface) = cut(rest)?;
    let mid = mid_of(alloc, device, interface)?;
    let mut document = Document::new(alloc);
    document.push(top_of(alloc, vendor, mid)?)?;
    document_text(alloc, &document)
}
