//! Reads lists, whole and in pieces, and looks for devices in them.

ghost use Rattle.std.specs.Prelude.{◌<◌, length};

use crate::documents::{document_text, fault_text};
use crate::numbers::vid_of;
use byte_streams::{Broken, Inlet};
use row_texts::{RowFault, bytes_of, cut, number_of, text_of};
use std::alloc::Global;
use usbids_text::{Document, ReadFault, Reader, Scan, feed_all, find, read_all};
use usbnum_core::{Vid, parse_code};

fn read_text(alloc: Global, read: Result<Document, ReadFault>) -> Result<Vec<u8>, RowFault> {
    match read {
        Ok(document) => document_text(alloc, &document),
        Err(fault) => fault_text(alloc, fault),
    }
}

/// Shows the document of a list, or its fault.
pub(crate) fn list(alloc: Global, bytes: &[u8]) -> Result<Vec<u8>, RowFault> {
    read_text(alloc, read_all(alloc, bytes))
}

fn in_two(alloc: Global, first: &[u8], second: &[u8]) -> Result<Vec<u8>, RowFault> {
    let mut reader = Reader::new(alloc);
    let _ = reader.feed(first);
    let _ = reader.feed(second);
    read_text(alloc, reader.finish())
}

fn in_bytes(alloc: Global, bytes: &[u8]) -> Result<Vec<u8>, RowFault> {
    let mut reader = Reader::new(alloc);
    for byte in bytes {
        let _ = reader.feed(&[*byte]);
    }
    read_text(alloc, reader.finish())
}

/// Shows a list that is the same however it is cut in two, and byte by byte.
pub(crate) fn pieces(alloc: Global, bytes: &[u8]) -> Result<Vec<u8>, RowFault> {
    let whole = in_bytes(alloc, bytes)?;
    for at in 0..=bytes.len() {
        let (first, second) = bytes.split_at(at);
        if in_two(alloc, first, second)? != whole {
            return Err(RowFault::Wrong);
        }
    }
    Ok(whole)
}

fn feed_one(
    alloc: Global,
    reader: &mut Reader,
    said: &mut Vec<u8>,
    piece: &str,
) -> Result<(), RowFault> {
    let bytes = bytes_of(alloc, piece)?;
    let text = match reader.feed(&bytes) {
        Ok(()) => text_of(alloc, "fed")?,
        Err(fault) => fault_text(alloc, fault)?,
    };
    said.extend_from_slice(&text)?;
    Ok(said.extend_from_slice(b", ")?)
}

/// Feeds a list in pieces with bars between them, and shows the result of each call and of the end.
pub(crate) fn fed(alloc: Global, text: &str) -> Result<Vec<u8>, RowFault> {
    let mut reader = Reader::new(alloc);
    let mut said = Vec::new(alloc);
    for piece in text.split('|') {
        feed_one(alloc, &mut reader, &mut said, piece)?;
    }
    let end = read_text(alloc, reader.finish())?;
    said.extend_from_slice(&end)?;
    Ok(said)
}

fn name_text(alloc: Global, name: Option<&[u8]>) -> Result<Vec<u8>, RowFault> {
    match name {
        Some(name) => Ok(name.to_vec(alloc)?),
        None => text_of(alloc, "none"),
    }
}

fn code_of(text: &str) -> Result<u16, RowFault> {
    parse_code(text.as_bytes()).ok_or(RowFault::BadRow)
}

/// Shows the name of a device in a list.
pub(crate) fn found(alloc: Global, text: &str) -> Result<Vec<u8>, RowFault> {
    let (vendor, rest) = cut(text)?;
    let (device, list) = cut(rest)?;
    let (vendor, device) = (vid_of(vendor)?, code_of(device)?);
    let bytes = bytes_of(alloc, list)?;
    match read_all(alloc, &bytes) {
        Ok(document) => name_text(alloc, find(&document, vendor, device)),
        Err(fault) => fault_text(alloc, fault),
    }
}

fn scan_text(
    alloc: Global,
    vendor: Vid,
    device: u16,
    list: &[u8],
    room: &mut [u8],
) -> Result<Vec<u8>, RowFault>
    requires { 0 < length room.old }
{
    let mut scan = Scan::new(alloc, vendor, device);
    match feed_all(&mut Inlet::new(list), &mut scan, room) {
        Ok(()) => {}
        Err(Broken) => return Err(RowFault::Wrong),
    }
    match scan.finish() {
        Ok(Some(name)) => name_text(alloc, Some(name.as_bytes())),
        Ok(None) => text_of(alloc, "none"),
        Err(fault) => fault_text(alloc, fault),
    }
}

// Looks for a device in pieces of so many bytes.
fn scan_with_room(
    alloc: Global,
    vendor: Vid,
    device: u16,
    list: &[u8],
    count: u32,
) -> Result<Vec<u8>, RowFault> {
    if count == 0 {
        return Err(RowFault::BadRow);
    }
    let mut room = vec![in alloc; 0u8; count as usize]?;
    scan_text(alloc, vendor, device, list, &mut room)
}

/// Looks for a device in a list that comes in pieces, and shows its name.
pub(crate) fn scanned(alloc: Global, text: &str) -> Result<Vec<u8>, RowFault> {
    let (count, rest) = cut(text)?;
    let (vendor, rest) = cut(rest)?;
    let (device, list) = cut(rest)?;
    let (vendor, device, count) = (vid_of(vendor)?, code_of(device)?, number_of(count)?);
    let bytes = bytes_of(alloc, list)?;
    scan_with_room(alloc, vendor, device, &bytes, count)
}
