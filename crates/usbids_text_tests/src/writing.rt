//! Writes documents, also to writers that fail.

use byte_streams::{Broken, ByteWriter, Outlet};
use row_texts::{RowFault, bytes_of, cut, number_of, text_of};
use std::alloc::Global;
use usbids_text::{Document, ReadFault, Stamp, WriteFault, read_all, write};

/// A writer that takes `room` bytes and then none.
#[derive(Drop)]
struct Few {
    bytes: Vec<u8>,
    room: usize,
}

impl ByteWriter for Few {
    ghost use Rattle.std.specs.Prelude.{⊤, None};

    ghost contents = { λ _. None };

    ghost writes = { λ _ _ _ _. ⊤ };

    ghost fails = { λ _ _. ⊤ };

    fn write(&mut self, bytes: &[u8]) -> Result<usize, Broken> {
        let count = bytes.len().min(self.room);
        match self.bytes.extend_from_slice(&bytes[..count]) {
            Ok(()) => {
                self.room -= count;
                Ok(count)
            }
            Err(_) => Err(Broken),
        }
    }
}

fn document_of(alloc: Global, bytes: &[u8]) -> Result<Document, RowFault> {
    match read_all(alloc, bytes) {
        Ok(document) => Ok(document),
        Err(ReadFault::NoMemory) => Err(RowFault::OutOfMemory),
        Err(ReadFault::Line(_)) => Err(RowFault::BadRow),
    }
}

fn text_with(
    alloc: Global,
    document: &Document,
    stamp: Option<Stamp>,
) -> Result<Vec<u8>, RowFault> {
    let mut sink = Outlet::new(Vec::new(alloc));
    match write(document, stamp, &mut sink) {
        Ok(()) => Ok(sink.into_inner()),
        Err(WriteFault) => Err(RowFault::OutOfMemory),
    }
}

/// Shows a list as it is written.
pub(crate) fn written(
    alloc: Global,
    list: &[u8],
    stamp: Option<Stamp>,
) -> Result<Vec<u8>, RowFault> {
    let document = document_of(alloc, list)?;
    text_with(alloc, &document, stamp)
}

fn part(text: Option<&str>) -> Result<u8, RowFault> {
    match number_of(text.unwrap_or(""))?.try_into() {
        Ok(part) => Ok(part),
        Err(_) => Err(RowFault::BadRow),
    }
}

fn year(text: Option<&str>) -> Result<u16, RowFault> {
    match number_of(text.unwrap_or(""))?.try_into() {
        Ok(year) => Ok(year),
        Err(_) => Err(RowFault::BadRow),
    }
}

// The stamp of six numbers.
fn stamp_of(text: &str) -> Result<Option<Stamp>, RowFault> {
    let mut words = text.split(' ');
    Ok(Stamp::new(
        year(words.next())?,
        part(words.next())?,
        part(words.next())?,
        part(words.next())?,
        part(words.next())?,
        part(words.next())?,
    ))
}

/// Shows whether six numbers are a stamp.
pub(crate) fn stamp(alloc: Global, text: &str) -> Result<Vec<u8>, RowFault> {
    match stamp_of(text)? {
        Some(_) => text_of(alloc, "some"),
        None => text_of(alloc, "none"),
    }
}

/// Shows a list as it is written with a stamp.
pub(crate) fn dated(alloc: Global, text: &str) -> Result<Vec<u8>, RowFault> {
    let (stamp, list) = cut(text)?;
    let stamp = stamp_of(stamp)?.ok_or(RowFault::BadRow)?;
    let list = bytes_of(alloc, list)?;
    written(alloc, &list, Some(stamp))
}

// Writes to a writer that takes so many bytes. Returns whether it did not fail, and whether the
// writer has the front of the text.
fn short_write(alloc: Global, document: &Document, whole: &[u8], room: usize) -> (bool, bool) {
    let mut sink = Outlet::new(Few {
        bytes: Vec::new(alloc),
        room,
    });
    let went_well = write(document, None, &mut sink).is_ok();
    let taken = sink.into_inner().bytes;
    (went_well, Some(taken.as_slice()) == whole.get(..room))
}

/// Writes a list to a writer that takes so many bytes, and shows how that ended.
pub(crate) fn room(alloc: Global, text: &str) -> Result<Vec<u8>, RowFault> {
    let (room, list) = cut(text)?;
    let room = number_of(room)? as usize;
    let list = bytes_of(alloc, list)?;
    let document = document_of(alloc, &list)?;
    let whole = text_with(alloc, &document, None)?;
    let (went_well, has_front) = short_write(alloc, &document, &whole, room);
    Ok(format!(in alloc; "{went_well} {has_front}")?.into_bytes())
}

/// Writes a list to writers that take fewer bytes than it has, and shows their number. Each must
/// have the front of the text.
pub(crate) fn short(alloc: Global, list: &[u8]) -> Result<Vec<u8>, RowFault> {
    let document = document_of(alloc, list)?;
    let whole = text_with(alloc, &document, None)?;
    for room in 0..whole.len() {
        let (went_well, has_front) = short_write(alloc, &document, &whole, room);
        if went_well || !has_front {
            return Err(RowFault::Wrong);
        }
    }
    let count = whole.len();
    Ok(format!(in alloc; "{count}")?.into_bytes())
}
