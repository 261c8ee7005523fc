//! Standard readers and writers as sources and sinks.

use byte_streams::{Broken, Inlet, Outlet, Sink, Source, put_all};
use row_texts::{RowFault, bytes_of, cut};
use std::alloc::Global;

// Takes at most two bytes, and adds their count and the bytes to the text.
fn take_two<R: Source>(alloc: Global, source: &mut R, text: &mut Vec<u8>) -> Result<(), RowFault> {
    let mut room = [0u8; 2];
    let count = match source.take(&mut room) {
        Ok(count) => count,
        Err(Broken) => return Err(RowFault::Wrong),
    };
    let head = format!(in alloc; "[{count} ")?;
    text.extend_from_slice(head.as_bytes())?;
    text.extend_from_slice(&room[..count.min(2)])?;
    Ok(text.push(b']')?)
}

/// Takes from the bytes three times, at most two each time.
pub(crate) fn taken(alloc: Global, bytes: &[u8]) -> Result<Vec<u8>, RowFault> {
    let mut source = Inlet::new(bytes);
    let mut text = Vec::new(alloc);
    for _ in 0..3u8 {
        take_two(alloc, &mut source, &mut text)?;
    }
    Ok(text)
}

fn put_twice<W: Sink>(sink: &mut W, first: &[u8], second: &[u8]) -> Result<usize, Broken> {
    put_all(sink, first)?;
    sink.put(second)
}

/// Puts all bytes before a bar, and then those after it. Shows how many of these were taken, and
/// all that the writer has.
pub(crate) fn put(alloc: Global, text: &str) -> Result<Vec<u8>, RowFault> {
    let (first, second) = cut(text)?;
    let first = bytes_of(alloc, first)?;
    let second = bytes_of(alloc, second)?;
    let mut sink = Outlet::new(Vec::new(alloc));
    match put_twice(&mut sink, &first, &second) {
        Ok(count) => {
            let mut text = format!(in alloc; "{count} ")?.into_bytes();
            text.extend_from_slice(&sink.into_inner())?;
            Ok(text)
        }
        Err(Broken) => Err(RowFault::OutOfMemory),
    }
}
