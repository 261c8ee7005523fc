//! Reads a list of USB numbers, writes it, and reads the written text again.
//!
//! `usbids_bench FILE [TIMES]` prints the number of entries in the list, and whether the written
//! text is read as the same document. With TIMES it prints the microseconds of that many reads and
//! writes. With 0 it reads the file once, in pieces, and keeps no text.
#![tactic(auto)]

ghost use Rattle.std.specs.Prelude.{◌≡◌, ⊤, length, IfOk, None};
ghost use Rattle.usbids_text.specs.Writing.{written};
ghost use Rattle.usbids_bench.specs.Counts.{capped_count, leaves_below, mids_in, leaves_under};

use byte_streams::{Broken, ByteReader, Inlet, Outlet, Source};
use std::alloc::{AllocError, Global};
use std::fs::File;
use std::io::Read;
use std::time::Instant;
use std::{fs, io};
use usbids_text::{Document, Mid, ReadFault, Reader, WriteFault, read_all, write};

/// The number of entries of each depth.
#[derive(Clone, Copy, Debug, PartialEq, Eq)]
struct Counts {
    tops: usize,
    mids: usize,
    leaves: usize,
}

fn leaves_of(mids: &[Mid]) -> usize
    ensures { result ≡ capped_count (leaves_below mids.now) }
{
    let mut leaves = 0usize;
    for mid in mids {
        leaves = leaves.saturating_add(mid.leaves().len());
    }
    leaves
}

fn counts_of(document: &Document) -> Counts
    ensures tops { result.tops ≡ length document.now }
    ensures mids { result.mids ≡ capped_count (mids_in document.now) }
    ensures leaves { result.leaves ≡ capped_count (leaves_under document.now) }
{
    let tops = document.tops();
    let mut mids = 0usize;
    let mut leaves = 0usize;
    for top in tops {
        mids = mids.saturating_add(top.mids().len());
        leaves = leaves.saturating_add(leaves_of(top.mids()));
    }
    Counts {
        tops: tops.len(),
        mids,
        leaves,
    }
}

// Returns the document's text. Fails only when it runs out of memory.
fn text_of(alloc: Global, document: &Document) -> Result<Vec<u8>, WriteFault>
    ensures { IfOk result (λ text. text.items ≡ written document.now None) }
{
    let mut sink = Outlet::new(Vec::new(alloc));
    write(document, None, &mut sink)?;
    Ok(sink.into_inner())
}

// Returns whether the text is read as the document that it was written for. It compares the texts
// of both documents, as a text is the text of at most one document.
fn is_read_again(alloc: Global, text: &[u8]) -> bool {
    match read_all(alloc, text) {
        Ok(document) => match text_of(alloc, &document) {
            Ok(again) => again.as_slice() == text,
            Err(WriteFault) => false,
        },
        Err(_) => false,
    }
}

fn report(rt: &HostRuntime, document: &Document) -> io::Result<()> {
    let counts = counts_of(document);
    println!(rt;
        "{} tops, {} mids, {} leaves",
        counts.tops, counts.mids, counts.leaves
    )?;
    let same = match text_of(rt.alloc(), document) {
        Ok(text) => is_read_again(rt.alloc(), &text),
        Err(WriteFault) => false,
    };
    if same {
        println!(rt; "written and read again: the same")
    } else {
        println!(rt; "written and read again: another")
    }
}

fn time_read(rt: &HostRuntime, bytes: &[u8]) -> io::Result<()> {
    let start = Instant::now(rt)?;
    let read = read_all(rt.alloc(), bytes);
    let elapsed = start.elapsed(rt)?;
    drop(read);
    println!(rt; "read {}", elapsed.as_micros())
}

fn time_write(rt: &HostRuntime, document: &Document) -> io::Result<()> {
    let start = Instant::now(rt)?;
    let text = text_of(rt.alloc(), document);
    let elapsed = start.elapsed(rt)?;
    drop(text);
    println!(rt; "write {}", elapsed.as_micros())
}

fn time(rt: &HostRuntime, bytes: &[u8], times: u32) -> io::Result<()> {
    for _ in 0..times {
        time_read(rt, bytes)?;
    }
    if let Ok(document) = read_all(rt.alloc(), bytes) {
        for _ in 0..times {
            time_write(rt, &document)?;
        }
    }
    Ok(())
}

// A list in a file.
#[derive(Drop)]
struct Listed(File);

// What a file gives is not known, so these relations hold of every call.
impl ByteReader for Listed {
    ghost remaining = { λ _. None };

    ghost reads = { λ _ _ _ _. ⊤ };

    ghost fails = { λ _ _. ⊤ };

    fn read(&mut self, room: &mut [u8]) -> Result<usize, Broken> {
        match self.0.read(room) {
            Ok(count) => Ok(count),
            Err(_) => Err(Broken),
        }
    }
}

// Feeds the next piece of a list, and returns whether there was one. Faults are reported at the
// end.
fn feed_next<R: Source>(source: &mut R, reader: &mut Reader) -> Result<bool, Broken> {
    let mut piece = [0u8; 8192];
    match source.take(&mut piece) {
        Ok(count) => {
            let _ = reader.feed(&piece[..count]);
            Ok(count > 0)
        }
        Err(broken) => Err(broken),
    }
}

// Reads a list in pieces.
fn read_in_pieces(rt: &HostRuntime, path: &str) -> io::Result<()> {
    let mut source = Inlet::new(Listed(fs::open(rt, path)?));
    let mut reader = Reader::new(rt.alloc());
    for _ in 0..u64::MAX {
        match feed_next(&mut source, &mut reader) {
            Ok(true) => {}
            Ok(false) => break,
            Err(Broken) => return println!(rt; "the list could not be read"),
        }
    }
    match reader.finish() {
        Ok(document) => println!(rt; "{} tops", document.tops().len()),
        Err(fault) => println!(rt; "{fault}"),
    }
}

fn look_at(rt: &HostRuntime, bytes: &[u8]) -> io::Result<()> {
    match read_all(rt.alloc(), bytes) {
        Ok(document) => report(rt, &document),
        Err(fault) => println!(rt; "{fault}"),
    }
}

fn words_of(rt: &HostRuntime) -> io::Result<Vec<String>> {
    Ok(std::env::args(rt)?.collect(rt.alloc())?)
}

fn main(rt: HostRuntime) -> io::Result<()> {
    let words = words_of(&rt)?;
    let Some(path) = words.get(1) else {
        return println!(&rt; "usage: usbids_bench FILE [TIMES]");
    };
    let times = words.get(2).map(|times| times.parse().unwrap_or(1));
    if times == Some(0) {
        return read_in_pieces(&rt, path.as_str());
    }
    let bytes = fs::read(&rt, path.as_str())?;
    match times {
        Some(times) => time(&rt, &bytes, times),
        None => look_at(&rt, &bytes),
    }
}
