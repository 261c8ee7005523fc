//! Tests of requests, replies, founding files and records: what no contract says. A line of the standard input
//! has a kind of row and its text; the line that is printed shows what the calls give.
#![tactic(auto)]

mod files;
mod records;
mod refusals;

use row_texts::{Kinds, RowFault, bytes_of, show_rows};
use std::alloc::Global;
use std::io;

fn of_bytes(alloc: Global, kind: &str, bytes: &[u8]) -> Result<Vec<u8>, RowFault> {
    match kind {
        "line" => files::line(alloc, bytes),
        "founding" => files::founding(alloc, bytes),
        "time" => files::time(alloc, bytes),
        "record" => records::record(alloc, bytes),
        "again" => records::again(alloc, bytes),
        _ => Err(RowFault::BadRow),
    }
}

struct Rows;

impl Kinds for Rows {
    fn result_of(alloc: Global, kind: &str, text: &str) -> Result<Vec<u8>, RowFault> {
        match kind {
            "import" => files::import(alloc, text),
            "digest" => records::digest(alloc, text),
            "done" => refusals::done(alloc, text),
            "refused" => refusals::refused(alloc, text),
            "owned" => refusals::owned(alloc, text),
            "near" => refusals::range_owned(alloc, text, false),
            "far" => refusals::range_owned(alloc, text, true),
            "wire" => refusals::by_the_wire(alloc, text),
            _ => {
                let bytes = bytes_of(alloc, text)?;
                of_bytes(alloc, kind, &bytes)
            }
        }
    }
}

fn main(rt: HostRuntime) -> io::Result<()> {
    show_rows::<Rows>(&rt)
}
