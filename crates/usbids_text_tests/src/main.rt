//! Tests of numbers, sets of numbers and lists: what no contract says. A line of the standard input
//! has a kind of row and its text; the line that is printed shows what the calls give.
#![tactic(auto)]

mod documents;
mod lists;
mod numbers;
mod sets;
mod streams;
mod writing;

use row_texts::{Kinds, RowFault, bytes_of, show_rows};
use std::alloc::Global;
use std::io;

fn of_numbers(alloc: Global, kind: &str, bytes: &[u8]) -> Result<Vec<u8>, RowFault> {
    match kind {
        "code" => numbers::code(alloc, bytes),
        "slug" => numbers::slug(alloc, bytes),
        "key" => numbers::key(alloc, bytes),
        "title" => numbers::title(alloc, bytes),
        "link" => numbers::link(alloc, bytes),
        "memory" => numbers::memory(alloc),
        _ => of_lists(alloc, kind, bytes),
    }
}

fn of_lists(alloc: Global, kind: &str, bytes: &[u8]) -> Result<Vec<u8>, RowFault> {
    match kind {
        "list" => lists::list(alloc, bytes),
        "pieces" => lists::pieces(alloc, bytes),
        "tag" => documents::tag(alloc, bytes),
        "name" => documents::name(alloc, bytes),
        "write" => writing::written(alloc, bytes, None),
        "short" => writing::short(alloc, bytes),
        "take" => streams::taken(alloc, bytes),
        _ => Err(RowFault::BadRow),
    }
}

fn of_bytes(alloc: Global, kind: &str, text: &str) -> Result<Vec<u8>, RowFault> {
    let bytes = bytes_of(alloc, text)?;
    of_numbers(alloc, kind, &bytes)
}

fn of_more_fields(alloc: Global, kind: &str, text: &str) -> Result<Vec<u8>, RowFault> {
    match kind {
        "stamp" => writing::stamp(alloc, text),
        "dated" => writing::dated(alloc, text),
        "room" => writing::room(alloc, text),
        "put" => streams::put(alloc, text),
        _ => of_bytes(alloc, kind, text),
    }
}

struct Rows;

impl Kinds for Rows {
    fn result_of(alloc: Global, kind: &str, text: &str) -> Result<Vec<u8>, RowFault> {
        match kind {
            "number" => numbers::number(alloc, text),
            "span" => numbers::span(alloc, text),
            "order" => numbers::order(alloc, text),
            "slugs" => numbers::slugs(alloc, text),
            "set" => sets::set(alloc, text),
            "flags" => sets::flags(alloc, text),
            "find" => lists::found(alloc, text),
            "scan" => lists::scanned(alloc, text),
            "feed" => lists::fed(alloc, text),
            "build" => documents::built(alloc, text),
            _ => of_more_fields(alloc, kind, text),
        }
    }
}

fn main(rt: HostRuntime) -> io::Result<()> {
    show_rows::<Rows>(&rt)
}
