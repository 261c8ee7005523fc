//! Tests of messages and responses in memory: what no contract says. A line of the standard input has
//! a kind of row and its text; the line that is printed shows what the calls give.
#![tactic(auto)]

mod ends;
mod messages;
mod resources;
mod responses;

use row_texts::{Kinds, RowFault, bytes_of, show_rows};
use std::alloc::Global;
use std::io;

fn of_bytes(alloc: Global, kind: &str, bytes: &[u8]) -> Result<Vec<u8>, RowFault> {
    match kind {
        "message" => messages::message(alloc, bytes),
        "drip" => messages::dripped(alloc, bytes),
        "sent" => responses::sent(alloc, bytes),
        _ => Err(RowFault::BadRow),
    }
}

fn of_resources(alloc: Global, kind: &str, text: &str) -> Result<Vec<u8>, RowFault> {
    match kind {
        "founding" => resources::founding(alloc, text),
        "head" => resources::head(alloc, text),
        "number" => resources::number(alloc, text),
        "org" => resources::org(alloc, text),
        "no-org" => resources::no_org(alloc),
        "petition" => resources::petition(alloc, text),
        "declined" => resources::declined(alloc, text),
        "dated" => resources::dated(alloc, text),
        "no-petition" => resources::no_petition(alloc, text),
        _ => {
            let bytes = bytes_of(alloc, text)?;
            of_bytes(alloc, kind, &bytes)
        }
    }
}

struct Rows;

impl Kinds for Rows {
    fn result_of(alloc: Global, kind: &str, text: &str) -> Result<Vec<u8>, RowFault> {
        match kind {
            "brim" => responses::brimmed(alloc),
            "did" => responses::did(alloc, text),
            "refuses" => responses::refuses(alloc, text),
            "turns-away" => responses::turns_away(alloc, text),
            "unavailable" => responses::unavailable(alloc, text),
            _ => of_resources(alloc, kind, text),
        }
    }
}

fn main(rt: HostRuntime) -> io::Result<()> {
    show_rows::<Rows>(&rt)
}
