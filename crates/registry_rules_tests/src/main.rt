//! Tests of the rules: what no contract says. A line of the standard input has a kind of row and its
//! text; the line that is printed shows what the calls give.
#![tactic(auto)]

mod rules;
mod steps;
mod values;

use row_texts::{Kinds, RowFault, bytes_of, show_rows};
use std::alloc::Global;
use std::io;

fn of_bytes(alloc: Global, kind: &str, bytes: &[u8]) -> Result<Vec<u8>, RowFault> {
    match kind {
        "founded" => rules::founded(alloc, bytes),
        "form" => values::form(alloc, bytes),
        "read" => values::read(alloc, bytes),
        _ => Err(RowFault::BadRow),
    }
}

struct Rows;

impl Kinds for Rows {
    fn result_of(alloc: Global, kind: &str, text: &str) -> Result<Vec<u8>, RowFault> {
        match kind {
            "judge" => steps::judged(alloc, text),
            "settled" => steps::settled_alone(alloc, text),
            "way" => steps::gone(alloc, text),
            "totals" => rules::totals(alloc, text),
            "reply" => values::reply(alloc, text),
            "holdings" => values::holdings(alloc),
            _ => {
                let bytes = bytes_of(alloc, text)?;
                of_bytes(alloc, kind, &bytes)
            }
        }
    }
}

fn main(rt: HostRuntime) -> io::Result<()> {
    show_rows::<Rows>(&rt)
}
