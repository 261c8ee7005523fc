//! Tests of an exchange in HTTP/1.1: what no contract says. A line of the standard input has a kind of row and its text;
//! the line that is printed shows what the calls give.
#![tactic(auto)]

mod exchanges;
mod script;

use row_texts::{Kinds, RowFault, show_rows};
use std::alloc::Global;
use std::io;

struct Rows;

impl Kinds for Rows {
    fn result_of(alloc: Global, kind: &str, text: &str) -> Result<Vec<u8>, RowFault> {
        match kind {
            "answers" => exchanges::answers(alloc, text),
            "calls" => exchanges::calls(alloc, text),
            _ => Err(RowFault::BadRow),
        }
    }
}

fn main(rt: HostRuntime) -> io::Result<()> {
    show_rows::<Rows>(&rt)
}
