//! Tests of the log that etcd keeps: what no contract says. A line of the standard input has a kind of row and its text;
//! the line that is printed shows what the calls give.
#![tactic(auto)]

mod calls;
mod script;

use row_texts::{Kinds, RowFault, show_rows};
use std::alloc::Global;
use std::io;

struct Rows;

impl Kinds for Rows {
    fn result_of(alloc: Global, kind: &str, text: &str) -> Result<Vec<u8>, RowFault> {
        match kind {
            "answers" => calls::answers(alloc, text),
            "sends" => calls::sends(alloc, text),
            _ => Err(RowFault::BadRow),
        }
    }
}

fn main(rt: HostRuntime) -> io::Result<()> {
    show_rows::<Rows>(&rt)
}
