//! Tests of a log in memory: what becomes of its calls. A line of the standard input has the most lines of an answer and
//! the calls, and the line that is printed shows the answers and then the lines of the log.
#![tactic(auto)]

mod calls;

use row_texts::{Kinds, RowFault, show_rows};
use std::alloc::Global;
use std::io;

struct Rows;

impl Kinds for Rows {
    fn result_of(alloc: Global, kind: &str, text: &str) -> Result<Vec<u8>, RowFault> {
        match kind {
            "calls" => calls::answers(alloc, text),
            _ => Err(RowFault::BadRow),
        }
    }
}

fn main(rt: HostRuntime) -> io::Result<()> {
    show_rows::<Rows>(&rt)
}
