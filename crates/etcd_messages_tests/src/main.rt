//! Tests of the messages of etcd: what no contract says. A line of the standard input has a kind of row and its text;
//! the line that is printed shows what the calls give.
#![tactic(auto)]

mod answers;
mod requests;

use row_texts::{Kinds, RowFault, show_rows};
use std::alloc::Global;
use std::io;

struct Rows;

impl Kinds for Rows {
    fn result_of(alloc: Global, kind: &str, text: &str) -> Result<Vec<u8>, RowFault> {
        match kind {
            "append" => requests::append(alloc, text),
            "page" => requests::page(alloc, text),
            "head" => requests::head(alloc, text),
            "login" => requests::login(alloc, text),
            "appended" => answers::appended(alloc, text),
            "lines" => answers::lines(alloc, text),
            "top" => answers::top(alloc, text),
            "token" => answers::token(alloc, text),
            "reason" => answers::reason(alloc, text),
            "path" => requests::path(alloc, text),
            _ => Err(RowFault::BadRow),
        }
    }
}

fn main(rt: HostRuntime) -> io::Result<()> {
    show_rows::<Rows>(&rt)
}
