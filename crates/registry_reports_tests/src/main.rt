//! Tests of the list and the reports: what no contract says. A line of the standard input has a kind
//! of row and its text; the line that is printed shows what the calls give.
#![tactic(auto)]

mod pages;
mod reports;

use row_texts::{Kinds, RowFault, show_rows};
use std::alloc::Global;
use std::io;

struct Rows;

impl Kinds for Rows {
    fn result_of(alloc: Global, kind: &str, text: &str) -> Result<Vec<u8>, RowFault> {
        match kind {
            "list" => reports::list(alloc, text),
            "census" => reports::numbers(alloc, text),
            "numbers" => reports::taken(alloc, text),
            "holders" => reports::owners(alloc, text),
            "organisations" => reports::orgs(alloc, text),
            "page" => pages::page(alloc, text),
            "petitions" => reports::petitions(alloc, text),
            _ => Err(RowFault::BadRow),
        }
    }
}

fn main(rt: HostRuntime) -> io::Result<()> {
    show_rows::<Rows>(&rt)
}
