//! A program over rows: it reads the rows of the standard input and prints what each shows.

use crate::fault::RowFault;
use crate::showing::shown;
use std::alloc::Global;
use std::io;

/// The kinds of rows of a program.
pub trait Kinds {
    /// Returns what the calls give for a row of this kind with this text.
    fn result_of(alloc: Global, kind: &str, text: &str) -> Result<Vec<u8>, RowFault>;
}

// Returns what is shown for a line. One that begins with a number sign is shown as it is.
fn row<K: Kinds>(alloc: Global, line: &str) -> Result<String, RowFault> {
    let Some((kind, text)) = line.split_once(' ') else {
        return Err(RowFault::BadRow);
    };
    if kind == "#" {
        return Ok(String::from_str(alloc, line)?);
    }
    let found = K::result_of(alloc, kind, text)?;
    Ok(shown(alloc, &found)?)
}

/// Prints what each line of the standard input shows. A line is a kind of row, a space and a text.
///
/// Returns the error of the first line that cannot be read or printed.
pub fn show_rows<K: Kinds>(rt: &HostRuntime) -> io::Result<()> {
    for line in rt.lines(rt.alloc()) {
        let line = line?;
        match row::<K>(rt.alloc(), &line) {
            Ok(text) => println!(rt; "{text}")?,
            Err(fault) => println!(rt; "{}", fault.name())?,
        }
    }
    Ok(())
}
