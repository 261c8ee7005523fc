//! Pages of the lines of a row, which have semicolons between them.

use registry_reports::Page;
use row_texts::{RowFault, bytes_of};
use std::alloc::Global;

// Puts as many lines on a page as it takes. Returns how many it then wants, and its text.
fn page_of(alloc: Global, lines: &str) -> Result<(u32, String), RowFault> {
    let mut page = Page::new(alloc);
    for line in lines.split(';') {
        if !page.push(line)? {
            break;
        }
    }
    Ok((page.wanted(), page.into_text()))
}

/// Shows how many lines a page takes, how many bytes they have, and how many lines the page wants
/// next.
pub(crate) fn page(alloc: Global, text: &str) -> Result<Vec<u8>, RowFault> {
    let bytes = bytes_of(alloc, text)?;
    let Ok(lines) = str::from_utf8(&bytes) else {
        return Err(RowFault::BadRow);
    };
    let (wanted, page) = page_of(alloc, lines)?;
    let page = page.into_bytes();
    let count = page.iter().filter(|byte| **byte == b'\n').count();
    let length = page.len();
    Ok(format!(in alloc; "{count} lines, {length} bytes, {wanted} wanted")?.into_bytes())
}
