//! Reads the requests and founding files of rows, and shows a request.

use registry_rules::{Founding, Rejection, Request, request_bytes};
use registry_wire::{WireRefusal, founding_from_toml, line_request};
use row_texts::{RowFault, bytes_of};
use std::alloc::Global;

/// Returns the caller, the key and the order's canonical form, with tabs between them.
pub fn canonical(alloc: Global, request: &Request) -> Result<Vec<u8>, RowFault> {
    let form = request_bytes(alloc, request)?;
    let (caller, key) = (request.caller.as_str(), request.key.as_str());
    let mut text = format!(in alloc; "{caller}\t{key}\t")?.into_bytes();
    text.extend_from_slice(form.as_bytes())?;
    Ok(text)
}

fn row_fault(rejection: Rejection<WireRefusal>) -> RowFault {
    match rejection {
        Rejection::Refused(_) => RowFault::BadRow,
        Rejection::NoMemory => RowFault::OutOfMemory,
    }
}

/// Reads the request of a line.
pub fn request_of(alloc: Global, line: &str) -> Result<Request, RowFault> {
    let line = bytes_of(alloc, line)?;
    line_request(alloc, &line).map_err(row_fault)
}

/// Reads a founding file without a fault.
pub fn founding_of(alloc: Global, bytes: &[u8]) -> Result<Founding, RowFault> {
    founding_from_toml(alloc, bytes).map_err(row_fault)
}
