//! Requests, and the paths to which they are sent.

use etcd_messages::{Endpoint, append_request, head_request, login_request, page_request};
use row_texts::{RowFault, bytes_of, cut, number_of, text_of};
use std::alloc::Global;
use usbnum_core::Slug;

/// Reads the name of a log.
pub(crate) fn name_of(alloc: Global, text: &str) -> Result<Slug, RowFault> {
    Slug::new(alloc, text.as_bytes())?.ok_or(RowFault::BadRow)
}

/// Reads a name, a bar and a number, and what follows the next bar.
pub(crate) fn placed(alloc: Global, text: &str) -> Result<(Slug, u32, &str), RowFault> {
    let (name, rest) = cut(text)?;
    let (number, rest) = cut(rest)?;
    Ok((name_of(alloc, name)?, number_of(number)?, rest))
}

/// Shows the request to append a line.
pub(crate) fn append(alloc: Global, text: &str) -> Result<Vec<u8>, RowFault> {
    let (name, number, line) = placed(alloc, text)?;
    let line = bytes_of(alloc, line)?;
    Ok(append_request(alloc, &name, number, &line)?.into_bytes())
}

/// Shows the request to read lines.
pub(crate) fn page(alloc: Global, text: &str) -> Result<Vec<u8>, RowFault> {
    let (name, number, limit) = placed(alloc, text)?;
    Ok(page_request(alloc, &name, number, number_of(limit)?)?.into_bytes())
}

/// Shows the request to read the head.
pub(crate) fn head(alloc: Global, text: &str) -> Result<Vec<u8>, RowFault> {
    let name = name_of(alloc, text)?;
    Ok(head_request(alloc, &name)?.into_bytes())
}

/// Shows the request to log in.
pub(crate) fn login(alloc: Global, text: &str) -> Result<Vec<u8>, RowFault> {
    let (user, password) = cut(text)?;
    Ok(login_request(alloc, user, password)?.into_bytes())
}

/// Shows a path.
pub(crate) fn path(alloc: Global, text: &str) -> Result<Vec<u8>, RowFault> {
    let endpoint = match text {
        "append" => Endpoint::Append,
        "read" => Endpoint::Read,
        "login" => Endpoint::Login,
        _ => return Err(RowFault::BadRow),
    };
    text_of(alloc, endpoint.path())
}
