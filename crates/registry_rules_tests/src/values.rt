//! Texts and holdings of the rules.

use registry_rules::{
    CanonicalForm, Holdings, Order, ReplyText, Request, order_of_form, request_bytes,
};
use row_records::slug;
use row_texts::{RowFault, text_of};
use std::alloc::Global;
use usbnum_core::{Key, Slug};

/// Shows the bytes of the copy of a canonical form.
pub(crate) fn form(alloc: Global, bytes: &[u8]) -> Result<Vec<u8>, RowFault> {
    let form = CanonicalForm::new(bytes.to_vec(alloc)?);
    let copy = form.clone()?;
    Ok(copy.as_bytes().to_vec(alloc)?)
}

fn sender(alloc: Global) -> Result<(Slug, Key), RowFault> {
    let key = Key::new(alloc, b"k1")?.ok_or(RowFault::BadRow)?;
    Ok((slug(alloc, "ann")?, key))
}

fn form_of(alloc: Global, request: &Request) -> Result<Vec<u8>, RowFault> {
    Ok(request_bytes(alloc, request)?.as_bytes().to_vec(alloc)?)
}

fn read_text(
    alloc: Global,
    caller: Slug,
    key: Key,
    found: Option<Order>,
) -> Result<Vec<u8>, RowFault> {
    match found {
        Some(order) => {
            let request = Request {
                caller,
                key,
                order,
                time: None,
            };
            form_of(alloc, &request)
        }
        None => text_of(alloc, "none"),
    }
}

/// Shows the canonical form of the order that is read from a canonical form, if one is.
pub(crate) fn read(alloc: Global, bytes: &[u8]) -> Result<Vec<u8>, RowFault> {
    let (caller, key) = sender(alloc)?;
    let form = CanonicalForm::new(bytes.to_vec(alloc)?);
    read_text(alloc, caller, key, order_of_form(alloc, &form)?)
}

/// Shows the text of the copy of a reply.
pub(crate) fn reply(alloc: Global, text: &str) -> Result<Vec<u8>, RowFault> {
    let text = ReplyText::new(String::from_str(alloc, text)?);
    let copy = text.clone()?;
    text_of(alloc, copy.as_str())
}

/// Shows how many holdings an empty list has.
pub(crate) fn holdings(alloc: Global) -> Result<Vec<u8>, RowFault> {
    let count = Holdings::new(Vec::new(alloc)).as_slice().len();
    Ok(format!(in alloc; "{count}")?.into_bytes())
}
