//! Shared by the tests: foundings and requests, read as the program reads them, and replies as
//! lines.

use crate::steps::Step;
use registry_rules::{Founding, Reply, Request};
use registry_wire::{founding_from_toml, import_request, line_request, reply_json};
use std::alloc::Global;
use std::test::Fail;
use usbids_text::read_all;
use usbnum_core::{Key, Slug, Vid};

const FOUNDING: &str =
    "vendor = \"1209\"\nname = \"Shared products\"\ncurators = [\"cora\"]\nlicences = [\"GPL-3.0-only\", \"MIT\"]\nfixed = [\"0001-0010\"]\n";

/// Returns the slug with this text.
pub fn slug(alloc: Global, text: &str) -> Result<Slug, Fail> {
    Ok(Slug::new(alloc, text.as_bytes())?.ok_or("no slug")?)
}

/// Returns a founding of the vendor 1209, with the numbers up to 0010 fixed.
pub fn founding(alloc: Global) -> Result<Founding, Fail> {
    Ok(founding_from_toml(alloc, FOUNDING.as_bytes())?)
}

// Returns cora's import of a list, under the key and for the organisation in `words`.
fn import(alloc: Global, words: &str, list: &str) -> Result<Request, Fail> {
    let (key, org) = words.split_once(' ').ok_or("no key")?;
    let key = Key::new(alloc, key.as_bytes())?.ok_or("no key")?;
    let vendor = Vid::new(0x1209).ok_or("no vendor")?;
    let list = read_all(alloc, list.as_bytes())?;
    let (caller, org) = (slug(alloc, "cora")?, slug(alloc, org)?);
    Ok(import_request(alloc, caller, key, org, vendor, None, &list)?)
}

/// Returns the request of a text: one line of JSON; or for an import its key and organisation, and
/// from the next line on its list.
pub fn request(alloc: Global, text: &str) -> Result<Request, Fail> {
    match text.split_once('\n') {
        Some((words, list)) => import(alloc, words, list),
        None => Ok(line_request(alloc, text.as_bytes())?),
    }
}

/// Returns the replies, each as a line.
pub fn lines_of(alloc: Global, replies: &[Reply]) -> Result<String, Fail> {
    let mut text = String::new(alloc);
    for reply in replies {
        text.push_str(reply_json(alloc, reply)?.as_str())?;
        text.push_str("\n")?;
    }
    Ok(text)
}

/// Returns the requests of the steps.
pub fn requests_of(alloc: Global, steps: &[Step]) -> Result<Vec<Request>, Fail> {
    let mut requests = Vec::new(alloc);
    for (text, _) in steps {
        requests.push(request(alloc, text)?)?;
    }
    Ok(requests)
}

/// Returns the expected replies of the steps, each as a line.
pub fn replies_to(alloc: Global, steps: &[Step]) -> Result<String, Fail> {
    let mut text = String::new(alloc);
    for (_, reply) in steps {
        text.push_str(reply)?;
        text.push_str("\n")?;
    }
    Ok(text)
}
