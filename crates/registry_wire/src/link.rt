//! Reads web addresses, in their canonical form.

ghost use Rattle.std.specs.Prelude.{◌≡◌, ◌||◌, IfOk, bytes_eq, codes};
ghost use Rattle.registry_wire.specs.Kinds.{link_of, web_address};

use std::alloc::Global;
use url::{ParseError, Url};
use usbnum_core::{Link, NoMemory};

// The most bytes of a text that is read as a URL.
const MOST_URL_BYTES: usize = 4096;

fn is_web(scheme: &str) -> bool
    ensures { result ≡ (bytes_eq scheme.now (codes "http") || bytes_eq scheme.now (codes "https")) }
{
    scheme == "http" || scheme == "https"
}

// An HTTP or HTTPS URL as a link.
#[tactic(auto, unfolding(crate::specs::Kinds::web_address))]
fn web_address(alloc: Global, url: &Url) -> Result<Option<Link>, NoMemory>
    ensures { IfOk result (λ found. found ≡ web_address url.now) }
{
    if !is_web(url.scheme()) {
        return Ok(None);
    }
    Link::new(alloc, url.as_str().as_bytes())
}

// Reads a link, in its canonical form, from a URL of at most `MOST_URL_BYTES`.
#[tactic(auto, unfolding(crate::specs::Kinds::link_of))]
pub(crate) fn link_of(alloc: Global, text: &str) -> Result<Option<Link>, NoMemory>
    ensures { IfOk result (λ found. found ≡ link_of text.now) }
{
    if text.len() > MOST_URL_BYTES {
        return Ok(None);
    }
    match Url::parse(alloc, text) {
        Ok(url) => web_address(alloc, &url),
        Err(ParseError::OutOfMemory | ParseError::Overflow) => Err(NoMemory),
        Err(_) => Ok(None),
    }
}
