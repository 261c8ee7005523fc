//! What the head of an answer says of the message.

ghost use Rattle.std.specs.Prelude.{◌≡◌};
ghost use Rattle.http_exchange.specs.Heads.{framing_of, if_bounded, limits, may_stay};

use http1::Limits;
use http1::fields::KnownFields;
use http1::framing::{Framing, FramingError, MethodKind, response_framing};

/// The limit in bytes of a head.
pub(crate) const MOST_HEAD: usize = 16_384;

/// What the head of an answer says of the message.
#[derive(Clone, Copy, Debug)]
pub(crate) struct Start {
    /// Its length in bytes.
    pub len: usize,
    /// The status.
    pub status: u16,
    /// How the body ends.
    pub framing: Framing,
    /// Whether the connection stays open after the message.
    pub stays: bool,
}

// The limits of the parts of a body in chunks that are no data, and of a head.
pub(crate) fn limits() -> Limits
    ensures { result ≡ limits }
{
    Limits {
        max_head_len: MOST_HEAD,
        max_extensions_len: MOST_HEAD,
        max_trailers_len: MOST_HEAD,
    }
}

// Returns how a body ends, unless it ends where the connection does.
fn if_bounded(found: Result<Framing, FramingError>) -> Option<Framing>
    ensures { result ≡ if_bounded found }
{
    match found {
        Ok(Framing::NoBody) => Some(Framing::NoBody),
        Ok(Framing::Length(n)) => Some(Framing::Length(n)),
        Ok(Framing::Chunked) => Some(Framing::Chunked),
        Ok(Framing::UntilClose) => None,
        Err(_) => None,
    }
}

// Returns how the body of an answer ends, if it ends before the connection does.
pub(crate) fn framing_of(status: u16, minor: u8, fields: &KnownFields) -> Option<Framing>
    ensures { result ≡ framing_of status minor fields.now }
{
    if status >= 200 {
        if_bounded(response_framing(MethodKind::Other, status, minor, fields))
    } else {
        None
    }
}

// Returns whether the connection stays open after the message.
pub(crate) fn may_stay(minor: u8, fields: &KnownFields) -> bool
    ensures { result ≡ may_stay minor fields.now }
{
    minor == 1 && !fields.close
}
