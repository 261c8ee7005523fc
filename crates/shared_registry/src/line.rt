//! The line of a request and its reply.

ghost use Rattle.std.specs.Prelude.{◌≡◌, IfOk, string_bytes};
ghost use Rattle.registry_laws.specs.Records.{IsAccepted};
ghost use Rattle.registry_wire.specs.Record.{accepted_line};

use crate::valid::has_valid_fields;
use registry_rules::{Accepted, ReplyText, Request};
use registry_wire::accepted_line;
use std::alloc::Global;
use usbnum_core::NoMemory;

// Returns the accepted request with this reply.
fn accepted_as(request: &Request, reply: &ReplyText) -> Result<Accepted, NoMemory>
    ensures { IfOk result (λ accepted. accepted ≡ record { request = request.now; reply = reply.now }) }
{
    Ok(Accepted {
        request: request.clone()?,
        reply: reply.clone()?,
    })
}

// Returns the line of an accepted request, and drops that.
fn written(alloc: Global, accepted: Accepted) -> Result<String, NoMemory>
    ensures { IfOk result (λ line. string_bytes line ≡ accepted_line accepted) }
{
    accepted_line(alloc, &accepted)
}

/// Returns the line that a record has for an accepted request with this reply.
pub(crate) fn line_of(
    alloc: Global,
    request: &Request,
    reply: &ReplyText,
) -> Result<String, NoMemory>
    ensures line { IfOk result (λ line. string_bytes line ≡ accepted_line (record { request = request.now; reply = reply.now })) }
    ensures valid { IsAccepted (record { request = request.now; reply = reply.now }) }
{
    has_valid_fields(request);
    // (the text of a reply is UTF-8)
    let _bytes = reply.as_str().as_bytes();
    written(alloc, accepted_as(request, reply)?)
}
