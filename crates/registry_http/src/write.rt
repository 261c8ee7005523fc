//! Writes responses to a sink.

ghost use Rattle.std.specs.Prelude.{◌≡◌, ◌++◌, IfOk, IfSome};
ghost use Rattle.byte_streams.specs.Streams.{Writes};
ghost use Rattle.registry_http.specs.declared.response.Response.{Response as TheResponse};
ghost use Rattle.registry_http.specs.Responses.{response_head, response_bytes, unavailable_response, IsInPlaceOf};

use crate::response::Response;
use crate::response_head::response_head;
use crate::unavailable::{Unavailable, unavailable_text};
use byte_streams::{Broken, Sink, put_all};
use std::alloc::Global;
use usbnum_core::NoMemory;

/// The limit in bytes of a body that goes with its head in one write.
const SHORT_BODY: usize = 16_384;

fn joined(alloc: Global, head: &[u8], body: &[u8]) -> Result<Vec<u8>, NoMemory>
    ensures { IfOk result (λ both. both.items ≡ head.now ++ body.now) }
{
    let mut both = head.to_vec(alloc)?;
    both.extend_from_slice(body)?;
    Ok(both)
}

/// Returns the head and the body in one piece, or `None` if the body is long or memory runs out.
fn joined_if_short(alloc: Global, head: &[u8], body: &[u8]) -> Option<Vec<u8>>
    ensures { IfSome result (λ both. both.items ≡ head.now ++ body.now) }
{
    if body.len() > SHORT_BODY {
        return None;
    }
    joined(alloc, head, body).ok()
}

/// Writes a head and then a body.
fn put_parts<W: Sink>(sink: &mut W, head: &[u8], body: &[u8]) -> Result<(), Broken>
    ensures { Writes (W.contents sink.old) (W.contents sink.new) (W.failures sink.old) (W.failures sink.new) result (head.now ++ body.now) }
{
    put_all(sink, head)?;
    put_all(sink, body)
}

/// Writes a head and a body, a short body in one write with its head: the peer then waits for one
/// packet, and no delay of small writes has to be switched off.
fn put_both<W: Sink>(alloc: Global, sink: &mut W, head: &[u8], body: &[u8]) -> Result<(), Broken>
    ensures { Writes (W.contents sink.old) (W.contents sink.new) (W.failures sink.old) (W.failures sink.new) result (head.now ++ body.now) }
{
    match joined_if_short(alloc, head, body) {
        Some(both) => put_all(sink, both.as_slice()),
        None => put_parts(sink, head, body),
    }
}

#[tactic(auto, unfolding(crate::specs::Responses::response_bytes))]
fn put_response<W: Sink>(
    alloc: Global,
    sink: &mut W,
    head: &str,
    response: &Response,
) -> Result<u16, Broken>
    requires { head.now ≡ response_head response.now }
    ensures writes { Writes (W.contents sink.old) (W.contents sink.new) (W.failures sink.old) (W.failures sink.new) result (response_bytes response.now) }
    ensures status { IfOk result (λ status. status ≡ response.now.status) }
{
    put_both(alloc, sink, head.as_bytes(), response.body.as_slice())?;
    Ok(response.status.as_u16())
}

/// Writes a response and returns its status. If memory runs out for its head, writes refusal 31
/// instead.
///
/// Returns `Broken` only if the sink failed during this call, after it took a prefix of the
/// response.
pub fn write_response<W: Sink>(
    alloc: Global,
    sink: &mut W,
    response: &Response,
) -> Result<u16, Broken>
    ensures { (written : TheResponse) × IsInPlaceOf written response.now
        × Writes (W.contents sink.old) (W.contents sink.new) (W.failures sink.old) (W.failures sink.new) result (response_bytes written)
        × IfOk result (λ status. status ≡ written.status) }
{
    match response_head(alloc, response) {
        Ok(head) => put_response(alloc, sink, head.as_str(), response),
        Err(NoMemory) => write_unavailable(sink, Unavailable::NoMemory),
    }
}

/// Writes refusal 30 or 31 and returns its status. Allocates no memory.
///
/// Returns `Broken` only if the sink failed during this call, after it took a prefix of the
/// response.
pub fn write_unavailable<W: Sink>(sink: &mut W, why: Unavailable) -> Result<u16, Broken>
    ensures writes { Writes (W.contents sink.old) (W.contents sink.new) (W.failures sink.old) (W.failures sink.new) result (response_bytes (unavailable_response why)) }
    ensures status { IfOk result (λ status. status ≡ 503) }
{
    put_all(sink, unavailable_text(why).as_bytes())?;
    Ok(503)
}
