//! Reads a message as a query or a request.

ghost use Rattle.std.specs.Prelude.{Ok, Err, Result, ◌≡◌, ◌⊎◌, ◌≤◌, ◌<◌, ◌++◌, ℕ, List, length, drop, take, map};
ghost use Rattle.byte_streams.specs.Streams.{MayGive};
ghost use Rattle.httparse.specs.Spans.{IsRequestWithin, span_bytes, header_bytes};
ghost use Rattle.registry_rules.specs.Gives.{Gives};
ghost use Rattle.registry_http.specs.Bodies.{body_in, IsFed};
ghost use Rattle.registry_http.specs.declared.route.Endpoint.TheVariants as endpoints;
ghost use Rattle.registry_http.specs.Reading.{routed_head};
ghost use Rattle.registry_http.specs.Incomplete.{FailsAfter, HasOpenBody, IsIncomplete};
ghost use Rattle.registry_http.specs.Routes.{templates};
ghost use Rattle.registry_http.specs.Messages.{BodySays, HeadSays, Says};
ghost use Rattle.registry_http.specs.Refusals.{IfSaid};
ghost use Rattle.registry_http.specs.declared.message.Message.{Message};
ghost use Rattle.registry_http.specs.declared.refusal.HttpRefusal.{HttpRefusal};
ghost use Rattle.registry_http.specs.declared.refusal.HttpRefusal.TheVariants.{BadHead, ShortBody};

use crate::body::{feed_body, read_body};
use crate::fault::MessageFault;
use crate::head::{HeadEnd, MOST_HEAD, read_head};
use crate::reading::{Head, OrderHead, head_in};
use crate::refusal::HttpRefusal;
use crate::route::{Endpoint, Query};
use crate::routes::{Routes, Template};
use byte_streams::Source;
use httparse::spans::{EMPTY_HEADER_SPAN, HeaderSpan, RequestSpans};
use matchit::Router;
use registry_rules::{Rejection, Request};
use registry_wire::{import_request, request_from_json};
use std::alloc::Global;
use usbids_text::Reader;
use usbnum_core::{Key, Slug, Vid};

/// The query or request of a message without a fault.
#[derive(Drop)]
pub enum Message {
    /// A query, which leaves the registry as it is.
    Query(Query),
    /// A request to act on.
    Request(Request),
}

/// Returns the request to import the list that the reader was fed.
fn import_in(
    alloc: Global,
    founding: Vid,
    caller: Slug,
    key: Key,
    org: Slug,
    vendor: Option<Vid>,
    reader: Reader,
    whole: bool,
) -> Result<Request, MessageFault>
    ensures ok { IfSaid result (λ said. (count : ℕ) (rest : List ℕ) → IsFed whole reader count rest → BodySays founding (endpoints.Imports org vendor) caller key (body_in count rest) said) }
    ensures kind { result ≡ Err MessageFault.Broken → ⊥ }
{
    if !whole {
        return Err(MessageFault::Refused(HttpRefusal::ShortBody));
    }
    let list = reader.finish()?;
    Ok(import_request(alloc, caller, key, org, founding, vendor, &list)?)
}

/// Reads a list of `count` bytes, which begins with those in `come`, and returns the request to
/// import it.
fn read_import<R: Source>(
    alloc: Global,
    source: &mut R,
    come: &[u8],
    count: usize,
    founding: Vid,
    caller: Slug,
    key: Key,
    org: Slug,
    vendor: Option<Vid>,
) -> Result<Request, MessageFault>
    ensures ok { IfSaid result (λ said. (rest : List ℕ) × MayGive (R.remaining source.old) rest × BodySays founding (endpoints.Imports org vendor) caller key (body_in count (come.now ++ rest)) said) }
    ensures kept { IfSaid result (λ said. R.failures source.new ≡ R.failures source.old) }
    ensures short { result ≡ Err MessageFault.NoMemory → R.failures source.new ≡ R.failures source.old }
    ensures broken { result ≡ Err MessageFault.Broken → FailsAfter (R.remaining source.old) (R.remaining source.new) (R.failures source.old) (R.failures source.new) (λ more. length (come.now ++ more) < count) }
{
    let mut reader = Reader::new(alloc);
    let whole = feed_body(source, &mut reader, come, count)?;
    import_in(alloc, founding, caller, key, org, vendor, reader, whole)
}

/// Reads the request in a body of JSON of `count` bytes, which begins at `start` in the buffer.
fn read_command<R: Source>(
    alloc: Global,
    source: &mut R,
    buffer: &mut Vec<u8>,
    start: usize,
    count: usize,
    caller: Slug,
    key: Key,
) -> Result<Request, MessageFault>
    requires within { start ≤ length buffer.old.items }
    requires front { start ≤ MOST_HEAD }
    requires small { count < 4294967296 }
    ensures ok { IfSaid result (λ said. (rest : List ℕ) × MayGive (R.remaining source.old) rest × ((founding : ℕ) → BodySays founding endpoints.Commands caller key (body_in count (drop start buffer.old.items ++ rest)) said)) }
    ensures kept { IfSaid result (λ said. R.failures source.new ≡ R.failures source.old) }
    ensures short { result ≡ Err MessageFault.NoMemory → R.failures source.new ≡ R.failures source.old }
    ensures broken { result ≡ Err MessageFault.Broken → FailsAfter (R.remaining source.old) (R.remaining source.new) (R.failures source.old) (R.failures source.new) (λ more. length (drop start buffer.old.items ++ more) < count) }
{
    if !read_body(source, buffer, start, count)? {
        return Err(MessageFault::Refused(HttpRefusal::ShortBody));
    }
    Ok(request_from_json(alloc, caller, key, None, &buffer[start..start + count])?)
}

/// Reads the request of an order with this head, whose body begins at `start` in the buffer. It
/// has no time yet.
fn read_order<R: Source>(
    alloc: Global,
    source: &mut R,
    buffer: &mut Vec<u8>,
    start: usize,
    founding: Vid,
    order: OrderHead,
) -> Result<Request, MessageFault>
    requires within { start ≤ length buffer.old.items }
    requires front { start ≤ MOST_HEAD }
    ensures ok { IfSaid result (λ said. (rest : List ℕ) × MayGive (R.remaining source.old) rest
        × BodySays founding order.endpoint order.caller order.key (body_in order.length (drop start buffer.old.items ++ rest)) said) }
    ensures kept { IfSaid result (λ said. R.failures source.new ≡ R.failures source.old) }
    ensures short { result ≡ Err MessageFault.NoMemory → R.failures source.new ≡ R.failures source.old }
    ensures broken { result ≡ Err MessageFault.Broken → FailsAfter (R.remaining source.old) (R.remaining source.new) (R.failures source.old) (R.failures source.new) (λ more. length (drop start buffer.old.items ++ more) < order.length) }
{
    let OrderHead {
        endpoint,
        length,
        caller,
        key,
        time: _,
    } = order;
    match endpoint {
        Endpoint::Commands => {
            read_command(alloc, source, buffer, start, length as usize, caller, key)
        }
        Endpoint::Imports { org, vendor } => read_import(
            alloc,
            source,
            &buffer[start..],
            length as usize,
            founding,
            caller,
            key,
            org,
            vendor,
        ),
    }
}

/// Returns the query or order that the head in the buffer asks for.
fn head_at(
    alloc: Global,
    router: &Router<Template>,
    buffer: &[u8],
    spans: &[HeaderSpan],
    head: RequestSpans,
) -> Result<Head, Rejection<HttpRefusal>>
    requires within { IsRequestWithin buffer.now spans.now head }
    requires whole { router.now ≡ templates }
    ensures { Gives result (routed_head (span_bytes buffer.now head.method) (span_bytes buffer.now head.path) (map (header_bytes buffer.now) (take head.headers spans.now))) }
{
    head_in(
        alloc,
        router,
        head.method.of(buffer),
        head.path.of(buffer),
        buffer,
        &spans[..head.headers],
    )
}

/// Reads the rest of a message with this head, whose body begins at `start` in the buffer.
fn read_rest<R: Source>(
    alloc: Global,
    source: &mut R,
    buffer: &mut Vec<u8>,
    start: usize,
    founding: Vid,
    call: Head,
) -> Result<Message, MessageFault>
    requires within { start ≤ length buffer.old.items }
    requires front { start ≤ MOST_HEAD }
    ensures ok { IfSaid result (λ said. (rest : List ℕ) × MayGive (R.remaining source.old) rest × HeadSays founding (Ok call) (drop start buffer.old.items ++ rest) said) }
    ensures kept { IfSaid result (λ said. R.failures source.new ≡ R.failures source.old) }
    ensures short { result ≡ Err MessageFault.NoMemory → R.failures source.new ≡ R.failures source.old }
    ensures broken { result ≡ Err MessageFault.Broken → FailsAfter (R.remaining source.old) (R.remaining source.new) (R.failures source.old) (R.failures source.new) (λ more. HasOpenBody (Ok call) (drop start buffer.old.items ++ more)) }
{
    match call {
        Head::Query(query) => Ok(Message::Query(query)),
        Head::Order(mut order) => {
            let time = order.time.take();
            let mut request = read_order(alloc, source, buffer, start, founding, order)?;
            request.time = time;
            Ok(Message::Request(request))
        }
    }
}

/// Reads the rest of a message whose head is at the front of the buffer.
fn read_after_head<R: Source>(
    alloc: Global,
    router: &Router<Template>,
    source: &mut R,
    buffer: &mut Vec<u8>,
    spans: &[HeaderSpan],
    head: RequestSpans,
    founding: Vid,
) -> Result<Message, MessageFault>
    requires within { IsRequestWithin buffer.old.items spans.now head }
    requires front { head.len ≤ MOST_HEAD }
    requires whole { router.now ≡ templates }
    ensures ok { IfSaid result (λ said. (rest : List ℕ) × MayGive (R.remaining source.old) rest
        × HeadSays founding (routed_head (span_bytes buffer.old.items head.method) (span_bytes buffer.old.items head.path) (map (header_bytes buffer.old.items) (take head.headers spans.now))) (drop head.len buffer.old.items ++ rest) said) }
    ensures kept { IfSaid result (λ said. R.failures source.new ≡ R.failures source.old) }
    ensures short { result ≡ Err MessageFault.NoMemory → R.failures source.new ≡ R.failures source.old }
    ensures broken { result ≡ Err MessageFault.Broken → FailsAfter (R.remaining source.old) (R.remaining source.new) (R.failures source.old) (R.failures source.new) (λ more. HasOpenBody (routed_head (span_bytes buffer.old.items head.method) (span_bytes buffer.old.items head.path) (map (header_bytes buffer.old.items) (take head.headers spans.now))) (drop head.len buffer.old.items ++ more)) }
{
    let call = head_at(alloc, router, buffer, spans, head)?;
    read_rest(alloc, source, buffer, head.len, founding, call)
}

/// Reads one message to a registry with this founding vendor. Returns a query or a request, or
/// `Refused` with the refusal of the first fault. The first message with a whole head makes the table
/// of the served paths, if memory suffices.
///
/// Reads only while the message is incomplete: fewer than 8,192 bytes came, and bytes that follow may
/// complete its head, its number of fields and the bytes of its target aside; or its head is that of
/// an order whose body is not complete. So it never waits for a peer that has sent its whole message.
///
/// Keeps at most 8,192 bytes of the head of a message and 16,384 of the body of an order in JSON,
/// besides the request itself. An imported list is read in pieces and needs the memory of
/// its document.
///
/// Returns `Broken` only if the source failed during this call, before the message was complete, and
/// `NoMemory` only when it runs out of memory.
pub fn read_message<R: Source>(
    alloc: Global,
    routes: &mut Routes,
    source: &mut R,
    founding: Vid,
) -> Result<Message, MessageFault>
    ensures ok { IfSaid result (λ said. (bytes : List ℕ) × MayGive (R.remaining source.old) bytes × Says founding bytes said) }
    ensures kept { IfSaid result (λ said. R.failures source.new ≡ R.failures source.old) }
    ensures short { result ≡ Err MessageFault.NoMemory → R.failures source.new ≡ R.failures source.old }
    ensures broken { result ≡ Err MessageFault.Broken → FailsAfter (R.remaining source.old) (R.remaining source.new) (R.failures source.old) (R.failures source.new) IsIncomplete }
{
    let mut buffer = Vec::new(alloc);
    let mut spans = [EMPTY_HEADER_SPAN; 64];
    let HeadEnd::Whole(head) = read_head(source, &mut buffer, &mut spans)? else {
        return Err(MessageFault::Refused(HttpRefusal::BadHead));
    };
    let router = routes.router(alloc)?;
    read_after_head(alloc, router, source, &mut buffer, &spans, head, founding)
}

/// The bytes of a message have one meaning, however they are cut into pieces.
pub fn says_one_thing()
    ensures { (founding : ℕ) (bytes : List ℕ) (a b : Result Message HttpRefusal) → Says founding bytes a → Says founding bytes b → a ≡ b }
{}

/// The bytes of an incomplete message alone are refused: they have no head, or their body ends
/// early. So a message that says anything else is complete.
pub fn refuses_an_incomplete_message()
    ensures { (founding : ℕ) (bytes : List ℕ) (said : Result Message HttpRefusal) → IsIncomplete bytes → Says founding bytes said → (said ≡ Err BadHead) ⊎ (said ≡ Err ShortBody) }
{}
