//! Reads the head of a message as a query or an order.

ghost use Rattle.std.specs.Prelude.{◌≡◌, All, IfOk, length, map, option_and_then, bytes_eq};
ghost use Rattle.httparse.specs.Spans.{IsHeaderWithin, header_bytes};
ghost use Rattle.registry_rules.specs.Gives.{Gives};
ghost use Rattle.registry_http.specs.Refusals.{found_or};
ghost use Rattle.registry_wire.specs.Kinds.{slug_of, key_of, time_of};
ghost use Rattle.registry_http.specs.Routes.{templates};
ghost use Rattle.registry_http.specs.Reading.{length_in, header_in, time_in_fields, body_limit, within, order_head, head_for, routed_head};
ghost use Rattle.registry_http.specs.declared.refusal.HttpRefusal.TheVariants as refusals;
ghost use Rattle.registry_http.specs.declared.refusal.Header.TheVariants as headers;

use crate::fields::{has_field, length_of, only_value};
use crate::parts::slug_of;
use crate::refusal::{Allow, Header, HttpRefusal};
use crate::route::{Endpoint, Query, Route};
use crate::routes::{Template, route_of};
use httparse::spans::HeaderSpan;
use matchit::Router;
use registry_rules::Rejection;
use std::alloc::Global;
use usbnum_core::{Key, NoMemory, Slug, Time};

/// The most bytes of an order in JSON.
const MOST_COMMAND: u32 = 16_384;

/// The most bytes of a list that is imported.
const MOST_LIST: u32 = 4_194_304;

/// The head of an order.
#[derive(Drop)]
pub(crate) struct OrderHead {
    /// The endpoint to which it is sent.
    pub endpoint: Endpoint,
    /// The length of its body, in bytes.
    pub length: u32,
    /// The caller of the request.
    pub caller: Slug,
    /// The key of the request.
    pub key: Key,
    /// The time of the request, if it is given.
    pub time: Option<Time>,
}

/// The meaning of a head: a query, or an order whose body follows.
#[derive(Drop)]
pub(crate) enum Head {
    Query(Query),
    Order(OrderHead),
}

fn length_in(buffer: &[u8], spans: &[HeaderSpan]) -> Option<u64>
    requires { All (IsHeaderWithin (length buffer.now)) spans.now }
    ensures { result ≡ length_in (map (header_bytes buffer.now) spans.now) }
{
    if has_field(buffer, spans, b"transfer-encoding") {
        return None;
    }
    length_of(only_value(buffer, spans, b"content-length")?)
}

fn body_limit(endpoint: &Endpoint) -> u32
    ensures { result ≡ body_limit endpoint.now }
{
    match endpoint {
        Endpoint::Commands => MOST_COMMAND,
        Endpoint::Imports { .. } => MOST_LIST,
    }
}

fn within(most: u32, length: u64) -> Result<u32, Rejection<HttpRefusal>>
    ensures { Gives result (within most length) }
{
    if length <= u64::from(most) {
        Ok(length as u32)
    } else {
        Err(Rejection::Refused(HttpRefusal::TooLarge))
    }
}

fn length_at(buffer: &[u8], spans: &[HeaderSpan]) -> Result<u64, Rejection<HttpRefusal>>
    requires { All (IsHeaderWithin (length buffer.now)) spans.now }
    ensures { Gives result (found_or refusals.BadLength (length_in (map (header_bytes buffer.now) spans.now))) }
{
    match length_in(buffer, spans) {
        Some(length) => Ok(length),
        None => Err(Rejection::Refused(HttpRefusal::BadLength)),
    }
}

fn caller_at(
    alloc: Global,
    buffer: &[u8],
    spans: &[HeaderSpan],
) -> Result<Slug, Rejection<HttpRefusal>>
    requires { All (IsHeaderWithin (length buffer.now)) spans.now }
    ensures { Gives result (found_or (refusals.BadHeader headers.Caller) (option_and_then slug_of (header_in headers.Caller (map (header_bytes buffer.now) spans.now)))) }
{
    let Some(text) = only_value(buffer, spans, Header::Caller.name().as_bytes()) else {
        return Err(Rejection::Refused(HttpRefusal::BadHeader(Header::Caller)));
    };
    match slug_of(alloc, text)? {
        Some(caller) => Ok(caller),
        None => Err(Rejection::Refused(HttpRefusal::BadHeader(Header::Caller))),
    }
}

/// Reads a text as a key.
#[tactic(auto, unfolding(registry_wire::specs::Kinds::key_of))]
fn key_of(alloc: Global, text: &[u8]) -> Result<Option<Key>, NoMemory>
    ensures { IfOk result (λ found. found ≡ key_of text.now) }
{
    Key::new(alloc, text)
}

fn key_at(alloc: Global, buffer: &[u8], spans: &[HeaderSpan]) -> Result<Key, Rejection<HttpRefusal>>
    requires { All (IsHeaderWithin (length buffer.now)) spans.now }
    ensures { Gives result (found_or (refusals.BadHeader headers.Key) (option_and_then key_of (header_in headers.Key (map (header_bytes buffer.now) spans.now)))) }
{
    let Some(text) = only_value(buffer, spans, Header::Key.name().as_bytes()) else {
        return Err(Rejection::Refused(HttpRefusal::BadHeader(Header::Key)));
    };
    match key_of(alloc, text)? {
        Some(key) => Ok(key),
        None => Err(Rejection::Refused(HttpRefusal::BadHeader(Header::Key))),
    }
}

/// Reads a text as a time.
#[tactic(auto, unfolding(registry_wire::specs::Kinds::time_of))]
fn time_of(alloc: Global, text: &[u8]) -> Result<Option<Time>, NoMemory>
    ensures { IfOk result (λ found. found ≡ time_of text.now) }
{
    Time::new(alloc, text)
}

fn time_at(
    alloc: Global,
    buffer: &[u8],
    spans: &[HeaderSpan],
) -> Result<Option<Time>, Rejection<HttpRefusal>>
    requires { All (IsHeaderWithin (length buffer.now)) spans.now }
    ensures { Gives result (time_in_fields (map (header_bytes buffer.now) spans.now)) }
{
    if !has_field(buffer, spans, Header::Time.name().as_bytes()) {
        return Ok(None);
    }
    let Some(text) = only_value(buffer, spans, Header::Time.name().as_bytes()) else {
        return Err(Rejection::Refused(HttpRefusal::BadHeader(Header::Time)));
    };
    match time_of(alloc, text)? {
        Some(time) => Ok(Some(time)),
        None => Err(Rejection::Refused(HttpRefusal::BadHeader(Header::Time))),
    }
}

#[tactic(auto, unfolding(crate::specs::Reading::order_head))]
fn order_head(
    alloc: Global,
    endpoint: Endpoint,
    buffer: &[u8],
    spans: &[HeaderSpan],
) -> Result<Head, Rejection<HttpRefusal>>
    requires { All (IsHeaderWithin (length buffer.now)) spans.now }
    ensures { Gives result (order_head endpoint (map (header_bytes buffer.now) spans.now)) }
{
    let wanted = length_at(buffer, spans)?;
    let length = within(body_limit(&endpoint), wanted)?;
    let caller = caller_at(alloc, buffer, spans)?;
    let key = key_at(alloc, buffer, spans)?;
    let time = time_at(alloc, buffer, spans)?;
    Ok(Head::Order(OrderHead {
        endpoint,
        length,
        caller,
        key,
        time,
    }))
}

fn is_method(wanted: &str, method: &[u8]) -> bool
    ensures { result ≡ bytes_eq method.now wanted.now }
{
    method == wanted.as_bytes()
}

#[tactic(auto, unfolding(crate::specs::Reading::head_for))]
fn head_for(
    alloc: Global,
    route: Route,
    method: &[u8],
    buffer: &[u8],
    spans: &[HeaderSpan],
) -> Result<Head, Rejection<HttpRefusal>>
    requires { All (IsHeaderWithin (length buffer.now)) spans.now }
    ensures { Gives result (head_for route method.now (map (header_bytes buffer.now) spans.now)) }
{
    match route {
        Route::Get(query) => {
            if is_method("GET", method) {
                Ok(Head::Query(query))
            } else {
                Err(Rejection::Refused(HttpRefusal::WrongMethod(Allow::Get)))
            }
        }
        Route::Post(endpoint) => {
            if is_method("POST", method) {
                order_head(alloc, endpoint, buffer, spans)
            } else {
                Err(Rejection::Refused(HttpRefusal::WrongMethod(Allow::Post)))
            }
        }
    }
}

/// Returns the query or order that this method, target and fields ask for, or the first fault.
#[tactic(auto, unfolding(crate::specs::Reading::routed_head))]
pub(crate) fn head_in(
    alloc: Global,
    router: &Router<Template>,
    method: &[u8],
    target: &[u8],
    buffer: &[u8],
    spans: &[HeaderSpan],
) -> Result<Head, Rejection<HttpRefusal>>
    requires within { All (IsHeaderWithin (length buffer.now)) spans.now }
    requires whole { router.now ≡ templates }
    ensures { Gives result (routed_head method.now target.now (map (header_bytes buffer.now) spans.now)) }
{
    match route_of(alloc, router, target)? {
        Some(route) => head_for(alloc, route, method, buffer, spans),
        None => Err(Rejection::Refused(HttpRefusal::NoRoute)),
    }
}
