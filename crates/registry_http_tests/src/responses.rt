//! Responses as they are written, also to a sink that fails.

use crate::ends::Brim;
use byte_streams::{Broken, Outlet};
use registry_http::{
    Allow, Header, HttpRefusal, Response, Unavailable, org_response, refusal_response,
    reply_response, text_response, write_response, write_unavailable,
};
use registry_rules::Reply;
use row_texts::{RowFault, number_of};
use std::alloc::Global;

// Returns the text if it begins with the status line of this status.
fn checked(alloc: Global, status: u16, text: Vec<u8>) -> Result<Vec<u8>, RowFault> {
    let line = format!(in alloc; "HTTP/1.1 {status} ")?;
    if text.starts_with(line.as_bytes()) {
        Ok(text)
    } else {
        Err(RowFault::Wrong)
    }
}

/// Returns the bytes of a response. The status that is returned must be that of the first line.
pub(crate) fn response_text(alloc: Global, response: &Response) -> Result<Vec<u8>, RowFault> {
    let mut sink = Outlet::new(Vec::new(alloc));
    match write_response(alloc, &mut sink, response) {
        Ok(status) => checked(alloc, status, sink.into_inner()),
        Err(Broken) => Err(RowFault::OutOfMemory),
    }
}

fn replied(alloc: Global, reply: &Reply) -> Result<Vec<u8>, RowFault> {
    response_text(alloc, &reply_response(alloc, reply)?)
}

/// Shows the response that has a reply.
pub(crate) fn did(alloc: Global, text: &str) -> Result<Vec<u8>, RowFault> {
    replied(alloc, &row_records::done(alloc, text)?)
}

/// Shows the response that has a refusal by the rules.
pub(crate) fn refuses(alloc: Global, text: &str) -> Result<Vec<u8>, RowFault> {
    let refusal = row_records::refusal_of(number_of(text)?)?;
    replied(alloc, &Reply::Refused(refusal))
}

/// Returns the bytes of the response to a message that is refused.
pub(crate) fn refusal_text(alloc: Global, refusal: HttpRefusal) -> Result<Vec<u8>, RowFault> {
    response_text(alloc, &refusal_response(alloc, refusal)?)
}

// The refusal of a message with this number, but for those of its body.
fn refusal_of(number: u32) -> Result<HttpRefusal, RowFault> {
    Ok(match number {
        20 => HttpRefusal::BadHead,
        21 => HttpRefusal::BadLength,
        22 => HttpRefusal::TooLarge,
        23 => HttpRefusal::ShortBody,
        24 => HttpRefusal::NoRoute,
        25 => HttpRefusal::WrongMethod(Allow::Get),
        125 => HttpRefusal::WrongMethod(Allow::Post),
        26 => HttpRefusal::BadHeader(Header::Caller),
        126 => HttpRefusal::BadHeader(Header::Key),
        226 => HttpRefusal::BadHeader(Header::Time),
        30 => HttpRefusal::StoreFault,
        31 => HttpRefusal::NoMemory,
        _ => return Err(RowFault::BadRow),
    })
}

/// Shows the response that has a refusal of a message. 125, 126 and 226 are refusals 25 and 26 of the
/// other method and headers.
pub(crate) fn turns_away(alloc: Global, text: &str) -> Result<Vec<u8>, RowFault> {
    refusal_text(alloc, refusal_of(number_of(text)?)?)
}

/// Shows the response that has a text.
pub(crate) fn sent(alloc: Global, bytes: &[u8]) -> Result<Vec<u8>, RowFault> {
    response_text(alloc, &text_response(bytes.to_vec(alloc)?))
}

fn why_of(text: &str) -> Result<Unavailable, RowFault> {
    match text {
        "store" => Ok(Unavailable::StoreFault),
        "memory" => Ok(Unavailable::NoMemory),
        _ => Err(RowFault::BadRow),
    }
}

/// Shows the status and the bytes that say why the registry cannot be asked.
pub(crate) fn unavailable(alloc: Global, text: &str) -> Result<Vec<u8>, RowFault> {
    let why = why_of(text)?;
    let mut sink = Outlet::new(Vec::new(alloc));
    let Ok(status) = write_unavailable(&mut sink, why) else {
        return Err(RowFault::OutOfMemory);
    };
    let mut text = format!(in alloc; "{status} ")?.into_bytes();
    text.extend_from_slice(&sink.into_inner())?;
    Ok(text)
}

// Whether a sink that takes so many bytes of a response fails once, and has the front of it.
fn has_front(alloc: Global, response: &Response, whole: &[u8], room: usize) -> bool {
    let mut sink = Brim {
        bytes: Vec::new(alloc),
        room,
        failures: 0,
    };
    let failed = write_response(alloc, &mut sink, response) == Err(Broken);
    failed && sink.failures == 1 && Some(sink.bytes.as_slice()) == whole.get(..room)
}

fn fronts_text(alloc: Global, response: &Response) -> Result<Vec<u8>, RowFault> {
    let whole = response_text(alloc, response)?;
    for room in 0..whole.len() {
        if !has_front(alloc, response, &whole, room) {
            return Err(RowFault::Wrong);
        }
    }
    let count = whole.len();
    Ok(format!(in alloc; "{count}")?.into_bytes())
}

/// Writes a response to sinks that take fewer bytes than it has, and shows their number. Each must
/// have the front of it.
pub(crate) fn brimmed(alloc: Global) -> Result<Vec<u8>, RowFault> {
    fronts_text(alloc, &org_response(alloc, None)?)
}
