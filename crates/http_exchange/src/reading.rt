//! Reads an answer.

ghost use Rattle.std.specs.Prelude.{◌≡◌, ◌≤◌, ◌<◌, ◌&&◌, [], length, IfOk, IfErr, OnOk, IfSome, IfNone};
ghost use Rattle.httparse.specs.Spans.{IsResponseOf, IsResponseWithin};
ghost use Rattle.http_exchange.specs.Bodies.{IsBodyAt, bytes_left};
ghost use Rattle.http_exchange.specs.Exchanges.{HasRead, ReadsAnswer, ReadsNoAnswer, ReadsMore, StopsReading, most_message};
ghost use Rattle.http_exchange.specs.Heads.{HasAnswerHead, most_answer_fields};
ghost use Rattle.http_exchange.specs.Answers.{IsAnswer, IsAwaited, NeverAnswers};

use crate::connection::Connection;
use crate::fault::ExchangeFault;
use crate::sending::bytes_from;
use crate::start::{MOST_HEAD, Start, framing_of, limits, may_stay};
use http1::decode::{Decoded, Decoder};
use http1::fields::KnownFields;
use httparse::Status;
use httparse::spans::{EMPTY_HEADER_SPAN, HeaderSpan, ResponseSpans, parse_response};
use std::alloc::Global;

/// The most bytes of a message of which more is read: 32 MiB and 64 KiB.
const MOST_MESSAGE: usize = 33_619_968;

/// An answer in HTTP/1.1.
#[derive(Debug, Drop)]
pub struct Answer {
    /// The status.
    pub status: u16,
    /// The body.
    pub body: Vec<u8>,
    /// Whether another request may be sent on its connection.
    pub keeps: bool,
}

// The body of an answer, and whether no byte came behind it.
#[derive(Debug, Drop)]
struct Whole {
    body: Vec<u8>,
    is_last: bool,
}

// What was read of a body: the state of its decoder, the place in the buffer, and the bytes.
#[derive(Debug, Drop)]
struct Part {
    decoder: Decoder,
    at: usize,
    body: Vec<u8>,
}

// Appends further bytes of the connection to the buffer.
#[tactic(auto, using(crate::proofs::CallLemmas::reads_more, crate::proofs::CallLemmas::reads_the_end, crate::proofs::CallLemmas::reads_without_memory))]
fn read_more<C: Connection>(connection: &mut C, buffer: &mut Vec<u8>) -> Result<(), ExchangeFault>
    requires { IsAwaited buffer.old.items }
    ensures ok { OnOk result (ReadsMore C.Connection connection.old connection.new buffer.old.items buffer.new.items) }
    ensures few { OnOk result (length buffer.new.items ≤ most_message) }
    ensures err { IfErr result (StopsReading C.Connection buffer.old.items connection.old connection.new) }
{
    let mut chunk = [0u8; 16_384];
    let room = MOST_MESSAGE.saturating_sub(buffer.len()).min(chunk.len());
    if room == 0 {
        return Err(ExchangeFault::TooLong);
    }
    match connection.read(&mut chunk[..room]) {
        Ok(0) => Err(ExchangeFault::Ended),
        Ok(count) => {
            buffer.extend_from_slice(&chunk[..count])?;
            Ok(())
        }
        Err(_) => Err(ExchangeFault::Read),
    }
}

// Returns what the head at the front of the buffer says, if it is one of an answer.
#[tactic(auto, using(crate::proofs::HeadLemmas::head_of, crate::proofs::HeadLemmas::never_past, crate::proofs::HeadLemmas::never_unframed))]
fn start_of(buffer: &[u8], spans: &[HeaderSpan], head: ResponseSpans) -> Option<Start>
    requires within { IsResponseWithin buffer.now spans.now head }
    requires parsed { IsResponseOf buffer.now spans.now head }
    requires few { length spans.now ≡ most_answer_fields }
    ensures some { IfSome result (HasAnswerHead buffer.now) }
    ensures none { IfNone result (NeverAnswers buffer.now) }
{
    if head.len > MOST_HEAD {
        return None;
    }
    let fields = KnownFields::from_spans(buffer, &spans[..head.headers]);
    let framing = framing_of(head.code, head.version, &fields)?;
    Some(Start {
        len: head.len,
        status: head.code,
        framing,
        stays: may_stay(head.version, &fields),
    })
}

// Reads until the buffer has the head of an answer, or cannot have one.
#[tactic(auto, using(crate::proofs::HeadLemmas::no_response_nil, crate::proofs::HeadLemmas::awaits_head, crate::proofs::HeadLemmas::never_overflowing, crate::proofs::HeadLemmas::never_long, crate::proofs::CallLemmas::read_on, crate::proofs::CallLemmas::reading_fails, crate::proofs::CallLemmas::never_read))]
fn read_head<C: Connection>(
    connection: &mut C,
    buffer: &mut Vec<u8>,
) -> Result<Start, ExchangeFault>
    requires fresh { buffer.old.items ≡ [] }
    ensures ok { IfOk result (HasAnswerHead buffer.new.items) }
    ensures read { OnOk result (HasRead C.Connection connection.old connection.new buffer.new.items) }
    ensures few { OnOk result (length buffer.new.items ≤ most_message) }
    ensures err { IfErr result (ReadsNoAnswer C.Connection connection.old connection.new) }
{
    let mut spans = [EMPTY_HEADER_SPAN; 64];
    'parts: while buffer.len() < MOST_HEAD {
        read_more(connection, buffer)?;
        match parse_response(buffer, &mut spans) {
            Ok(Status::Complete(head)) => match start_of(buffer, &spans, head) {
                Some(start) => return Ok(start),
                None => return Err(ExchangeFault::BadMessage),
            },
            Ok(Status::Partial) => {}
            Err(_) => return Err(ExchangeFault::BadMessage),
        }
    }
    Err(ExchangeFault::BadMessage)
}

// Reads the next piece of a body. Returns whether no byte came behind the body, once it is whole.
#[tactic(auto, using(crate::proofs::BodyLemmas::is_past, crate::proofs::BodyLemmas::is_further, crate::proofs::BodyLemmas::is_dry, crate::proofs::BodyLemmas::never_at, crate::proofs::BodyLemmas::ends_at, crate::proofs::CallLemmas::read_on, crate::proofs::CallLemmas::reading_fails, crate::proofs::CallLemmas::never_read, crate::proofs::CallLemmas::memory_fails))]
fn read_piece<C: Connection>(
    connection: &mut C,
    buffer: &mut Vec<u8>,
    start: Start,
    part: &mut Part,
) -> Result<Option<bool>, ExchangeFault>
    requires { IsBodyAt buffer.old.items start part.old.decoder part.old.at part.old.body.items }
    ensures on { IfOk result (λ end. IfNone end (IsBodyAt buffer.new.items start part.new.decoder part.new.at part.new.body.items)) }
    ensures smaller { IfOk result (λ end. IfNone end (bytes_left buffer.new.items part.new.at < bytes_left buffer.old.items part.old.at)) }
    ensures read { OnOk result ((first : C) → HasRead C.Connection first connection.old buffer.old.items → HasRead C.Connection first connection.new buffer.new.items) }
    ensures end { IfOk result (λ end. IfSome end (λ is_last. IsAnswer buffer.new.items start.status part.new.body.items (start.stays && is_last))) }
    ensures err { IfErr result (λ fault. (first : C) → HasRead C.Connection first connection.old buffer.old.items
        → ReadsNoAnswer C.Connection first connection.new fault) }
{
    let mut trailers = [EMPTY_HEADER_SPAN; 64];
    let unread = bytes_from(buffer, part.at);
    match part.decoder.decode(unread, &mut trailers) {
        Ok(Decoded::Data(piece)) => {
            part.body.extend_from_slice(piece.of(unread))?;
            part.at += piece.end;
            Ok(None)
        }
        Ok(Decoded::NeedMore(len)) => {
            part.at += len;
            read_more(connection, buffer)?;
            Ok(None)
        }
        Ok(Decoded::End { len, .. }) => Ok(Some(bytes_from(unread, len).is_empty())),
        Err(_) => Err(ExchangeFault::BadMessage),
    }
}

// Reads the body of the answer whose head is at the front of the buffer.
#[tactic(auto, using(crate::proofs::BodyLemmas::begins_at, crate::proofs::CallLemmas::is_read))]
fn read_body<C: Connection>(
    alloc: Global,
    connection: &mut C,
    buffer: &mut Vec<u8>,
    start: Start,
) -> Result<Whole, ExchangeFault>
    requires head { HasAnswerHead buffer.old.items start }
    requires few { length buffer.old.items ≤ most_message }
    ensures ok { IfOk result (λ whole. (first : C) → HasRead C.Connection first connection.old buffer.old.items
        → ReadsAnswer C.Connection first connection.new start.status whole.body.items (start.stays && whole.is_last)) }
    ensures err { IfErr result (λ fault. (first : C) → HasRead C.Connection first connection.old buffer.old.items
        → ReadsNoAnswer C.Connection first connection.new fault) }
{
    let mut part = Part {
        decoder: Decoder::new(start.framing, &limits()),
        at: start.len,
        body: Vec::new(alloc),
    };
    'pieces: loop {
        if let Some(is_last) = read_piece(connection, buffer, start, &mut part)? {
            return Ok(Whole {
                body: part.body,
                is_last,
            });
        }
    }
}

/// Reads an answer, and nothing more once it is whole.
pub(crate) fn read_answer<C: Connection>(
    alloc: Global,
    connection: &mut C,
) -> Result<Answer, ExchangeFault>
    ensures ok { IfOk result (λ answer. ReadsAnswer C.Connection connection.old connection.new answer.status answer.body.items answer.keeps) }
    ensures err { IfErr result (ReadsNoAnswer C.Connection connection.old connection.new) }
{
    let mut buffer = Vec::new(alloc);
    let start = read_head(connection, &mut buffer)?;
    let whole = read_body(alloc, connection, &mut buffer, start)?;
    Ok(Answer {
        status: start.status,
        body: whole.body,
        keeps: start.stays && whole.is_last,
    })
}
