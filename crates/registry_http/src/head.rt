//! Reads the head of a message.

ghost use Rattle.std.specs.Prelude.{Err, ◌≡◌, ◌≤◌, ◌<◌, ℕ, List, [], ◌++◌, length, drop, IfOk, OnOk};
ghost use Rattle.std.specs.Io.KnownBytes.{Consumes, IsAtEnd, Keeps};
ghost use Rattle.httparse.specs.Spans.{IsRequestAt, IsRequestWithin};
ghost use Rattle.httparse.specs.Grammar.{RequestHead};
ghost use Rattle.byte_streams.specs.Streams.{MayGive, FailsOnce};
ghost use Rattle.registry_http.specs.Heads.{HasHead, HasNoHead};
ghost use Rattle.registry_http.specs.HeadEnds.{IfWhole, OnMissing};
ghost use Rattle.registry_http.specs.Incomplete.{FailsAfter, IsIncomplete};

use crate::fault::StreamFault;
use byte_streams::{Broken, Source};
use httparse::Status;
use httparse::spans::{HeaderSpan, RequestSpans, parse_request};

/// The limit in bytes of a head.
pub(crate) const MOST_HEAD: usize = 8_192;

/// The result of reading a head.
#[derive(Clone, Copy, Debug)]
pub(crate) enum HeadEnd {
    /// The bytes read begin with a head.
    Whole(RequestSpans),
    /// The message has no valid head, whatever follows.
    Missing,
}

/// Appends at most `most` further bytes of the source to the buffer, and returns their number,
/// which is 0 only at the end.
pub(crate) fn take_at_most<R: Source>(
    source: &mut R,
    buffer: &mut Vec<u8>,
    most: usize,
) -> Result<usize, StreamFault>
    requires { 0 < most }
    ensures ok { IfOk result (λ n. (more : List ℕ) × (buffer.new.items ≡ buffer.old.items ++ more) × (length more ≡ n) × (n ≤ most)
        × Consumes (R.remaining source.old) (R.remaining source.new) more × (n ≡ 0 → IsAtEnd (R.remaining source.new))
        × (R.failures source.new ≡ R.failures source.old)) }
    ensures short { result ≡ Err StreamFault.NoMemory → R.failures source.new ≡ R.failures source.old }
    ensures broken { result ≡ Err StreamFault.Broken → FailsOnce (R.failures source.old) (R.failures source.new) × Keeps (R.remaining source.old) (R.remaining source.new) }
{
    let mut chunk = [0u8; 2048];
    let room = most.min(chunk.len());
    match source.take(&mut chunk[..room]) {
        Ok(count) => match buffer.extend_from_slice(&chunk[..count]) {
            Ok(()) => Ok(count),
            Err(_) => Err(StreamFault::NoMemory),
        },
        Err(Broken) => Err(StreamFault::Broken),
    }
}

/// Reads until the buffer has a complete head, of at most 64 fields and 8,192 bytes, or cannot have
/// one.
pub(crate) fn read_head<R: Source>(
    source: &mut R,
    buffer: &mut Vec<u8>,
    spans: &mut [HeaderSpan],
) -> Result<HeadEnd, StreamFault>
    requires fresh { buffer.old.items ≡ [] }
    requires room { length spans.old ≡ 64 }
    ensures whole { IfOk result (λ end. IfWhole end (λ r. (h : RequestHead)
        × HasHead buffer.new.items h (drop r.len buffer.new.items) × IsRequestAt buffer.new.items spans.new r h × IsRequestWithin buffer.new.items spans.new r
        × Consumes (R.remaining source.old) (R.remaining source.new) buffer.new.items)) }
    ensures missing { IfOk result (λ end. OnMissing end ((bytes : List ℕ) × MayGive (R.remaining source.old) bytes × HasNoHead bytes)) }
    ensures kept { OnOk result (R.failures source.new ≡ R.failures source.old) }
    ensures short { result ≡ Err StreamFault.NoMemory → R.failures source.new ≡ R.failures source.old }
    ensures broken { result ≡ Err StreamFault.Broken → FailsAfter (R.remaining source.old) (R.remaining source.new) (R.failures source.old) (R.failures source.new) IsIncomplete }
{
    while buffer.len() < MOST_HEAD {
        let count = take_at_most(source, buffer, MOST_HEAD - buffer.len())?;
        if count == 0 {
            return Ok(HeadEnd::Missing);
        }
        match parse_request(buffer, spans) {
            Ok(Status::Complete(head)) => return Ok(HeadEnd::Whole(head)),
            Ok(Status::Partial) => {}
            Err(_) => return Ok(HeadEnd::Missing),
        }
    }
    Ok(HeadEnd::Missing)
}
