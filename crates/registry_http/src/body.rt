//! Reads the body of a message, after its head.

ghost use Rattle.std.specs.Prelude.{Err, ◌≡◌, ◌≤◌, ◌<◌, ◌+◌, ◌++◌, [], true, false, ℕ, List, length, drop, nat_le, IfOk, OnOk};
ghost use Rattle.std.specs.Io.KnownBytes.{Consumes, IsAtEnd, Keeps};
ghost use Rattle.byte_streams.specs.Streams.{FailsOnce, MayGive};
ghost use Rattle.usbids_text.specs.Readers.{WasFed};
ghost use Rattle.registry_http.specs.Bodies.{IsBuffered, IsFed};
ghost use Rattle.registry_http.specs.Incomplete.{FailsAfter};

use crate::fault::StreamFault;
use crate::head::{MOST_HEAD, take_at_most};
use byte_streams::{Broken, Source};
use usbids_text::Reader;

/// Reads until the buffer has `wanted` bytes, and returns whether it has them. If not, the source
/// is at its end. Does not read if the buffer has them already.
fn read_up_to<R: Source>(
    source: &mut R,
    buffer: &mut Vec<u8>,
    wanted: usize,
) -> Result<bool, StreamFault>
    ensures ok { IfOk result (λ whole. (more : List ℕ) × (buffer.new.items ≡ buffer.old.items ++ more)
        × Consumes (R.remaining source.old) (R.remaining source.new) more
        × (whole ≡ nat_le wanted (length buffer.new.items)) × (whole ≡ false → IsAtEnd (R.remaining source.new))) }
    ensures kept { OnOk result (R.failures source.new ≡ R.failures source.old) }
    ensures short { result ≡ Err StreamFault.NoMemory → R.failures source.new ≡ R.failures source.old }
    ensures broken { result ≡ Err StreamFault.Broken → FailsAfter (R.remaining source.old) (R.remaining source.new) (R.failures source.old) (R.failures source.new) (λ more. length (buffer.old.items ++ more) < wanted) }
{
    while buffer.len() < wanted {
        let count = take_at_most(source, buffer, wanted - buffer.len())?;
        if count == 0 {
            return Ok(false);
        }
    }
    Ok(true)
}

/// Reads the rest of a body of `count` bytes that begins at `start` in the buffer, and returns
/// whether the body is complete.
pub(crate) fn read_body<R: Source>(
    source: &mut R,
    buffer: &mut Vec<u8>,
    start: usize,
    count: usize,
) -> Result<bool, StreamFault>
    requires within { start ≤ length buffer.old.items }
    requires front { start ≤ MOST_HEAD }
    requires small { count < 4294967296 }
    ensures ok { IfOk result (λ whole. (rest : List ℕ) × MayGive (R.remaining source.old) rest
        × IsBuffered whole buffer.new.items start count (drop start buffer.old.items ++ rest)) }
    ensures kept { OnOk result (R.failures source.new ≡ R.failures source.old) }
    ensures short { result ≡ Err StreamFault.NoMemory → R.failures source.new ≡ R.failures source.old }
    ensures broken { result ≡ Err StreamFault.Broken → FailsAfter (R.remaining source.old) (R.remaining source.new) (R.failures source.old) (R.failures source.new) (λ more. length (drop start buffer.old.items ++ more) < count) }
{
    read_up_to(source, buffer, start.saturating_add(count))
}

/// Feeds the reader at most `most` further bytes of the source, and returns their number, which is
/// 0 only at the end.
fn feed_more<R: Source>(
    source: &mut R,
    reader: &mut Reader,
    most: usize,
) -> Result<usize, StreamFault>
    requires { 0 < most }
    ensures ok { IfOk result (λ n. (more : List ℕ) × (length more ≡ n) × (n ≤ most)
        × Consumes (R.remaining source.old) (R.remaining source.new) more × (n ≡ 0 → IsAtEnd (R.remaining source.new))
        × ((t : List ℕ) → WasFed reader.old t → WasFed reader.new (t ++ more))) }
    ensures kept { OnOk result (R.failures source.new ≡ R.failures source.old) }
    ensures short { result ≡ Err StreamFault.NoMemory → R.failures source.new ≡ R.failures source.old }
    ensures broken { result ≡ Err StreamFault.Broken → FailsOnce (R.failures source.old) (R.failures source.new) × Keeps (R.remaining source.old) (R.remaining source.new) }
{
    let mut chunk = [0u8; 4096];
    let room = most.min(chunk.len());
    match source.take(&mut chunk[..room]) {
        Ok(count) => {
            let _ = reader.feed(&chunk[..count]);
            Ok(count)
        }
        Err(Broken) => Err(StreamFault::Broken),
    }
}

/// Feeds the reader the next `wanted` bytes of the source, and returns whether all came. If not,
/// the source is at its end.
fn feed_from<R: Source>(
    source: &mut R,
    reader: &mut Reader,
    wanted: usize,
) -> Result<bool, StreamFault>
    ensures ok { IfOk result (λ whole. (more : List ℕ) × Consumes (R.remaining source.old) (R.remaining source.new) more
        × (length more ≤ wanted) × (whole ≡ nat_le wanted (length more)) × (whole ≡ false → IsAtEnd (R.remaining source.new))
        × ((t : List ℕ) → WasFed reader.old t → WasFed reader.new (t ++ more))) }
    ensures kept { OnOk result (R.failures source.new ≡ R.failures source.old) }
    ensures short { result ≡ Err StreamFault.NoMemory → R.failures source.new ≡ R.failures source.old }
    ensures broken { result ≡ Err StreamFault.Broken → FailsAfter (R.remaining source.old) (R.remaining source.new) (R.failures source.old) (R.failures source.new) (λ more. length more < wanted) }
{
    let mut left = wanted;
    while left > 0 {
        let count = feed_more(source, reader, left)?;
        if count == 0 {
            return Ok(false);
        }
        left -= count;
    }
    Ok(true)
}

/// Feeds the reader a body of `count` bytes, which begins with those in `come`, and returns whether
/// the body is complete.
pub(crate) fn feed_body<R: Source>(
    source: &mut R,
    reader: &mut Reader,
    come: &[u8],
    count: usize,
) -> Result<bool, StreamFault>
    requires { WasFed reader.old [] }
    ensures ok { IfOk result (λ whole. (rest : List ℕ) × MayGive (R.remaining source.old) rest × IsFed whole reader.new count (come.now ++ rest)) }
    ensures kept { OnOk result (R.failures source.new ≡ R.failures source.old) }
    ensures short { result ≡ Err StreamFault.NoMemory → R.failures source.new ≡ R.failures source.old }
    ensures broken { result ≡ Err StreamFault.Broken → FailsAfter (R.remaining source.old) (R.remaining source.new) (R.failures source.old) (R.failures source.new) (λ more. length (come.now ++ more) < count) }
{
    let first = come.len().min(count);
    let _ = reader.feed(&come[..first]);
    feed_from(source, reader, count - first)
}
