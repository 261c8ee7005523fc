//! Reads a source line by line, in pieces.

ghost use Rattle.std.specs.Prelude.{◌≡◌, ◌==◌, ◌<◌, ◌≤◌, ◌^◌, ◌-◌, ◌++◌, ℕ, List, [], length, position, take, IfOk, OnOk, Err, None};
ghost use Rattle.std.specs.Io.KnownBytes.{Consumes, IsAtEnd, Keeps};
ghost use Rattle.byte_streams.specs.Streams.{FailsOnce};
ghost use Rattle.registry_commands.specs.RecordLines.{FindsLine, HasFailedOrIsFull, HasReadTo, ahead, last_line, of_length, unread_of};

use crate::input::{ReadAllFault, take_more};
use crate::lines::line_feed;
use crate::unread::Unread;
use byte_streams::Source;
use std::alloc::Global;

/// The most bytes that a line may have, without its line feed.
const MOST: usize = 4_194_304;

/// What was found at the next line.
#[derive(Clone, Copy, Debug, PartialEq, Eq)]
pub enum Found {
    /// There is no further line.
    End,
    /// A line of so many bytes, without its line feed, is at the front.
    Line(usize),
    /// A line of more than 4,194,304 bytes is.
    TooLong,
}

/// Reads the next bytes of the source, and returns their number, which is 0 only at the end.
fn fill<R: Source>(
    alloc: Global,
    source: &mut R,
    unread: &mut Unread,
) -> Result<usize, ReadAllFault>
    ensures ok { IfOk result (λ n. (more : List ℕ) × (unread_of unread.new ≡ unread_of unread.old ++ more) × (length more ≡ n)
        × Consumes (R.remaining source.old) (R.remaining source.new) more × (n ≡ 0 → IsAtEnd (R.remaining source.new))
        × (R.failures source.new ≡ R.failures source.old)) }
    ensures file { result ≡ Err ReadAllFault.File → FailsOnce (R.failures source.old) (R.failures source.new) }
    ensures same { result ≡ Err ReadAllFault.File → (unread_of unread.new ≡ unread_of unread.old) × Keeps (R.remaining source.old) (R.remaining source.new) }
    ensures memory { result ≡ Err ReadAllFault.NoMemory → R.failures source.new ≡ R.failures source.old }
    ensures lines { unread.new.lines ≡ unread.old.lines }
{
    unread.forget(alloc)?;
    take_more(source, &mut unread.bytes)
}

/// Returns what is found if the next line has so many bytes.
fn of_length(size: usize) -> Found
    ensures { result ≡ of_length size }
{
    if size <= MOST {
        Found::Line(size)
    } else {
        Found::TooLong
    }
}

/// Returns the index of the first line feed. The first `searched` bytes have none.
fn line_feed_after(bytes: &[u8], searched: usize) -> Option<usize>
    requires within { searched ≤ length bytes.now }
    requires none { position (λ b. b == 10) (take searched bytes.now) ≡ None }
    ensures { result ≡ position (λ b. b == 10) bytes.now }
{
    match line_feed(&bytes[searched..]) {
        Some(more) => Some(searched + more),
        None => None,
    }
}

/// Finds the next line of the source, and passes nothing. Reads only while what was read is a part
/// of the line, in pieces, and searches each byte once.
///
/// # Errors
///
/// `File` if the source failed, or 2^64 - 1 lines were passed. `NoMemory` if out of memory.
pub(crate) fn find_line<R: Source>(
    alloc: Global,
    source: &mut R,
    unread: &mut Unread,
) -> Result<Found, ReadAllFault>
    ensures found { IfOk result (FindsLine (ahead (R.remaining source.old) unread.old) (R.remaining source.new) unread.new) }
    ensures same { OnOk result (Consumes (ahead (R.remaining source.old) unread.old) (ahead (R.remaining source.new) unread.new) []) }
    ensures lines { unread.new.lines ≡ unread.old.lines }
    ensures countable { OnOk result (unread.old.lines < 2 ^ 64 - 1) }
    ensures kept { OnOk result (R.failures source.new ≡ R.failures source.old) }
    ensures file { result ≡ Err ReadAllFault.File → HasFailedOrIsFull (R.failures source.old) (R.failures source.new) unread.old }
    ensures waits { result ≡ Err ReadAllFault.File → unread.old.lines < 2 ^ 64 - 1
        → HasReadTo (ahead (R.remaining source.old) unread.old) (ahead (R.remaining source.new) unread.new) [] unread.new }
    ensures memory { result ≡ Err ReadAllFault.NoMemory → R.failures source.new ≡ R.failures source.old }
{
    if unread.lines == u64::MAX {
        return Err(ReadAllFault::File);
    }
    let mut searched = 0;
    loop {
        match line_feed_after(unread.rest(), searched) {
            Some(end) => return Ok(of_length(end)),
            None => {}
        }
        searched = unread.rest().len();
        if searched > MOST {
            return Ok(Found::TooLong);
        }
        if fill(alloc, source, unread)? == 0 {
            return Ok(last_line(searched));
        }
    }
}

/// Returns what is found if these are the last bytes, without a line feed.
fn last_line(size: usize) -> Found
    ensures { result ≡ last_line size }
{
    if size == 0 {
        Found::End
    } else {
        Found::Line(size)
    }
}
