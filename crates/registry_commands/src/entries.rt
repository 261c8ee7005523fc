//! What the lines of a record say.

ghost use Rattle.std.specs.Prelude.{◌≡◌, ◌<◌, ◌≤◌, ◌-◌, ◌^◌, [], length, IfOk, OnErr, OnOk, Err};
ghost use Rattle.std.specs.Io.KnownBytes.{Consumes};
ghost use Rattle.registry_commands.specs.Entries.{Peeks, TakesEntry, entry_in, is_followed};
ghost use Rattle.registry_commands.specs.RecordLines.{HasFailedOrIsFull, HasReadTo, ahead, most_line};

use crate::input::ReadAllFault;
use crate::lines::is_blank;
use crate::record_lines::{Found, find_line};
use crate::unread::Unread;
use byte_streams::Source;
use registry_rules::{Accepted, Founding, Rejection};
use registry_wire::{RecordLine, WireRefusal, record_line};
use std::alloc::Global;
use usbnum_core::{Digest, NoMemory};

/// Why a line ends a replay before its request is acted on.
#[derive(Clone, Copy, Debug, PartialEq, Eq)]
pub enum LineRefusal {
    /// It has more than 4,194,304 bytes.
    TooLong,
    /// It is neither a founding nor an accepted request.
    NoEntry(WireRefusal),
    /// It is a founding where an accepted request was to come.
    LateFounding,
    /// It is a founding, and the registry was founded otherwise.
    OtherFounding,
}

/// What a line of a record says.
#[derive(Debug, Drop)]
pub enum Entry {
    /// There is no further line.
    End,
    /// Nothing: it is blank.
    Blank,
    /// The founding of the registry.
    Founding(Founding),
    /// An accepted request with its reply, and the digest of the record with this line, if the line has it.
    Accepted(Accepted, Option<Digest>),
    /// It is no line of a record.
    Bad(LineRefusal),
}

/// Reads what a line says.
fn entry_of(alloc: Global, line: &[u8]) -> Result<Entry, NoMemory>
    requires short { length line.now ≤ most_line }
    ensures { IfOk result (λ entry. entry_in line.now ≡ entry) }
{
    if is_blank(line) {
        return Ok(Entry::Blank);
    }
    match record_line(alloc, line) {
        Ok(RecordLine::Founding(founding)) => Ok(Entry::Founding(founding)),
        Ok(RecordLine::Accepted(accepted, digest)) => Ok(Entry::Accepted(accepted, digest)),
        Err(Rejection::Refused(refusal)) => Ok(Entry::Bad(LineRefusal::NoEntry(refusal))),
        Err(Rejection::NoMemory) => Err(NoMemory),
    }
}

/// Reads what the next line says, and returns it with the size of the line. Passes nothing.
///
/// # Errors
///
/// `File` if the source failed, or 2^64 - 1 lines were passed. `NoMemory` if out of memory.
pub(crate) fn peek<R: Source>(
    alloc: Global,
    source: &mut R,
    unread: &mut Unread,
) -> Result<(Entry, usize), ReadAllFault>
    ensures same { OnOk result (Consumes (ahead (R.remaining source.old) unread.old) (ahead (R.remaining source.new) unread.new) []) }
    ensures found { IfOk result (λ next. Peeks (ahead (R.remaining source.old) unread.old) (R.remaining source.new) unread.new next.0 next.1) }
    ensures lines { unread.new.lines ≡ unread.old.lines }
    ensures countable { OnOk result (unread.old.lines < 2 ^ 64 - 1) }
    ensures kept { OnOk result (R.failures source.new ≡ R.failures source.old) }
    ensures file { result ≡ Err ReadAllFault.File → HasFailedOrIsFull (R.failures source.old) (R.failures source.new) unread.old }
    ensures waits { result ≡ Err ReadAllFault.File → unread.old.lines < 2 ^ 64 - 1
        → HasReadTo (ahead (R.remaining source.old) unread.old) (ahead (R.remaining source.new) unread.new) [] unread.new }
    ensures memory { result ≡ Err ReadAllFault.NoMemory → R.failures source.new ≡ R.failures source.old }
{
    match find_line(alloc, source, unread)? {
        Found::End => Ok((Entry::End, 0)),
        Found::TooLong => Ok((Entry::Bad(LineRefusal::TooLong), 0)),
        Found::Line(size) => {
            let entry = entry_of(alloc, &unread.rest()[..size])?;
            Ok((entry, size))
        }
    }
}

/// Returns whether a line that says this is blank or an accepted request.
fn is_followed(entry: &Entry) -> bool
    ensures { result ≡ is_followed entry.now }
{
    matches!(entry, Entry::Blank | Entry::Accepted(_, _))
}

/// Reads what the next line says. Passes it if it is blank or an accepted request.
///
/// # Errors
///
/// As `peek`.
pub(crate) fn next_entry<R: Source>(
    alloc: Global,
    source: &mut R,
    unread: &mut Unread,
) -> Result<Entry, ReadAllFault>
    ensures taken { IfOk result (λ entry. TakesEntry (ahead (R.remaining source.old) unread.old) (ahead (R.remaining source.new) unread.new)
        unread.old.lines unread.new.lines entry) }
    ensures end { IfOk result (λ entry. entry ≡ Entry.End → Consumes (ahead (R.remaining source.old) unread.old) (ahead (R.remaining source.new) unread.new) []) }
    ensures lines { OnErr result (unread.new.lines ≡ unread.old.lines) }
    ensures countable { OnOk result (unread.old.lines < 2 ^ 64 - 1) }
    ensures kept { OnOk result (R.failures source.new ≡ R.failures source.old) }
    ensures file { result ≡ Err ReadAllFault.File → HasFailedOrIsFull (R.failures source.old) (R.failures source.new) unread.old }
    ensures waits { result ≡ Err ReadAllFault.File → unread.old.lines < 2 ^ 64 - 1
        → HasReadTo (ahead (R.remaining source.old) unread.old) (ahead (R.remaining source.new) unread.new) [] unread.new }
    ensures memory { result ≡ Err ReadAllFault.NoMemory → R.failures source.new ≡ R.failures source.old }
{
    let (entry, size) = peek(alloc, source, unread)?;
    if is_followed(&entry) {
        unread.pass(size);
    }
    Ok(entry)
}
