//! Replays a record over a registry: its founding, and then its accepted requests.

ghost use Rattle.std.specs.Prelude.{◌≡◌, ◌≢◌, ◌⊎◌, IfErr, IfOk, Ok, Err, true, false, option_copied};
ghost use Rattle.sqlite.specs.Held.{state};
ghost use Rattle.registry_schema.specs.Meta.{has_meta_table};
ghost use Rattle.registry_wire.specs.Record.{founding_line};
ghost use Rattle.registry_commands.specs.Ends.{output_of};
ghost use Rattle.registry_commands.specs.RecordLines.{ahead};
ghost use Rattle.registry_commands.specs.Replayed.{Begins, CommitsIfOlder, HasAllLines, HasReadBlank, IsChecked, IsFollowedFrom, IsFoundOrOpen, IsLeftByOpening, IsLeftFound, IsOpen, IsReplayed, IsReplayedOn};

use crate::entries::{Entry, LineRefusal, peek};
use crate::following::{ReplayStop, follow_lines};
use crate::messages::{Failure, fail, failure_of};
use crate::status::ExitStatus;
use crate::stops::tell_stop;
use crate::unread::Unread;
use byte_streams::{Sink, Source};
use registry_rules::Founding;
use registry_store::{Fault, Registry};
use registry_wire::founding_line;
use sqlite::{Alter, Connection};
use std::alloc::Global;
use usbnum_core::NoMemory;

/// Reads the founding in the first line that is not blank, and passes the lines up to it. Returns
/// none if that line is an accepted request or if there is none, and then passes the blank lines
/// alone. Reads no further than that line and the piece that it ends in.
///
/// # Errors
///
/// `Line` if it is no line of a record. `Failure` if the source failed, or out of memory. After
/// either neither the source nor `unread` may be used any more.
pub fn take_founding<R: Source>(
    alloc: Global,
    source: &mut R,
    unread: &mut Unread,
) -> Result<Option<Founding>, ReplayStop>
    ensures begins { Begins (ahead (R.remaining source.old) unread.old) (ahead (R.remaining source.new) unread.new) unread.old.lines unread.new.lines
        (R.failures source.old) (R.failures source.new) result }
    ensures kept { result ≢ Err (ReplayStop.Failure Failure.File) → R.failures source.new ≡ R.failures source.old }
    ensures waits { result ≡ Err (ReplayStop.Failure Failure.File) → HasAllLines unread.old.lines (ahead (R.remaining source.old) unread.old) unread.new
        ⊎ HasReadBlank (ahead (R.remaining source.old) unread.old) (ahead (R.remaining source.new) unread.new) unread.new }
{
    loop {
        let (entry, size) = peek(alloc, source, unread)?;
        match entry {
            Entry::Blank => unread.pass(size),
            Entry::Founding(founding) => {
                unread.pass(size);
                return Ok(Some(founding));
            }
            Entry::Bad(refusal) => return Err(ReplayStop::Line(unread.lines() + 1, refusal)),
            Entry::Accepted(_, _) => return Ok(None),
            Entry::End => return Ok(None),
        }
    }
}

/// Checks that the registry was founded like this. The number is that of the founding's line.
///
/// # Errors
///
/// `Line` if it was founded otherwise. `Failure` after a failure of the registry or of memory.
fn check_founding<S: Alter>(
    alloc: Global,
    number: u64,
    founding: &Founding,
    registry: &mut Registry<S>,
) -> Result<(), ReplayStop>
    ensures { IsChecked registry.old registry.new number founding.now result }
{
    let first = registry.first_founding()?;
    if has_same_line(alloc, &first, founding)? {
        Ok(())
    } else {
        Err(ReplayStop::Line(number, LineRefusal::OtherFounding))
    }
}

/// Returns whether two foundings have the same line, and so are the same.
pub(crate) fn has_same_line(alloc: Global, a: &Founding, b: &Founding) -> Result<bool, NoMemory>
    ensures same { result ≡ Ok true → founding_line a.now ≡ founding_line b.now }
    ensures other { result ≡ Ok false → founding_line a.now ≢ founding_line b.now }
{
    let a = founding_line(alloc, a)?;
    let b = founding_line(alloc, b)?;
    Ok(a.as_str() == b.as_str())
}

/// Checks the founding, if one is given, and acts on the lines that follow.
fn follow_record<R: Source, S: Alter>(
    alloc: Global,
    source: &mut R,
    unread: &mut Unread,
    founding: Option<&Founding>,
    registry: &mut Registry<S>,
) -> Result<(), ReplayStop>
    ensures { IsFollowedFrom (option_copied founding.entry) (ahead (R.remaining source.old) unread.old) (ahead (R.remaining source.new) unread.new) unread.new unread.old.lines (R.failures source.old) (R.failures source.new)
        registry.old registry.new result }
{
    match founding {
        None => follow_lines(alloc, source, unread, registry),
        Some(founding) => {
            check_founding(alloc, unread.lines(), founding, registry)?;
            follow_lines(alloc, source, unread, registry)
        }
    }
}

/// Replays the lines that follow over a registry: acts on their accepted requests one after another,
/// and compares each reply with the one in its line. If a founding is given, which is the last line
/// that was passed, the registry must have been founded like this.
///
/// The status is `Success` if all requests got the replies that their lines say. It is `Rejected`
/// at the first line that is neither blank nor an accepted request, is too long, or gets another
/// reply, and if the registry was founded otherwise: the error output names the line, and says why.
/// The lines before it were acted on, and the line itself if its request was accepted with another
/// reply. The status is `Failed` after a failure of the source, the registry or memory, also of
/// memory for that text, which the error output names. After that run it again over the same
/// record: what was accepted is not acted on again. After each status but `Success` neither the
/// source nor `unread` may be used any more.
pub fn replay<R: Source, S: Alter, E: Sink>(
    alloc: Global,
    source: &mut R,
    unread: &mut Unread,
    founding: Option<&Founding>,
    registry: &mut Registry<S>,
    errors: &mut E,
) -> ExitStatus
    ensures { IsReplayed (option_copied founding.entry) (ahead (R.remaining source.old) unread.old) (ahead (R.remaining source.new) unread.new) unread.new unread.old.lines (R.failures source.old) (R.failures source.new)
        registry.old registry.new (output_of E.Sink errors.old errors.new) result }
{
    match follow_record(alloc, source, unread, founding, registry) {
        Ok(()) => ExitStatus::Success,
        Err(stop) => tell_stop(alloc, errors, stop),
    }
}

/// Opens the registry that a connection shows.
fn open_there<S: Alter>(
    alloc: Global,
    conn: Connection<S>,
) -> Result<Registry<S>, (Failure, Connection<S>)>
    ensures ok { IfOk result (IsOpen S.Store conn) }
    ensures err { IfErr result (λ e. IsLeftByOpening S.Store (CommitsIfOlder (state S.Store conn)) conn e.0 e.1) }
{
    match Registry::open(alloc, conn) {
        Ok(registry) => Ok(registry),
        Err((fault, conn)) => Err((failure_of(fault), conn)),
    }
}

/// Founds a registry on a connection, or opens the one that is there, whatever its founding. It is then
/// new: not poisoned, and without a transaction.
///
/// # Errors
///
/// `Store` if the store refuses or fails, or a transaction is open, `Memory` if out of memory, and
/// `Foreign` if the store holds another database or the rows of no registry. The connection comes back.
pub fn found_or_open<S: Alter>(
    alloc: Global,
    conn: Connection<S>,
    founding: &Founding,
) -> Result<Registry<S>, (Failure, Connection<S>)>
    ensures ok { IfOk result (IsFoundOrOpen S.Store conn founding.now) }
    ensures err { IfErr result (λ e. IsLeftFound S.Store conn founding.now e.0 e.1) }
    ensures named { IfErr result (λ e. e.0 ≡ Failure.Foreign → has_meta_table (state S.Store conn).now.schema ≡ true) }
{
    match Registry::found(alloc, conn, founding) {
        Ok(registry) => Ok(registry),
        Err((fault, conn)) => match fault {
            Fault::Taken => open_there(alloc, conn),
            _ => Err((failure_of(fault), conn)),
        },
    }
}

/// Replays a record that begins with this founding over a connection: founds the registry if there
/// is none. Returns the exit status, as `replay` does, and the registry.
///
/// The status is also `Failed` if a registry could neither be founded nor opened, and then the error
/// output says whether the store failed, memory ran out, or the store holds no registry. It then
/// returns the connection in place of the registry.
pub fn replay_on<R: Source, S: Alter, E: Sink>(
    alloc: Global,
    source: &mut R,
    unread: &mut Unread,
    founding: &Founding,
    conn: Connection<S>,
    errors: &mut E,
) -> (ExitStatus, Result<Registry<S>, Connection<S>>)
    ensures { IsReplayedOn S.Store founding.now (ahead (R.remaining source.old) unread.old) (ahead (R.remaining source.new) unread.new) unread.new unread.old.lines (R.failures source.old) (R.failures source.new)
        conn result.1 (output_of E.Sink errors.old errors.new) result.0 }
{
    match found_or_open(alloc, conn, founding) {
        Ok(mut registry) => {
            let status = replay(alloc, source, unread, Some(founding), &mut registry, errors);
            (status, Ok(registry))
        }
        Err((failure, conn)) => (fail(errors, failure), Err(conn)),
    }
}
