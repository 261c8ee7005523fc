//! Acts on request lines and opens the store again, as two runs of the program do.

ghost use Rattle.std.specs.Prelude.{ℕ, List, MatchResult};
ghost use Rattle.byte_streams.specs.Streams.{MayGive};
ghost use Rattle.registry_commands.specs.Ends.{ends_of};
ghost use Rattle.registry_commands.specs.Lines.{requests_in};
ghost use Rattle.registry_reopening.specs.Applied.{EndsClosing, IsAppliedOver, IsReopenedAfterLines};
ghost use Rattle.registry_reopening.specs.Opening.{ComesAfter, LeavesFilesAfter};

use crate::crashing::crash_and_open;
use crate::opening::{Unopened, open_files};
use byte_streams::{Sink, Source};
use registry_commands::{ExitStatus, apply_lines, close_store};
use registry_store::Registry;
use sqlite::{FileStore, Options};
use sqlite_disk::{Crash, Disk};
use std::alloc::Global;

/// Acts on request lines as `apply_lines` does, ends the use of the store as `close_store` does,
/// and opens its files again.
///
/// Whatever the status, the opened registry has acted on a prefix of the requests: on every request
/// whose reply line is written, and on at most one more. Returns the files in place of the registry,
/// as `open_files` does, if it is not opened: also if closing fails, or if a disk is not usable.
pub fn apply_and_open<R: Source, D: Disk + Drop, W: Sink, E: Sink>(
    alloc: Global,
    source: &mut R,
    answered: u64,
    first: Registry<FileStore<D>>,
    output: &mut W,
    errors: &mut E,
    options: Options,
) -> (ExitStatus, Result<Registry<FileStore<D>>, Unopened<D>>)
    ensures { (bytes : List ℕ) × MayGive (R.remaining source.old) bytes
        × (acted : ExitStatus) × (middle : E)
        × (over : IsAppliedOver (R.failures source.old) (R.failures source.new) bytes first answered (ends_of W.Sink E.Sink output.old output.new errors.old middle acted))
        × EndsClosing E.Sink acted middle errors.new result.0
        × MatchResult result.1
        (λ it. IsReopenedAfterLines first (requests_in bytes) answered (ends_of W.Sink E.Sink output.old output.new errors.old errors.new result.0) it × ComesAfter first it)
        (LeavesFilesAfter D.Disk over.last) }
{
    let mut registry = first;
    let status = apply_lines(alloc, source, answered, &mut registry, output, errors);
    let (closed, files) = close_store(registry.into_connection(), errors, status);
    if closed != status {
        return (closed, Err(Unopened::Store(files)));
    }
    if !files.may_be_used() {
        return (status, Err(Unopened::Registry(files)));
    }
    (status, open_files(alloc, files, options))
}

/// Does the same, but crashes both disks instead of closing the store.
pub fn apply_and_crash<R: Source, D: Crash + Drop, W: Sink, E: Sink>(
    alloc: Global,
    source: &mut R,
    answered: u64,
    first: Registry<FileStore<D>>,
    output: &mut W,
    errors: &mut E,
    options: Options,
) -> (ExitStatus, Result<Registry<FileStore<D>>, Unopened<D>>)
    ensures { (bytes : List ℕ) × MayGive (R.remaining source.old) bytes
        × (over : IsAppliedOver (R.failures source.old) (R.failures source.new) bytes first answered (ends_of W.Sink E.Sink output.old output.new errors.old errors.new result.0))
        × MatchResult result.1
        (λ it. IsReopenedAfterLines first (requests_in bytes) answered (ends_of W.Sink E.Sink output.old output.new errors.old errors.new result.0) it × ComesAfter first it)
        (LeavesFilesAfter D.Disk over.last) }
{
    let mut registry = first;
    let status = apply_lines(alloc, source, answered, &mut registry, output, errors);
    (status, crash_and_open(alloc, registry, options))
}
