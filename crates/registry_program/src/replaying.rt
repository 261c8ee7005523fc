//! The command that replays a record.

ghost use Rattle.std.specs.Prelude.{◌≡◌, ◌≢◌, ◌⊎◌, codes};
ghost use Rattle.sqlite.specs.Files.{over_files};
ghost use Rattle.registry_commands.specs.Ends.{sunk};
ghost use Rattle.registry_commands.specs.RecordLines.{ahead};
ghost use Rattle.registry_commands.specs.Replayed.{connection_left};
ghost use Rattle.registry_program.specs.Outputs.{silent_ends};
ghost use Rattle.registry_program.specs.Replaying.{ReplaysFrom, ReplaysIn, ReplaysOver, ReplaysRecord};
ghost use Rattle.registry_program.specs.Stores.{Closes};

use crate::host::Host;
use crate::stores::{close_connection, close_registry, connect, open_registry};
use byte_streams::{Sink, Source};
use registry_commands::{ExitStatus, Unread, fail, replay, replay_on, take_founding, tell_stop};
use registry_rules::Founding;
use registry_store::Registry;
use sqlite::{Connection, FileStore};
use std::alloc::Global;

/// Replays the lines of a record that follow over the registry in a store, which must exist, and
/// returns the exit status.
fn replay_over<H: Host, R: Source, E: Sink>(
    alloc: Global,
    host: &mut H,
    store: &str,
    source: &mut R,
    unread: &mut Unread,
    errors: &mut E,
) -> ExitStatus
    ensures { (out : _) → ReplaysOver H.Host H.File.Disk R.Source source.old source.new unread.old host.old host.new store.now
        (silent_ends E.Sink out errors.old errors.new result) }
{
    let mut registry = match open_registry(alloc, host, store) {
        Ok(registry) => registry,
        Err(failure) => return fail(errors, failure),
    };
    let status = replay(alloc, source, unread, None, &mut registry, errors);
    close_registry(host, registry, errors, status)
}

/// Closes the store of the registry that a replay left, or of the connection in which there is none.
fn close_left<H: Host, E: Sink>(
    host: &mut H,
    left: Result<Registry<FileStore<H::File>>, Connection<FileStore<H::File>>>,
    errors: &mut E,
    status: ExitStatus,
) -> ExitStatus
    ensures { Closes H.Host H.File.Disk host.old host.new (connection_left over_files left) (sunk E.Sink errors.old) (sunk E.Sink errors.new) status result }
{
    match left {
        Ok(registry) => close_registry(host, registry, errors, status),
        Err(conn) => close_connection(host, conn, errors, status),
    }
}

/// Replays the lines that follow a founding in a store, which is made if there is none, and returns
/// the exit status.
fn replay_in<H: Host, R: Source, E: Sink>(
    alloc: Global,
    host: &mut H,
    store: &str,
    founding: &Founding,
    source: &mut R,
    unread: &mut Unread,
    errors: &mut E,
) -> ExitStatus
    ensures { (out : _) → ReplaysIn H.Host H.File.Disk R.Source founding.now source.old source.new unread.old host.old host.new store.now
        (silent_ends E.Sink out errors.old errors.new result) }
{
    let conn = match connect(alloc, host, store) {
        Ok(conn) => conn,
        Err(failure) => return fail(errors, failure),
    };
    let (status, left) = replay_on(alloc, source, unread, founding, conn, errors);
    close_left(host, left, errors, status)
}

/// Replays the record that a source gives in a store, and returns the exit status.
fn replay_source<H: Host, R: Source, E: Sink>(
    alloc: Global,
    host: &mut H,
    store: &str,
    source: &mut R,
    errors: &mut E,
) -> ExitStatus
    ensures { (out : _) → ReplaysFrom H.Host H.File.Disk R.Source source.old source.new host.old host.new store.now
        (silent_ends E.Sink out errors.old errors.new result) }
{
    let mut unread = Unread::new(alloc);
    match take_founding(alloc, source, &mut unread) {
        Ok(Some(founding)) => {
            replay_in(alloc, host, store, &founding, source, &mut unread, errors)
        }
        Ok(None) => replay_over(alloc, host, store, source, &mut unread, errors),
        Err(stop) => tell_stop(alloc, errors, stop),
    }
}

/// Replays the record in a file, or in the standard input if the path is `-`, in a store, and
/// returns the exit status. Opens the record first, and the store once its first line is read.
pub fn run_replay<H: Host, R: Source, E: Sink>(
    alloc: Global,
    host: &mut H,
    store: &str,
    file: &str,
    input: &mut R,
    errors: &mut E,
) -> ExitStatus
    ensures { (out : _) → ReplaysRecord H.Host H.File.Disk H.Input.Source R.Source input.old input.new host.old host.new store.now file.now
        (silent_ends E.Sink out errors.old errors.new result) }
{
    if file == "-" {
        return replay_source(alloc, host, store, input, errors);
    }
    match host.open_input(file, u64::MAX) {
        Ok(mut source) => replay_source(alloc, host, store, &mut source, errors),
        Err(failure) => fail(errors, failure),
    }
}
