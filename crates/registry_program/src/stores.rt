//! Opens the store at a path of the machine, and closes it.

ghost use Rattle.std.specs.Prelude.{IfOk, IfErr};
ghost use Rattle.registry_store.specs.Promise.{connection_of};
ghost use Rattle.registry_commands.specs.Ends.{sunk};
ghost use Rattle.registry_program.specs.Stores.{Closes, IsConnected, IsMissed, IsUnconnected, OpensRegistry};

use crate::host::Host;
use crate::opening::{connect_to, open_files};
use byte_streams::Sink;
use registry_commands::{ExitStatus, Failure, close_store};
use registry_store::Registry;
use sqlite::{Connection, FileStore};
use std::alloc::Global;

/// Opens the registry of the store at a path, which must exist.
///
/// # Errors
///
/// `File` if there is no store, or it cannot be looked for; otherwise the failure of opening its
/// files or the registry.
pub fn open_registry<H: Host>(
    alloc: Global,
    host: &mut H,
    path: &str,
) -> Result<Registry<FileStore<H::File>>, Failure>
    ensures ok { IfOk result (OpensRegistry H.Host H.File.Disk host.old host.new path.now) }
    ensures err { IfErr result (IsMissed H.Host H.File.Disk host.old host.new path.now) }
{
    let (files, options) = match host.open_store(path, false) {
        Ok(store) => store,
        Err(failure) => return Err(failure),
    };
    match open_files(alloc, files, options) {
        Ok(registry) => Ok(registry),
        Err((failure, files)) => {
            host.let_go(files);
            Err(failure)
        }
    }
}

/// Connects to the store at a path, and makes it if there is none.
///
/// # Errors
///
/// `Memory` when out of memory; `Store` if the files cannot be opened or made.
pub fn connect<H: Host>(
    alloc: Global,
    host: &mut H,
    path: &str,
) -> Result<Connection<FileStore<H::File>>, Failure>
    ensures ok { IfOk result (IsConnected H.Host H.File.Disk host.old host.new path.now) }
    ensures err { IfErr result (IsUnconnected H.Host H.File.Disk host.old host.new path.now) }
{
    let (files, options) = match host.open_store(path, true) {
        Ok(store) => store,
        Err(failure) => return Err(failure),
    };
    match connect_to(alloc, files, options) {
        Ok(conn) => Ok(conn),
        Err((failure, files)) => {
            host.let_go(files);
            Err(failure)
        }
    }
}

/// Closes a store after a command that ended with this status, and returns the exit status.
pub fn close_connection<H: Host, E: Sink>(
    host: &mut H,
    conn: Connection<FileStore<H::File>>,
    errors: &mut E,
    status: ExitStatus,
) -> ExitStatus
    ensures { Closes H.Host H.File.Disk host.old host.new conn (sunk E.Sink errors.old) (sunk E.Sink errors.new) status result }
{
    let (status, files) = close_store(conn, errors, status);
    host.let_go(files);
    status
}

/// Does the same with the store of a registry.
pub fn close_registry<H: Host, E: Sink>(
    host: &mut H,
    registry: Registry<FileStore<H::File>>,
    errors: &mut E,
    status: ExitStatus,
) -> ExitStatus
    ensures { Closes H.Host H.File.Disk host.old host.new (connection_of registry) (sunk E.Sink errors.old) (sunk E.Sink errors.new) status result }
{
    close_connection(host, registry.into_connection(), errors, status)
}
