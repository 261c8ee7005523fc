//! Opens the store and the registry in files.

ghost use Rattle.std.specs.Prelude.{IfOk, IfErr, IsTrue};
ghost use Rattle.registry_commands.specs.Failures.{IsOfOpening, IsOfStore};
ghost use Rattle.registry_program.specs.Opening.{AreLeft, HeldNoneIfForeign, IsConnectedTo, IsLeftUnopened, IsLeftUnread, OpensFiles};

use registry_commands::{Failure, failure_of, store_failure};
use registry_store::{Registry, leave_store};
use sqlite::{Connection, FileStore, Files, Options};
use sqlite_disk::Disk;
use std::alloc::Global;

/// Connects to the store in these files. If they hold none, it makes one, with checksums.
///
/// # Errors
///
/// `Memory` when out of memory, else `Store`, with what is left of the files.
pub fn connect_to<D: Disk + Drop>(
    alloc: Global,
    files: Files<D>,
    options: Options,
) -> Result<Connection<FileStore<D>>, (Failure, Files<D>)>
    requires { IsTrue (D.Disk.is_usable files.log) × IsTrue (D.Disk.is_usable files.db) }
    ensures ok { IfOk result (IsConnectedTo D.Disk files) }
    ensures err { IfErr result (λ e. IsOfStore e.0 × IsLeftUnopened D.Disk files e.1) }
{
    match Connection::open_files_with(alloc, files, options, true) {
        Ok(conn) => Ok(conn),
        Err((error, left)) => Err((store_failure(error), left.into_files())),
    }
}

/// Opens the registry of a store that was just opened. At a fault it gives the files back.
fn open_on<D: Disk + Drop>(
    alloc: Global,
    conn: Connection<FileStore<D>>,
) -> Result<Registry<FileStore<D>>, (Failure, Files<D>)>
    ensures ok { (files : _) → IsConnectedTo D.Disk files conn → IfOk result (OpensFiles D.Disk files) }
    ensures err { (files : _) → IsConnectedTo D.Disk files conn → IfErr result (λ e. IsOfOpening e.0 × IsLeftUnread D.Disk files e.1) }
    ensures foreign { (files : _) → IsConnectedTo D.Disk files conn → IfErr result (λ e. HeldNoneIfForeign D.Disk e.0 files e.1) }
{
    match Registry::open(alloc, conn) {
        Ok(registry) => Ok(registry),
        Err((fault, conn)) => Err((failure_of(fault), leave_store(conn))),
    }
}

/// Opens the registry in these files.
///
/// # Errors
///
/// The failure of opening the store or the registry, with what is left of the files: `Foreign` only
/// if the store could be opened, and holds no registry if these files read back what was written.
/// Then `leave_store` gives the files back; no clause says so.
pub fn open_files<D: Disk + Drop>(
    alloc: Global,
    files: Files<D>,
    options: Options,
) -> Result<Registry<FileStore<D>>, (Failure, Files<D>)>
    requires { IsTrue (D.Disk.is_usable files.log) × IsTrue (D.Disk.is_usable files.db) }
    ensures ok { IfOk result (OpensFiles D.Disk files) }
    ensures err { IfErr result (λ e. AreLeft D.Disk e.0 files e.1) }
    ensures foreign { IfErr result (λ e. HeldNoneIfForeign D.Disk e.0 files e.1) }
{
    match connect_to(alloc, files, options) {
        Ok(conn) => open_on(alloc, conn),
        Err(left) => Err(left),
    }
}
