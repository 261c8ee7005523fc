//! A registry that is abandoned, and the one that is opened in its files.

ghost use Rattle.std.specs.Prelude.{◌≡◌, ◌⊎◌, ℕ, IsTrue, false, IfOk, IfErr, IsErrAnd, MatchResult};
ghost use Rattle.sqlite.specs.State.{HasCleanDisk, Survives};
ghost use Rattle.sqlite.specs.Disk.{MoreFaults};
ghost use Rattle.sqlite.specs.View.{IsClean};
ghost use Rattle.sqlite.specs.Files.{file_state, image_of, IsOpened};
ghost use Rattle.sqlite.specs.FileStore.{state as store_state, view};
ghost use Rattle.sqlite.specs.Recovery.{Image};
ghost use Rattle.sqlite.specs.Start.{FindsIn};
ghost use Rattle.sqlite.specs.WalReads.{AreClean};
ghost use Rattle.registry_rules.specs.History.{History};
ghost use Rattle.registry_rules.specs.Run.{Legal};
ghost use Rattle.table_laws.specs.Inside.{CommitsNothing};
ghost use Rattle.registry_tables.specs.Known.{IsKnown};
ghost use Rattle.registry_tables.specs.Raising.{CommitsLater, IsNamedOlder};
ghost use Rattle.registry_tables.specs.Rows.{newest};
ghost use Rattle.registry_store.specs.Promise.{IsNew, Represents, Leaves, LeavesFrom, state_of, connection_of};
ghost use Rattle.registry_store.specs.Files.{AreClosed, IsEither, HoldEither, FilesHoldEither};
ghost use Rattle.registry_reopening.specs.Opening.{LeavesFilesOf, OpensIn, ReturnsClean, StillHolds};

use registry_store::{Registry, leave_store};
use sqlite::{Connection, FileStore, Files, Options};
use sqlite_disk::Disk;
use std::alloc::Global;

/// Abandons the registry and returns its store. Whatever a crash before the call left of the two
/// files (`holds`), or leaves after it (`left`), holds the rows of one of the two histories.
pub fn abandon<D: Disk + Drop>(registry: Registry<FileStore<D>>) -> FileStore<D>
    ensures holds { (h next : History) → Leaves newest (state_of registry) (IsEither h next) → IsClean (view result)
        → (left : Image) → (store_state (connection_of registry).store).may_leave left → FilesHoldEither newest left h next }
    ensures clean { IsClean (view result) → HasCleanDisk (state_of registry) }
    ensures left { (h next : History) → (HasCleanDisk (state_of registry) → Leaves newest (state_of registry) (IsEither h next)) → IsClean (view result)
        → (left : Image) → (store_state result).may_leave left → FilesHoldEither newest left h next }
{
    registry.into_connection().into_store()
}

/// Returns the files of an abandoned registry, as `leave_store` does.
pub fn leave<D: Disk + Drop>(registry: Registry<FileStore<D>>) -> Files<D>
    ensures closed { AreClosed (connection_of registry) result }
    ensures clean { AreClean D.Disk result.log result.db → HasCleanDisk (state_of registry) }
    ensures holds { (h next : History) → (HasCleanDisk (state_of registry) → Leaves newest (state_of registry) (IsEither h next))
        → AreClean D.Disk result.log result.db → HoldEither D.Disk newest result h next }
{
    leave_store(registry.into_connection())
}

/// Files in which no registry was opened.
#[derive(Drop)]
pub enum Unopened<D: Disk> {
    /// The engine failed to open the store, or to close it before.
    Store(Files<D>),
    /// The registry was not opened, and the files still hold what they held.
    Registry(Files<D>),
}

/// Opens the registry of a connection to files, as `Registry::open` does: if the connection was just
/// opened, the registry is the one that its files hold.
///
/// # Errors
///
/// At a fault it returns the connection, with no transaction open unless one was open before; then
/// it does nothing. What a crash then leaves of its files holds the rows of one of the two
/// histories.
pub fn open_on<D: Disk + Drop>(
    alloc: Global,
    conn: Connection<FileStore<D>>,
) -> Result<Registry<FileStore<D>>, Connection<FileStore<D>>>
    ensures clean { IfOk result (λ it. HasCleanDisk (state_of it) → HasCleanDisk (file_state conn)) }
    ensures returned { IfErr result (λ left. HasCleanDisk (file_state left) → HasCleanDisk (file_state conn)) }
    ensures is_new { IfOk result IsNew }
    ensures open { IfOk result (λ it. HasCleanDisk (state_of it) → IsTrue (file_state conn).is_open
        × (IsTrue (state_of it).is_open ⊎ MoreFaults (file_state conn).faults (state_of it).faults)) }
    ensures busy { IsTrue conn.in_transaction → IsErrAnd result (λ left. left ≡ conn) }
    ensures idle { conn.in_transaction ≡ false → IfErr result (λ left. left.in_transaction ≡ false) }
    ensures known { IfOk result (λ it. HasCleanDisk (state_of it) → IsKnown (file_state conn).now) }
    ensures survives { MatchResult result
        (λ it. Survives (file_state conn) (state_of it) (CommitsLater (file_state conn)))
        (λ left. Survives (file_state conn) (file_state left) (CommitsLater (file_state conn))) }
    ensures untouched { IsNamedOlder (file_state conn) ⊎ MatchResult result
        (λ it. CommitsNothing (file_state conn) (state_of it))
        (λ left. CommitsNothing (file_state conn) (file_state left)) }
    ensures represents { (from : ℕ) (image : Image) (h next : History) → Legal h → Legal next
        → (HasCleanDisk (file_state conn) → IsOpened conn × FindsIn image (file_state conn) × FilesHoldEither from image h next)
        → IfOk result (λ it. HasCleanDisk (state_of it) → ∥ ((x : History) × IsEither h next x × Represents it x) ∥₁) }
    ensures leaves { (from : ℕ) (image : Image) (h next : History) → Legal h → Legal next
        → (HasCleanDisk (file_state conn) → IsOpened conn × FindsIn image (file_state conn) × FilesHoldEither from image h next)
        → IfErr result (λ left. HasCleanDisk (file_state left) → ∥ LeavesFrom from (file_state left) (IsEither h next) ∥₁) }
{
    match Registry::open(alloc, conn) {
        Ok(registry) => Ok(registry),
        Err((_, conn)) => Err(conn),
    }
}

/// Opens the registry in the files of an earlier run.
///
/// # Errors
///
/// `Store` if the engine does not open the store, with what it leaves of the files. `Registry` if
/// the registry is not opened, and then the files hold the rows of one of the two histories, also
/// after a crash.
pub fn open_files<D: Disk + Drop>(
    alloc: Global,
    files: Files<D>,
    options: Options,
) -> Result<Registry<FileStore<D>>, Unopened<D>>
    requires { IsTrue (D.Disk.is_usable files.log) × IsTrue (D.Disk.is_usable files.db) }
    ensures opens { MatchResult result (OpensIn D.Disk files) (LeavesFilesOf D.Disk files) }
    ensures is_new { IfOk result IsNew }
    ensures honest { IfOk result (λ it. HasCleanDisk (state_of it) → AreClean D.Disk files.log files.db) }
    ensures returned { IfErr result (ReturnsClean D.Disk files) }
    ensures represents { (from : ℕ) (h next : History) → Legal h → Legal next → (AreClean D.Disk files.log files.db → FilesHoldEither from (image_of D.Disk files) h next)
        → IfOk result (λ it. HasCleanDisk (state_of it) → ∥ ((x : History) × IsEither h next x × Represents it x) ∥₁) }
    ensures holds { (from : ℕ) (h next : History) → Legal h → Legal next → (AreClean D.Disk files.log files.db → FilesHoldEither from (image_of D.Disk files) h next)
        → IfErr result (StillHolds D.Disk from h next) }
{
    match Connection::open_files(alloc, files, options) {
        Ok(conn) => match open_on(alloc, conn) {
            Ok(registry) => Ok(registry),
            Err(conn) => Err(Unopened::Registry(leave_store(conn))),
        },
        Err((_, left)) => Err(Unopened::Store(left.into_files())),
    }
}
