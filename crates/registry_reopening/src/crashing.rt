//! Calls that crash, leave or close a registry, and open it again.

ghost use Rattle.std.specs.Prelude.{◌≡◌, ℕ, IfOk, IfErr, MatchResult};
ghost use Rattle.sqlite.specs.State.{HasCleanDisk};
ghost use Rattle.sqlite.specs.Files.{file_state};
ghost use Rattle.sqlite.specs.WalReads.{AreClean};
ghost use Rattle.sqlite_disk.specs.declared.Files.{Files};
ghost use Rattle.registry_rules.specs.History.{History};
ghost use Rattle.registry_rules.specs.Run.{Legal};
ghost use Rattle.registry_tables.specs.Rows.{newest};
ghost use Rattle.registry_store.specs.Promise.{IsNew, Represents, Leaves, LeavesFrom, connection_of, state_of};
ghost use Rattle.registry_store.specs.Files.{AreClosed, IsEither, HoldEither};
ghost use Rattle.registry_reopening.specs.Opening.{LeavesFilesOf, OpensIn, StillHolds};
ghost use Rattle.registry_reopening.specs.Recovery.{MayLeave};

use crate::opening::{Unopened, leave, open_files};
use registry_store::{Closed, Registry, close_files, leave_store};
use sqlite::{Connection, FileStore, Files, Options};
use sqlite_disk::{Crash, Disk};
use std::alloc::Global;

/// Crashes both disks and opens the registry in the files. After a fault of the registry it crashes
/// both and opens again, at most `tries` times in all.
///
/// # Errors
///
/// `Registry` if no try succeeds, with the files as the last one left them, and `Store` if the
/// engine does not open the store.
pub fn open_through<D: Crash + Drop>(
    alloc: Global,
    files: Files<D>,
    options: Options,
    tries: u64,
) -> Result<Registry<FileStore<D>>, Unopened<D>>
    ensures is_new { IfOk result IsNew }
    ensures honest { IfOk result (λ it. HasCleanDisk (state_of it) → AreClean D.Disk files.log files.db) }
    ensures represents { (from : ℕ) (h next : History) → Legal h → Legal next → (AreClean D.Disk files.log files.db → HoldEither D.Disk from files h next)
        → IfOk result (λ it. HasCleanDisk (state_of it) → ∥ ((x : History) × IsEither h next x × Represents it x) ∥₁) }
    ensures holds { (from : ℕ) (h next : History) → Legal h → Legal next → (AreClean D.Disk files.log files.db → HoldEither D.Disk from files h next)
        → IfErr result (StillHolds D.Disk from h next) }
{
    let mut left = files;
    for _ in 0..tries {
        left.log.crash();
        left.db.crash();
        left = match open_files(alloc, left, options) {
            Ok(registry) => return Ok(registry),
            Err(Unopened::Registry(kept)) => kept,
            Err(Unopened::Store(kept)) => return Err(Unopened::Store(kept)),
        };
    }
    Err(Unopened::Registry(left))
}

/// Crashes both disks and opens the registry again, as `open_files` does.
pub fn crash_and_open<D: Crash + Drop>(
    alloc: Global,
    registry: Registry<FileStore<D>>,
    options: Options,
) -> Result<Registry<FileStore<D>>, Unopened<D>>
    ensures opens { (left : Files D) × (found : Files D) × AreClosed (connection_of registry) left × MayLeave D.Disk left found
        × MatchResult result (OpensIn D.Disk found) (LeavesFilesOf D.Disk found) }
    ensures is_new { IfOk result IsNew }
    ensures clean { IfOk result (λ it. HasCleanDisk (state_of it) → HasCleanDisk (state_of registry)) }
    ensures represents { (h next : History) → Legal h → Legal next → (HasCleanDisk (state_of registry) → Leaves newest (state_of registry) (IsEither h next))
        → IfOk result (λ it. HasCleanDisk (state_of it) → ∥ ((x : History) × IsEither h next x × Represents it x) ∥₁) }
    ensures holds { (h next : History) → Legal h → Legal next → (HasCleanDisk (state_of registry) → Leaves newest (state_of registry) (IsEither h next))
        → IfErr result (StillHolds D.Disk newest h next) }
{
    let mut files = leave(registry);
    files.log.crash();
    files.db.crash();
    open_files(alloc, files, options)
}

/// Like `crash_and_open`, but crashes both disks and opens again after each fault of the registry,
/// at most `tries` times in all, as `open_through` does.
pub fn crash_until_open<D: Crash + Drop>(
    alloc: Global,
    registry: Registry<FileStore<D>>,
    options: Options,
    tries: u64,
) -> Result<Registry<FileStore<D>>, Unopened<D>>
    ensures is_new { IfOk result IsNew }
    ensures clean { IfOk result (λ it. HasCleanDisk (state_of it) → HasCleanDisk (state_of registry)) }
    ensures represents { (h next : History) → Legal h → Legal next → (HasCleanDisk (state_of registry) → Leaves newest (state_of registry) (IsEither h next))
        → IfOk result (λ it. HasCleanDisk (state_of it) → ∥ ((x : History) × IsEither h next x × Represents it x) ∥₁) }
    ensures holds { (h next : History) → Legal h → Legal next → (HasCleanDisk (state_of registry) → Leaves newest (state_of registry) (IsEither h next))
        → IfErr result (StillHolds D.Disk newest h next) }
{
    open_through(alloc, leave(registry), options, tries)
}

/// Like `crash_and_open`, for a connection, for example one that `Registry::open` returned with a
/// fault: its tables may still be those of an older schema.
pub fn crash_and_open_store<D: Crash + Drop>(
    alloc: Global,
    conn: Connection<FileStore<D>>,
    options: Options,
) -> Result<Registry<FileStore<D>>, Unopened<D>>
    ensures opens { (left : Files D) × (found : Files D) × AreClosed conn left × MayLeave D.Disk left found
        × MatchResult result (OpensIn D.Disk found) (LeavesFilesOf D.Disk found) }
    ensures is_new { IfOk result IsNew }
    ensures clean { IfOk result (λ it. HasCleanDisk (state_of it) → HasCleanDisk (file_state conn)) }
    ensures represents { (from : ℕ) (h next : History) → Legal h → Legal next → (HasCleanDisk (file_state conn) → LeavesFrom from (file_state conn) (IsEither h next))
        → IfOk result (λ it. HasCleanDisk (state_of it) → ∥ ((x : History) × IsEither h next x × Represents it x) ∥₁) }
    ensures holds { (from : ℕ) (h next : History) → Legal h → Legal next → (HasCleanDisk (file_state conn) → LeavesFrom from (file_state conn) (IsEither h next))
        → IfErr result (StillHolds D.Disk from h next) }
{
    let mut files = leave_store(conn);
    files.log.crash();
    files.db.crash();
    open_files(alloc, files, options)
}

/// Abandons the registry without a crash of the disks, as when the process ends, and opens it again.
///
/// # Errors
///
/// `Registry` too if a disk is no longer usable; then the files are as they were left.
pub fn leave_and_open<D: Disk + Drop>(
    alloc: Global,
    registry: Registry<FileStore<D>>,
    options: Options,
) -> Result<Registry<FileStore<D>>, Unopened<D>>
    ensures opens { (left : Files D) × AreClosed (connection_of registry) left × MatchResult result (OpensIn D.Disk left) (LeavesFilesOf D.Disk left) }
    ensures is_new { IfOk result IsNew }
    ensures clean { IfOk result (λ it. HasCleanDisk (state_of it) → HasCleanDisk (state_of registry)) }
    ensures represents { (h next : History) → Legal h → Legal next → (HasCleanDisk (state_of registry) → Leaves newest (state_of registry) (IsEither h next))
        → IfOk result (λ it. HasCleanDisk (state_of it) → ∥ ((x : History) × IsEither h next x × Represents it x) ∥₁) }
    ensures holds { (h next : History) → Legal h → Legal next → (HasCleanDisk (state_of registry) → Leaves newest (state_of registry) (IsEither h next))
        → IfErr result (StillHolds D.Disk newest h next) }
{
    let files = leave(registry);
    if !files.may_be_used() {
        return Err(Unopened::Registry(files));
    }
    open_files(alloc, files, options)
}

/// Closes the registry, which copies its log into its database file, and opens it again.
///
/// # Errors
///
/// `Store` too if closing fails; then the files are as it left them.
pub fn close_and_open<D: Disk + Drop>(
    alloc: Global,
    registry: Registry<FileStore<D>>,
    options: Options,
) -> Result<Registry<FileStore<D>>, Unopened<D>>
    ensures opens { (left : Files D) × AreClosed (connection_of registry) left × MatchResult result (OpensIn D.Disk left) (LeavesFilesOf D.Disk left) }
    ensures is_new { IfOk result IsNew }
    ensures clean { IfOk result (λ it. HasCleanDisk (state_of it) → HasCleanDisk (state_of registry)) }
    ensures represents { (h next : History) → Legal h → Legal next → (HasCleanDisk (state_of registry) → Leaves newest (state_of registry) (IsEither h next))
        → IfOk result (λ it. HasCleanDisk (state_of it) → ∥ ((x : History) × IsEither h next x × Represents it x) ∥₁) }
    ensures holds { (h next : History) → Legal h → Legal next → (HasCleanDisk (state_of registry) → Leaves newest (state_of registry) (IsEither h next))
        → IfErr result (StillHolds D.Disk newest h next) }
{
    let Closed { files, error } = close_files(registry.into_connection());
    match error {
        None => open_files(alloc, files, options),
        Some(_) => Err(Unopened::Store(files)),
    }
}
