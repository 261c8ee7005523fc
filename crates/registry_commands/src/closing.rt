//! Closes a store when a command is done with it.

ghost use Rattle.std.specs.Prelude.{◌≡◌, ◌≢◌, ◌⊎◌, ℕ};
ghost use Rattle.sqlite.specs.Closing.{IsCopied};
ghost use Rattle.sqlite.specs.Files.{file_state};
ghost use Rattle.sqlite.specs.State.{HasCleanDisk};
ghost use Rattle.sqlite.specs.WalReads.{AreClean};
ghost use Rattle.registry_rules.specs.History.{History};
ghost use Rattle.registry_store.specs.Promise.{LeavesFrom};
ghost use Rattle.registry_store.specs.Files.{AreClosed, HoldEither, IsEither, IsUncopied};
ghost use Rattle.registry_commands.specs.Ends.{output_of};
ghost use Rattle.registry_commands.specs.Failures.{IsOfClosing, PrintsFailure};

use crate::messages::{fail, store_failure};
use crate::status::ExitStatus;
use byte_streams::Sink;
use registry_store::{Closed, close_files, leave_store};
use sqlite::{Connection, FileStore, Files};
use sqlite_disk::Disk;

/// Ends the use of a store, and returns the exit status and the files. At the status `Success` it
/// closes the store, which copies the log into the database file; if that fails it prints the
/// failure, and the status is `Failed`. At any other status it lets the store go, with its log
/// beside its file; no clause says so.
///
/// Whatever the status, nothing is committed. Unless closing failed, the two files hold what the
/// store held, as they read now and after any crash.
pub fn close_store<D: Disk + Drop, E: Sink>(
    conn: Connection<FileStore<D>>,
    errors: &mut E,
    status: ExitStatus,
) -> (ExitStatus, Files<D>)
    ensures kept { status ≢ ExitStatus.Success → (result.0 ≡ status) × (errors.new ≡ errors.old) }
    ensures well { status ≡ ExitStatus.Success → ((result.0 ≡ ExitStatus.Success) × (errors.new ≡ errors.old))
        ⊎ ((result.0 ≡ ExitStatus.Failed) × PrintsFailure (IsOfClosing (IsUncopied conn result.1)) (output_of E.Sink errors.old errors.new)) }
    ensures closed { AreClosed conn result.1 }
    ensures copied { status ≡ ExitStatus.Success → result.0 ≡ ExitStatus.Success → AreClean D.Disk result.1.log result.1.db → IsCopied conn result.1 }
    ensures holds { result.0 ≡ status → (from : ℕ) (h next : History) → (HasCleanDisk (file_state conn) → LeavesFrom from (file_state conn) (IsEither h next))
        → AreClean D.Disk result.1.log result.1.db → HoldEither D.Disk from result.1 h next }
{
    if status != ExitStatus::Success {
        return (status, leave_store(conn));
    }
    let Closed { files, error } = close_files(conn);
    match error {
        Some(error) => (fail(errors, store_failure(error)), files),
        None => (ExitStatus::Success, files),
    }
}
