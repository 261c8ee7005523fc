//! How a store is left or closed, and what its files then hold.

ghost use Rattle.std.specs.Prelude.{◌≡◌, ℕ, IsTrue, IfSome, None};
ghost use Rattle.sqlite.specs.Closing.{IsCopied};
ghost use Rattle.sqlite.specs.State.{HasCleanDisk};
ghost use Rattle.sqlite.specs.Files.{file_state};
ghost use Rattle.sqlite.specs.WalReads.{AreClean};
ghost use Rattle.registry_rules.specs.History.{History};
ghost use Rattle.registry_store.specs.Promise.{LeavesFrom};
ghost use Rattle.registry_store.specs.Files.{AreClosed, IsEither, IsUncopied, HoldEither};

use sqlite::{Connection, Error, FileStore, Files};
use sqlite_disk::Disk;

/// Returns the files of an abandoned store, as a process that dies leaves them. Its log is not
/// copied into its database file; no clause says so.
pub fn leave_store<D: Disk + Drop>(conn: Connection<FileStore<D>>) -> Files<D>
    ensures closed { AreClosed conn result }
    ensures clean { AreClean D.Disk result.log result.db → HasCleanDisk (file_state conn) }
    ensures holds { (from : ℕ) (h next : History) → (HasCleanDisk (file_state conn) → LeavesFrom from (file_state conn) (IsEither h next))
        → AreClean D.Disk result.log result.db → HoldEither D.Disk from result h next }
{
    conn.into_store().close()
}

/// The files of a closed store, and why closing it failed, if it did.
#[derive(Drop)]
pub struct Closed<D: Disk> {
    /// The files of the store.
    pub files: Files<D>,
    /// The error of the store; `None` only if the log was copied into the database file.
    pub error: Option<Error>,
}

/// Closes a store, which copies its log into its database file, and returns its files.
pub fn close_files<D: Disk + Drop>(conn: Connection<FileStore<D>>) -> Closed<D>
    ensures closed { AreClosed conn result.files }
    ensures copied { result.error ≡ None → AreClean D.Disk result.files.log result.files.db → IsCopied conn result.files }
    ensures usable { result.error ≡ None → IsTrue (D.Disk.is_usable result.files.log) × IsTrue (D.Disk.is_usable result.files.db) }
    ensures failed { IfSome result.error (IsUncopied conn result.files) }
    ensures holds { result.error ≡ None → (from : ℕ) (h next : History) → (HasCleanDisk (file_state conn) → LeavesFrom from (file_state conn) (IsEither h next))
        → AreClean D.Disk result.files.log result.files.db → HoldEither D.Disk from result.files h next }
{
    match conn.close_files() {
        Ok(files) => Closed { files, error: None },
        Err((error, store)) => Closed {
            files: store.close(),
            error: Some(error),
        },
    }
}
