//! The headline for every crash: whatever a crash leaves of the files, the next opening finds the
//! requests that were answered, and at most one more.

ghost use Rattle.std.specs.Prelude.{◌≡◌, ◌⊎◌, ◌+◌, ◌<◌, ℕ, IsTrue, IfSome, IfOk, MatchResult, None, length, take};
ghost use Rattle.sqlite.specs.State.{HasCleanDisk};
ghost use Rattle.sqlite.specs.Files.{image_of};
ghost use Rattle.sqlite.specs.WalReads.{AreClean};
ghost use Rattle.registry_rules.specs.History.{History};
ghost use Rattle.registry_rules.specs.Run.{Legal, after, replies_to};
ghost use Rattle.registry_tables.specs.Rows.{newest};
ghost use Rattle.registry_store.specs.declared.fault.Fault.TheVariants as faults;
ghost use Rattle.registry_store.specs.Promise.{IsNew, Represents, state_of};
ghost use Rattle.registry_reopening.specs.Opening.{LeavesFilesOf, OpensIn};
ghost use Rattle.registry_reopening.specs.Recovery.{MayLeave, RepresentsPrefix};
ghost use Rattle.registry_store.specs.Files.{IsEither, HoldEither, FilesHoldEither};

use crate::opening::{Unopened, leave, open_files};
use crate::runs::{RunEnd, run_from};
use registry_rules::Request;
use registry_store::Registry;
use sqlite::{FileStore, Files, Options};
use sqlite_disk::Disk;
use std::alloc::Global;

/// A run whose registry was abandoned.
#[derive(Drop)]
pub struct Abandoned<D: Disk> {
    /// The replies of the run, and the fault that ended it early, if any.
    pub run: RunEnd,
    /// The files as the run left them.
    pub files: Files<D>,
}

/// Acts on the requests, abandons the registry, and opens the one in `found`: the files that the
/// next process finds. Returns those in its place, as `open_files` does, if no registry is opened.
///
/// The contract is the headline for every crash. It is about each state of the two files that a
/// crash may leave after the run, and not about one crash: if `found` is such a state, then the
/// registry that is opened represents the history after the answered requests, or after one more.
/// If `found` holds another legal history, the registry represents that one.
pub fn run_and_recover<D: Disk + Drop>(
    alloc: Global,
    first: Registry<FileStore<D>>,
    requests: &[Request],
    found: Files<D>,
    options: Options,
) -> (Abandoned<D>, Result<Registry<FileStore<D>>, Unopened<D>>)
    requires { IsTrue (D.Disk.is_usable found.log) × IsTrue (D.Disk.is_usable found.db) }
    ensures recovered { (h : History) → Represents first h → AreClean D.Disk result.0.files.log result.0.files.db → MayLeave D.Disk result.0.files found
        → IfOk result.1 (λ it. HasCleanDisk (state_of it) → RepresentsPrefix it h requests.now (length result.0.run.replies.items)) }

    // The replies are those to the first requests, and to all of them only if there was no fault.
    ensures answered { (h : History) → Represents first h → AreClean D.Disk result.0.files.log result.0.files.db → result.0.run.replies.items ≡ take (length result.0.run.replies.items) (replies_to h requests.now) }
    ensures through { (h : History) → Represents first h → AreClean D.Disk result.0.files.log result.0.files.db → result.0.run.fault ≡ None → result.0.run.replies.items ≡ replies_to h requests.now }
    ensures stopped { (h : History) → Represents first h → AreClean D.Disk result.0.files.log result.0.files.db
        → IfSome result.0.run.fault (λ fault. (length result.0.run.replies.items < length requests.now) × ((fault ≡ faults.Store) ⊎ (fault ≡ faults.NoMemory))) }

    // Each state that a crash may leave holds the rows of one of the two histories, and what is
    // opened is what was found.
    ensures left { (h : History) → Represents first h → AreClean D.Disk result.0.files.log result.0.files.db
        → HoldEither D.Disk newest result.0.files (after h (take (length result.0.run.replies.items) requests.now)) (after h (take (length result.0.run.replies.items + 1) requests.now)) }
    ensures opens { MatchResult result.1 (OpensIn D.Disk found) (LeavesFilesOf D.Disk found) }
    ensures is_new { IfOk result.1 IsNew }
    ensures clean { IfOk result.1 (λ it. HasCleanDisk (state_of it) → AreClean D.Disk found.log found.db) }
    ensures opened { (from : ℕ) (h next : History) → Legal h → Legal next → (AreClean D.Disk found.log found.db → FilesHoldEither from (image_of D.Disk found) h next)
        → IfOk result.1 (λ it. HasCleanDisk (state_of it) → ∥ ((x : History) × IsEither h next x × Represents it x) ∥₁) }
{
    let mut registry = first;
    let run = run_from(alloc, &mut registry, requests, 0);
    let files = leave(registry);
    let recovered = open_files(alloc, found, options);
    (Abandoned { run, files }, recovered)
}
