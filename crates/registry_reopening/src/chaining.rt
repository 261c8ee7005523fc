//! Two runs, one after another, with a crash after each.

ghost use Rattle.std.specs.Prelude.{◌≡◌, ◌≢◌, ◌⊎◌, false, Some, IfErr, IfOk};
ghost use Rattle.sqlite.specs.State.{HasCleanDisk};
ghost use Rattle.registry_rules.specs.History.{History};
ghost use Rattle.registry_store.specs.declared.fault.Fault.TheVariants as faults;
ghost use Rattle.registry_store.specs.Promise.{IsNew, Represents, is_poisoned, state_of};
ghost use Rattle.registry_reopening.specs.Chained.{LeavesFilesAfterRun, LeavesFilesAfterSecond};
ghost use Rattle.registry_reopening.specs.Recovery.{LeadsThrough};

use crate::crashing::crash_and_open;
use crate::opening::Unopened;
use crate::runs::{RunEnd, run_from};
use registry_rules::Request;
use registry_store::Registry;
use sqlite::{FileStore, Options};
use sqlite_disk::{Crash, Disk};
use std::alloc::Global;

/// Acts on the requests, crashes both disks, and opens the registry again.
///
/// The opened registry represents the history after the answered requests, or after one more.
///
/// # Errors
///
/// As `crash_and_open`. The files hold the history after some of the first requests, or after one
/// more, unless the engine failed.
pub fn run_and_crash<D: Crash + Drop>(
    alloc: Global,
    first: Registry<FileStore<D>>,
    requests: &[Request],
    options: Options,
) -> Result<(RunEnd, Registry<FileStore<D>>), Unopened<D>>
    ensures is_new { IfOk result (λ end. IsNew end.1) }
    ensures clean { IfOk result (λ end. HasCleanDisk (state_of end.1) → HasCleanDisk (state_of first)) }
    ensures sound { is_poisoned first ≡ false → IfOk result (λ end. end.0.fault ≢ Some faults.Poisoned) }
    ensures left { (h : History) → Represents first h
        → IfOk result (λ end. HasCleanDisk (state_of end.1) → ∥ ((x : History) × LeadsThrough h requests.now end.0.replies.items end.0.fault x × Represents end.1 x) ∥₁) }
    ensures holds { IfErr result (LeavesFilesAfterRun D.Disk first requests.now) }
{
    let mut registry = first;
    let run = run_from(alloc, &mut registry, requests, 0);
    let registry = crash_and_open(alloc, registry, options)?;
    Ok((run, registry))
}

/// Acts on the earlier requests and then on the later ones, and crashes both disks and opens the
/// registry again after each of the two runs.
///
/// The second run is over a history that the first one and its crash left. Whatever the store holds,
/// it begins with a registry that is not poisoned.
///
/// # Errors
///
/// As `run_and_crash`, for the run after which no registry was opened.
pub fn run_and_crash_twice<D: Crash + Drop>(
    alloc: Global,
    first: Registry<FileStore<D>>,
    earlier: &[Request],
    later: &[Request],
    options: Options,
) -> Result<(RunEnd, RunEnd, Registry<FileStore<D>>), Unopened<D>>
    ensures is_new { IfOk result (λ end. IsNew end.2) }
    ensures clean { IfOk result (λ end. HasCleanDisk (state_of end.2) → HasCleanDisk (state_of first)) }
    ensures sound { IfOk result (λ end. end.1.fault ≢ Some faults.Poisoned) }
    ensures left { (h : History) → Represents first h
        → IfOk result (λ end. HasCleanDisk (state_of end.2) → ∥ ((x : History) × LeadsThrough h earlier.now end.0.replies.items end.0.fault x
        × (y : History) × LeadsThrough x later.now end.1.replies.items end.1.fault y × Represents end.2 y) ∥₁) }
    ensures holds { IfErr result (λ left. LeavesFilesAfterRun D.Disk first earlier.now left ⊎ LeavesFilesAfterSecond D.Disk first earlier.now later.now left) }
{
    let (before, middle) = run_and_crash(alloc, first, earlier, options)?;
    let (after, last) = run_and_crash(alloc, middle, later, options)?;
    Ok((before, after, last))
}
