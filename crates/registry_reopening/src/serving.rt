//! Serves connections and opens the store again, as two runs of the program do.

ghost use Rattle.std.specs.Prelude.{◌≡◌, ◌≤◌, List, length, MatchResult, OnOk};
ghost use Rattle.registry_desk.specs.Server.{Visit, HaveVisited, EndsConnections, fault_in_server};
ghost use Rattle.registry_reopening.specs.Opening.{ComesAfter, LeavesFilesAfter};
ghost use Rattle.registry_reopening.specs.Served.{AreServedOver, IsReopenedAfterServing};

use crate::crashing::{close_and_open, crash_and_open, leave_and_open};
use crate::opening::Unopened;
use registry_desk::{Connections, ServerStop, serve_all};
use registry_store::Registry;
use sqlite::{FileStore, Options};
use sqlite_disk::{Crash, Disk};
use std::alloc::Global;

/// Serves connections as `serve_all` does, crashes both disks, and opens the registry again.
///
/// The opened registry represents the history after the messages of all connections that were acted
/// on, or, if the registry had a fault at the last one, perhaps of all but that one. So it holds each message
/// whose response was written whole with a status other than 503. Returns the files in place of the
/// registry, as `open_files` does, if it is not opened.
pub fn serve_and_crash<C: Connections, D: Crash + Drop>(
    alloc: Global,
    connections: &mut C,
    first: Registry<FileStore<D>>,
    count: u64,
    options: Options,
) -> (
    Result<(), ServerStop>,
    Result<Registry<FileStore<D>>, Unopened<D>>,
)
    ensures { (visits : List Visit) × (middle : C)
        × HaveVisited C.opens C.closes C.Reader.remaining C.Reader.failures C.Writer.contents C.Writer.failures connections.old middle visits
        × EndsConnections C.fails middle connections.new result.0
        × (length visits ≤ count) × OnOk result.0 (length visits ≡ count)
        × (over : AreServedOver first visits (fault_in_server result.0))
        × MatchResult result.1 (λ it. IsReopenedAfterServing first visits it × ComesAfter first it) (LeavesFilesAfter D.Disk over.last) }
{
    let mut registry = first;
    let served = serve_all(alloc, connections, &mut registry, count);
    (served, crash_and_open(alloc, registry, options))
}

/// Does the same without a crash: after all connections it closes the store, and otherwise it
/// leaves its files as they are, as the program does.
pub fn serve_and_open<C: Connections, D: Disk + Drop>(
    alloc: Global,
    connections: &mut C,
    first: Registry<FileStore<D>>,
    count: u64,
    options: Options,
) -> (
    Result<(), ServerStop>,
    Result<Registry<FileStore<D>>, Unopened<D>>,
)
    ensures { (visits : List Visit) × (middle : C)
        × HaveVisited C.opens C.closes C.Reader.remaining C.Reader.failures C.Writer.contents C.Writer.failures connections.old middle visits
        × EndsConnections C.fails middle connections.new result.0
        × (length visits ≤ count) × OnOk result.0 (length visits ≡ count)
        × (over : AreServedOver first visits (fault_in_server result.0))
        × MatchResult result.1 (λ it. IsReopenedAfterServing first visits it × ComesAfter first it) (LeavesFilesAfter D.Disk over.last) }
{
    let mut registry = first;
    let served = serve_all(alloc, connections, &mut registry, count);
    match served {
        Ok(()) => (served, close_and_open(alloc, registry, options)),
        Err(_) => (served, leave_and_open(alloc, registry, options)),
    }
}
