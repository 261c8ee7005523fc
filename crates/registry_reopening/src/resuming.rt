//! Runs through crashes: after each one the registry is opened again, and the run goes on.

ghost use Rattle.std.specs.Prelude.{◌≡◌, ℕ, IfSome, IfOk, IfErr, take, length};
ghost use Rattle.sqlite.specs.State.{HasCleanDisk};
ghost use Rattle.sqlite.specs.Files.{file_state};
ghost use Rattle.registry_rules.specs.History.{History, founded};
ghost use Rattle.registry_rules.specs.Run.{Legal, after, replies_to};
ghost use Rattle.registry_store.specs.Promise.{Represents, LeavesFrom, state_of};
ghost use Rattle.registry_store.specs.Files.{IsEither};
ghost use Rattle.registry_reopening.specs.Recovery.{KeepsItsWord};

use crate::crashing::{crash_until_open, open_through};
use crate::opening::leave;
use crate::runs::{RunEnd, run_from};
use registry_rules::{Founding, Reply, Request};
use registry_store::{Registry, leave_store};
use sqlite::{Connection, FileStore, Files, Options};
use sqlite_disk::{Crash, Disk, Memory};
use std::alloc::Global;

/// Abandons a registry and drops its files.
fn let_go<D: Disk + Drop>(registry: Registry<FileStore<D>>) {
    drop(leave(registry));
}

/// Acts on the requests. After each fault it crashes both disks, opens the registry again and
/// resumes from the first unanswered request, for at most `stops` runs. If the registry has a fault
/// while it is opened, it crashes both disks and opens it again, at most `stops` times a run.
///
/// If the first registry represents a history, and the disks of the returned one are clean, the
/// replies and the tables are those of a run without faults, however often that happens. If it does
/// not finish, it returns the replies so far, without those of its last run if memory runs out for
/// them. That these are a prefix of that run's replies is promised only for disks that always read
/// back what was written, as disks in memory do.
pub fn run_through<D: Crash + Drop>(
    alloc: Global,
    first: Registry<FileStore<D>>,
    requests: &[Request],
    options: Options,
    stops: u64,
) -> Result<(Vec<Reply>, Registry<FileStore<D>>), Vec<Reply>>
    ensures clean { IfOk result (λ end. HasCleanDisk (state_of end.1) → HasCleanDisk (state_of first)) }
    ensures ended { (h : History) → Represents first h
        → IfOk result (λ end. HasCleanDisk (state_of end.1) → ∥ ((end.0.items ≡ replies_to h requests.now) × Represents end.1 (after h requests.now)) ∥₁) }
    ensures unfinished { (h : History) → Represents first h → KeepsItsWord D.Disk
        → IfErr result (λ replies. ∥ (replies.items ≡ take (length replies.items) (replies_to h requests.now)) ∥₁) }
{
    let mut registry = first;
    let mut replies: Vec<Reply> = Vec::new(alloc);
    'stops: for _ in 0..stops {
        // `run_from` requires this bound, and no clause without a premise bounds its replies.
        if replies.len() > requests.len() {
            let_go(registry);
            return Err(replies);
        }
        let RunEnd {
            replies: mut more,
            fault,
        } = run_from(alloc, &mut registry, requests, replies.len());
        if replies.append(&mut more).is_err() {
            let_go(registry);
            return Err(replies);
        }
        match fault {
            None => return Ok((replies, registry)),
            Some(_) => {}
        }
        registry = match crash_until_open(alloc, registry, options, stops) {
            Ok(registry) => registry,
            Err(_) => return Err(replies),
        };
    }
    let_go(registry);
    Err(replies)
}

/// Crashes both disks of a connection, for example one that `Registry::open` returned with a fault,
/// opens the registry again and acts on the requests, with a crash of both after each fault of
/// either, as `run_through` does. Returns `None` if it does not finish.
///
/// The replies and the tables are those of a run without faults over the history that the store
/// held, in whatever schema.
pub fn crash_and_run_through<D: Crash + Drop>(
    alloc: Global,
    conn: Connection<FileStore<D>>,
    requests: &[Request],
    options: Options,
    stops: u64,
) -> Option<(Vec<Reply>, Registry<FileStore<D>>)>
    ensures clean { IfSome result (λ end. HasCleanDisk (state_of end.1) → HasCleanDisk (file_state conn)) }
    ensures ended { (from : ℕ) (h : History) → Legal h → (HasCleanDisk (file_state conn) → LeavesFrom from (file_state conn) (IsEither h h))
        → IfSome result (λ end. HasCleanDisk (state_of end.1) → ∥ ((end.0.items ≡ replies_to h requests.now) × Represents end.1 (after h requests.now)) ∥₁) }
{
    match open_through(alloc, leave_store(conn), options, stops) {
        Ok(registry) => match run_through(alloc, registry, requests, options, stops) {
            Ok(end) => Some(end),
            Err(_) => None,
        },
        Err(_) => None,
    }
}

/// Founds a registry over two new disks in memory, and acts on the requests there, with a crash of
/// both after each fault, for at most `stops` runs. Returns `None` if it does not finish.
///
/// The contract assumes nothing of the disks: the result is what the rules say, and the disks are
/// clean.
pub fn run_in_memory(
    alloc: Global,
    founding: &Founding,
    requests: &[Request],
    options: Options,
    stops: u64,
) -> Option<(Vec<Reply>, Registry<FileStore<Memory>>)>
    ensures ended { IfSome result (λ end. ∥ ((end.0.items ≡ replies_to (founded founding.now) requests.now) × Represents end.1 (after (founded founding.now) requests.now)) ∥₁) }
    ensures clean { IfSome result (λ end. HasCleanDisk (state_of end.1)) }
{
    let files = Files {
        log: Memory::new(alloc),
        db: Memory::new(alloc),
    };
    let Ok(conn) = Connection::open_files(alloc, files, options) else {
        return None;
    };
    match Registry::found(alloc, conn, founding) {
        Ok(first) => match run_through(alloc, first, requests, options, stops) {
            Ok(end) => Some(end),
            Err(_) => None,
        },
        Err((_, conn)) => {
            drop(conn.into_store().close());
            None
        }
    }
}
