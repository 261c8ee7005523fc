//! A registry that runs out of memory while it acts is poisoned, and sound again once it is opened.
//! This tests something only when an allocation is refused (`rt try --test --fail-alloc N`).

use registry_reopening::{crash_until_open, leave};
use registry_rules::{Founding, Reply, Request};
use registry_store::{Fault, Registry, leave_store};
use sqlite::{Alter, Connection, FileStore, Files};
use sqlite_disk::{Crash, Disk, Memory};
use std::alloc::Global;
use std::process::Abort;
use std::test::Fail;
use store_visits::images::PLAIN;
use store_visits::steps::ENROL;
use store_visits::values::{founding, request};

// The reply of a registry to a request.
#[derive(Clone, Copy, Debug, PartialEq, Eq)]
enum Answer {
    Enrolled,
    Other,
    Fault(Fault),
}

fn is_enrolled(reply: &Reply) -> bool {
    match reply {
        Reply::Done(text) => text.as_str() == "enrolled acme",
        _ => false,
    }
}

fn act_on<S: Alter>(registry: &mut Registry<S>, request: &Request) -> Answer {
    match registry.act(request) {
        Ok(reply) => {
            if is_enrolled(&reply) {
                Answer::Enrolled
            } else {
                Answer::Other
            }
        }
        Err(fault) => Answer::Fault(fault),
    }
}

// The answers to a request that comes twice, and the number of organisations then.
#[derive(Clone, Copy, Debug)]
struct Outcome {
    first: Answer,
    again: Answer,
    orgs: Option<usize>,
}

fn act_twice<S: Alter>(registry: &mut Registry<S>, request: &Request) -> Outcome {
    let first = act_on(registry, request);
    let again = act_on(registry, request);
    let orgs = match registry.orgs() {
        Ok(orgs) => Some(orgs.len()),
        Err(_) => None,
    };
    Outcome { first, again, orgs }
}

fn act_again<D: Disk + Drop>(mut registry: Registry<FileStore<D>>, request: &Request) -> Outcome {
    let outcome = act_twice(&mut registry, request);
    drop(leave(registry));
    outcome
}

// An opening that runs out of memory comes after another crash.
fn act_around_a_crash<D: Crash + Drop>(
    alloc: Global,
    mut registry: Registry<FileStore<D>>,
    request: &Request,
) -> Option<(Outcome, Outcome)> {
    let before = act_twice(&mut registry, request);
    match crash_until_open(alloc, registry, PLAIN, 2) {
        Ok(registry) => Some((before, act_again(registry, request))),
        Err(_) => None,
    }
}

fn found_and_act<D: Crash + Drop>(
    alloc: Global,
    conn: Connection<FileStore<D>>,
    founding: &Founding,
    request: &Request,
) -> Option<(Outcome, Outcome)> {
    match Registry::found(alloc, conn, founding) {
        Ok(registry) => act_around_a_crash(alloc, registry, request),
        Err((_, conn)) => {
            drop(leave_store(conn));
            None
        }
    }
}

fn act_in<D: Crash + Drop>(
    alloc: Global,
    files: Files<D>,
    founding: &Founding,
    request: &Request,
) -> Option<(Outcome, Outcome)> {
    if !files.may_be_used() {
        return None;
    }
    match Connection::open_files(alloc, files, PLAIN) {
        Ok(conn) => found_and_act(alloc, conn, founding, request),
        Err(_) => None,
    }
}

// Acts over a new registry in files in memory.
fn outcomes(alloc: Global, founding: &Founding, request: &Request) -> Option<(Outcome, Outcome)> {
    let files = Files {
        log: Memory::new(alloc),
        db: Memory::new(alloc),
    };
    act_in(alloc, files, founding, request)
}

// A disk in memory fails if out of memory.
fn is_short(answer: Answer) -> bool {
    matches!(answer, Answer::Fault(Fault::NoMemory | Fault::Store))
}

// Checks that each answer is right, and that a fault leaves the registry poisoned.
fn is_right(outcome: Outcome) -> bool {
    let Outcome { first, again, orgs } = outcome;
    match (first, again) {
        (Answer::Enrolled, Answer::Enrolled) => orgs == Some(1) || orgs.is_none(),
        (Answer::Enrolled, fault) => is_short(fault) && orgs.is_none(),
        (fault, Answer::Fault(Fault::Poisoned)) => is_short(fault) && orgs.is_none(),
        _ => false,
    }
}

fn is_whole(outcome: Outcome) -> bool {
    is_right(outcome) && outcome.again == Answer::Enrolled && outcome.orgs == Some(1)
}

#[test]
fn out_of_memory_poisons_a_registry_and_loses_nothing(rt: HostRuntime) -> Result<(), Fail> {
    let alloc = rt.alloc();
    let founding = founding(alloc)?;
    let (enrol, _) = ENROL;
    let request = request(alloc, enrol)?;
    let (before, after) = outcomes(alloc, &founding, &request).ok_or("memory")?;
    assert!(rt; is_right(before), "{before:?}");
    assert!(rt; is_right(after), "{after:?}");
    assert!(rt; is_whole(before) || is_whole(after), "{before:?} {after:?}");
    Ok(())
}
