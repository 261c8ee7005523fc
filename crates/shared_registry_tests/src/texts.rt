//! What calls return, as text.

use registry_rules::{Reply, Request};
use registry_store::{Fault, Registry};
use registry_wire::reply_json;
use shared_log::{Log, LogFault, MemoryLog};
use shared_registry::{Cursor, ShareStop, act, follow};
use sqlite::Alter;
use std::alloc::Global;
use store_visits::listing::write_rows;

fn log_fault_text(fault: LogFault) -> &'static str {
    match fault {
        LogFault::NoQuorum => "no quorum",
        LogFault::Unreachable => "unreachable",
        LogFault::Refused => "refused",
        LogFault::BadAnswer => "bad answer",
        LogFault::NoMemory => "no memory",
    }
}

fn fault_text(fault: Fault) -> &'static str {
    match fault {
        Fault::Taken => "taken",
        Fault::Poisoned => "poisoned",
        Fault::Store => "store",
        Fault::Foreign => "foreign",
        Fault::NoMemory => "no memory",
    }
}

/// Adds what stopped a call as a line. Returns whether there was room.
pub(crate) fn write_stop(text: &mut String, stop: ShareStop) -> bool {
    match stop {
        ShareStop::Registry(fault) => {
            let said = fault_text(fault);
            writeln!(text, "registry: {said}").is_ok()
        }
        ShareStop::Log(fault) => {
            let said = log_fault_text(fault);
            writeln!(text, "log: {said}").is_ok()
        }
        ShareStop::OtherRecord(n) => writeln!(text, "another record from line {n}").is_ok(),
        ShareStop::Ahead => writeln!(text, "ahead").is_ok(),
        ShareStop::Empty => writeln!(text, "empty").is_ok(),
        ShareStop::Full => writeln!(text, "full").is_ok(),
        ShareStop::NoMemory => writeln!(text, "no memory").is_ok(),
    }
}

// Adds a reply as a line of JSON.
fn write_reply(alloc: Global, text: &mut String, reply: &Reply) -> bool {
    match reply_json(alloc, reply) {
        Ok(json) => writeln!(text, "{json}").is_ok(),
        Err(_) => false,
    }
}

/// Acts on a request, and adds the reply or what stopped it as a line. Returns whether there was room.
pub(crate) fn act_in<S: Alter, L: Log>(
    alloc: Global,
    registry: &mut Registry<S>,
    cursor: &mut Cursor<L>,
    request: &Request,
    text: &mut String,
) -> bool {
    match act(registry, cursor, request) {
        Ok(reply) => write_reply(alloc, text, &reply),
        Err(stop) => write_stop(text, stop),
    }
}

/// Follows the log, and adds `followed` or what stopped it as a line.
pub(crate) fn follow_in<S: Alter, L: Log>(
    registry: &mut Registry<S>,
    cursor: &mut Cursor<L>,
    text: &mut String,
) -> bool {
    match follow(registry, cursor) {
        Ok(()) => writeln!(text, "followed").is_ok(),
        Err(stop) => write_stop(text, stop),
    }
}

/// Adds the number of lines of a log as a line.
pub(crate) fn write_count(text: &mut String, log: &MemoryLog) -> bool {
    let count = log.lines().len();
    writeln!(text, "{count} lines").is_ok()
}

/// Adds the rows of the stores of two registries, and returns whether both have the same.
pub(crate) fn have_same_rows<S: Alter + Drop>(
    alloc: Global,
    a: Registry<S>,
    b: Registry<S>,
) -> bool {
    let mut ours = String::new(alloc);
    let mut theirs = String::new(alloc);
    let mut conn = a.into_connection();
    let wrote = write_rows(&mut conn, &mut ours);
    let mut conn = b.into_connection();
    wrote && write_rows(&mut conn, &mut theirs) && !ours.is_empty() && ours == theirs
}
