//! Two machines that share one log.

use crate::texts::{act_in, follow_in, have_same_rows, write_count, write_stop};
use registry_rules::{Founding, Request};
use registry_store::Registry;
use shared_log::MemoryLog;
use shared_registry::{join, share};
use sqlite::{Alter, Connection};
use std::alloc::Global;
use std::process::Abort;
use std::test::Fail;
use store_visits::steps::EACH_KIND;
use store_visits::values::{founding, replies_to, requests_of};

// Acts on a request at one machine, which takes up the log anew.
fn turn<S: Alter>(
    alloc: Global,
    registry: &mut Registry<S>,
    log: MemoryLog,
    request: &Request,
    text: &mut String,
) -> MemoryLog {
    match join(alloc, registry, log) {
        Ok(mut cursor) => {
            let _written = act_in(alloc, registry, &mut cursor, request, text);
            cursor.into_log()
        }
        Err((stop, log)) => {
            let _written = write_stop(text, stop);
            log
        }
    }
}

// Acts on requests at two machines in turns.
fn turns<S: Alter>(
    alloc: Global,
    a: &mut Registry<S>,
    b: &mut Registry<S>,
    mut log: MemoryLog,
    requests: &[Request],
    text: &mut String,
) -> MemoryLog {
    let mut is_first = true;
    for request in requests {
        log = if is_first {
            turn(alloc, a, log, request, text)
        } else {
            turn(alloc, b, log, request, text)
        };
        is_first = !is_first;
    }
    log
}

// Follows a log, which the machine takes up anew.
fn catch_up<S: Alter>(
    alloc: Global,
    registry: &mut Registry<S>,
    log: MemoryLog,
    text: &mut String,
) -> MemoryLog {
    match join(alloc, registry, log) {
        Ok(mut cursor) => {
            let _written = follow_in(registry, &mut cursor, text);
            cursor.into_log()
        }
        Err((stop, log)) => {
            let _written = write_stop(text, stop);
            log
        }
    }
}

// Puts the record of the first machine into a log, and acts on requests at both in turns.
fn play<S: Alter>(
    alloc: Global,
    a: &mut Registry<S>,
    b: &mut Registry<S>,
    requests: &[Request],
    text: &mut String,
) {
    let log = match share(alloc, a, MemoryLog::new(alloc, 2)) {
        Ok(cursor) => cursor.into_log(),
        Err((stop, log)) => {
            let _written = write_stop(text, stop);
            log
        }
    };
    let log = turns(alloc, a, b, log, requests, text);
    let log = catch_up(alloc, a, log, text);
    let log = catch_up(alloc, b, log, text);
    let _written = write_count(text, &log);
}

fn play_over<S: Alter + Drop>(
    alloc: Global,
    mut a: Registry<S>,
    mut b: Registry<S>,
    requests: &[Request],
    text: &mut String,
) -> bool {
    play(alloc, &mut a, &mut b, requests, text);
    have_same_rows(alloc, a, b)
}

fn found_and_play<S: Alter + Drop>(
    alloc: Global,
    (first, second): (Connection<S>, Connection<S>),
    founding: &Founding,
    requests: &[Request],
    text: &mut String,
) -> bool {
    match Registry::found(alloc, first, founding) {
        Ok(a) => match Registry::found(alloc, second, founding) {
            Ok(b) => play_over(alloc, a, b, requests, text),
            Err((_, _conn)) => {
                let _conn = a.into_connection();
                false
            }
        },
        Err((_, _conn)) => false,
    }
}

// Each request gets the reply that one machine would give, and both machines have the same rows.
#[test]
fn act_as_one(rt: HostRuntime) -> Result<(), Fail> {
    let alloc = rt.alloc();
    let founding = founding(alloc)?;
    let requests = requests_of(alloc, &EACH_KIND)?;
    let first = Connection::open_in_memory(alloc).expect(&rt, "memory");
    let second = Connection::open_in_memory(alloc).expect(&rt, "memory");
    let mut text = String::new(alloc);
    let same = found_and_play(alloc, (first, second), &founding, &requests, &mut text);
    let mut wanted = replies_to(alloc, &EACH_KIND)?;
    wanted.push_str("followed\nfollowed\n22 lines\n")?;
    assert_eq!(rt; text.as_str(), wanted.as_str());
    assert!(rt; same);
    Ok(())
}
