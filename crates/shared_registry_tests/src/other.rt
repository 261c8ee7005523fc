//! Logs with another record, and records that are ahead of their log.

use crate::texts::{follow_in, write_stop};
use registry_rules::{Founding, Request};
use registry_store::Registry;
use shared_log::{Log, MemoryLog};
use shared_registry::{join, share};
use sqlite::{Alter, Connection};
use std::alloc::Global;
use std::process::Abort;
use std::test::Fail;
use store_visits::steps::ENROL;
use store_visits::values::{founding, request};

const ENROLLED: &str =
    r#"{"caller":"ann","done":"enrolled acme","key":"a1","order":"enrol","org":"acme","site":"https://acme.example/","title":"Acme Tools"}"#;

const FOUNDED: &str =
    r#"{"curators":["cora"],"fixed":["0001-0010"],"licences":["GPL-3.0-only","MIT"],"name":"Shared products","vendor":"1209"}"#;

/// A line that says the same in another form.
const SPACED: &str =
    r#"{"caller":"ann", "done":"enrolled acme","key":"a1","order":"enrol","org":"acme","site":"https://acme.example/","title":"Acme Tools"}"#;

/// A line with another reply.
const REPLIED: &str =
    r#"{"caller":"ann","done":"enrolled","key":"a1","order":"enrol","org":"acme","site":"https://acme.example/","title":"Acme Tools"}"#;

/// A line whose request is refused.
const REFUSED: &str =
    r#"{"caller":"ann","done":"granted 2001 to acme by petition 1","key":"a2","order":"grant","petition":1}"#;

/// Lines of a log, and what following them comes to.
const LOGS: [(&[&str], &str); 8] = [
    (&[FOUNDED], "followed"),
    (&[FOUNDED, ENROLLED], "followed"),
    (&[FOUNDED, "{}"], "another record from line 1"),
    (&[FOUNDED, FOUNDED], "another record from line 1"),
    (&[FOUNDED, SPACED], "another record from line 1"),
    (&[FOUNDED, REPLIED], "another record from line 1"),
    (&[FOUNDED, ENROLLED, ENROLLED], "another record from line 2"),
    (&[FOUNDED, ENROLLED, REFUSED], "another record from line 2"),
];

// Returns a log with these lines.
fn log_of(alloc: Global, lines: &[&str]) -> MemoryLog {
    let mut log = MemoryLog::new(alloc, 2);
    let mut n: u32 = 0;
    for line in lines {
        let _answer = log.append(alloc, n, line.as_bytes());
        n = n.saturating_add(1);
    }
    log
}

// Takes up a log and follows it.
fn join_and_follow<S: Alter>(
    alloc: Global,
    registry: &mut Registry<S>,
    log: MemoryLog,
    text: &mut String,
) {
    match join(alloc, registry, log) {
        Ok(mut cursor) => {
            let _written = follow_in(registry, &mut cursor, text);
            let _log = cursor.into_log();
        }
        Err((stop, _log)) => {
            let _written = write_stop(text, stop);
        }
    }
}

fn found_and_follow<S: Alter + Drop>(
    alloc: Global,
    conn: Connection<S>,
    founding: &Founding,
    log: MemoryLog,
    text: &mut String,
) {
    match Registry::found(alloc, conn, founding) {
        Ok(mut registry) => {
            join_and_follow(alloc, &mut registry, log, text);
            let _conn = registry.into_connection();
        }
        Err((_, _conn)) => {}
    }
}

// What following each log comes to.
#[test]
fn are_not_followed(rt: HostRuntime) -> Result<(), Fail> {
    let alloc = rt.alloc();
    let founding = founding(alloc)?;
    for (lines, wanted) in LOGS {
        let conn = Connection::open_in_memory(alloc).expect(&rt, "memory");
        let mut text = String::new(alloc);
        found_and_follow(alloc, conn, &founding, log_of(alloc, lines), &mut text);
        assert_eq!(rt; text.as_str().trim_end(), wanted);
    }
    Ok(())
}

// Puts a record into a log.
fn share_into<S: Alter>(
    alloc: Global,
    registry: &mut Registry<S>,
    log: MemoryLog,
    text: &mut String,
) {
    match share(alloc, registry, log) {
        Ok(cursor) => {
            let next = cursor.next();
            let _written = writeln!(text, "shared {next}").is_ok();
            let _log = cursor.into_log();
        }
        Err((stop, _log)) => {
            let _written = write_stop(text, stop);
        }
    }
}

// Takes up logs without the request that the registry acted on, and then puts its record into them.
fn take_up<S: Alter>(alloc: Global, registry: &mut Registry<S>, text: &mut String) {
    for lines in [&[] as &[&str], &[FOUNDED], &[FOUNDED, "{}"], &[ENROLLED]] {
        join_and_follow(alloc, registry, log_of(alloc, lines), text);
        share_into(alloc, registry, log_of(alloc, lines), text);
    }
}

fn act_and_take_up<S: Alter + Drop>(
    alloc: Global,
    conn: Connection<S>,
    founding: &Founding,
    enrol: &Request,
    text: &mut String,
) {
    match Registry::found(alloc, conn, founding) {
        Ok(mut registry) => {
            let _reply = registry.act(enrol);
            take_up(alloc, &mut registry, text);
            let _conn = registry.into_connection();
        }
        Err((_, _conn)) => {}
    }
}

#[test]
fn get_the_record_that_they_lack(rt: HostRuntime) -> Result<(), Fail> {
    let alloc = rt.alloc();
    let founding = founding(alloc)?;
    let (enrol, _) = ENROL;
    let enrol = request(alloc, enrol)?;
    let conn = Connection::open_in_memory(alloc).expect(&rt, "memory");
    let mut text = String::new(alloc);
    act_and_take_up(alloc, conn, &founding, &enrol, &mut text);
    assert_eq!(rt;
        text.as_str(),
        "ahead\nshared 2\nahead\nshared 2\nanother record from line 1\nanother record from line 1\nanother record from line 0\nanother record from line 0\n"
    );
    Ok(())
}
