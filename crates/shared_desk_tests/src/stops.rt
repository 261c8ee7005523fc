//! A log that gives no answer, and one with another record.

use crate::messages::{ENROL, LIST, ORG, serve};
use registry_rules::Founding;
use registry_store::Registry;
use shared_log::{Fate, Log, MemoryLog};
use shared_registry::{join, share};
use sqlite::{Alter, Connection};
use std::alloc::Global;
use std::process::Abort;
use std::test::Fail;
use store_visits::values::founding;

// Takes up the log, and serves messages.
fn join_and_serve<S: Alter>(
    alloc: Global,
    registry: &mut Registry<S>,
    log: MemoryLog,
    messages: &[&str],
    text: &mut String,
) {
    match join(alloc, registry, log) {
        Ok(mut cursor) => {
            serve(alloc, registry, &mut cursor, messages, text);
            let _log = cursor.into_log();
        }
        Err((_, _log)) => {}
    }
}

// Puts the record into a log, gives it another line and these fates, and serves messages.
fn share_and_serve<S: Alter>(
    alloc: Global,
    registry: &mut Registry<S>,
    other: Option<&str>,
    fates: Vec<Fate>,
    messages: &[&str],
    text: &mut String,
) {
    let mut log = match share(alloc, registry, MemoryLog::new(alloc, 2)) {
        Ok(cursor) => cursor.into_log(),
        Err((_, log)) => log,
    };
    if let Some(line) = other {
        let _answer = log.append(alloc, 1, line.as_bytes());
    }
    log.set_fates(fates);
    join_and_serve(alloc, registry, log, messages, text);
}

fn found_and_serve<S: Alter + Drop>(
    alloc: Global,
    conn: Connection<S>,
    founding: &Founding,
    other: Option<&str>,
    fates: Vec<Fate>,
    messages: &[&str],
    text: &mut String,
) {
    match Registry::found(alloc, conn, founding) {
        Ok(mut registry) => {
            share_and_serve(alloc, &mut registry, other, fates, messages, text);
            let _conn = registry.into_connection();
        }
        Err((_, _conn)) => {}
    }
}

// The append of the first order is lost, and that of the second one gets no answer, but takes effect. The server goes on after
// both.
#[test]
fn goes_on_without_an_answer(rt: HostRuntime) -> Result<(), Fail> {
    let alloc = rt.alloc();
    let founding = founding(alloc)?;
    let conn = Connection::open_in_memory(alloc).expect(&rt, "memory");
    // (the last one is that of the first call, by which the registry takes up the log)
    let fates = vec![in alloc; Fate::Forgets, Fate::Answers, Fate::Loses, Fate::Answers]?;
    let mut text = String::new(alloc);
    let messages = [ENROL, LIST, ENROL, ORG, ENROL];
    found_and_serve(alloc, conn, &founding, None, fates, &messages, &mut text);
    let wanted = r#"Some(503) {"name":"StoreFault","refused":30}
Some(200) # List of USB numbers in the syntax of usb.ids

1209  Shared products
Some(503) {"name":"StoreFault","refused":30}
Some(200) {"keeper":"ann","org":"acme","site":"https://acme.example/","title":"Acme Tools"}
Some(200) {"done":"enrolled acme"}
Err(Connections)
"#;
    assert_eq!(rt; text.as_str(), wanted);
    Ok(())
}

// A line that is none of the record ends the server. A message that is refused by itself is not asked of the log.
#[test]
fn ends_at_another_record(rt: HostRuntime) -> Result<(), Fail> {
    let alloc = rt.alloc();
    let founding = founding(alloc)?;
    let conn = Connection::open_in_memory(alloc).expect(&rt, "memory");
    let mut text = String::new(alloc);
    let messages = ["GET", LIST, LIST];
    let fates = Vec::new(alloc);
    found_and_serve(
        alloc,
        conn,
        &founding,
        Some("{}"),
        fates,
        &messages,
        &mut text,
    );
    let wanted = r#"Some(400) {"name":"BadHead","refused":20}
Some(503) {"name":"StoreFault","refused":30}
Err(Share(OtherRecord(1)))
"#;
    assert_eq!(rt; text.as_str(), wanted);
    Ok(())
}
