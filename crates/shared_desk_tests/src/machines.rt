//! Two machines that serve messages over one log, in turns.

use crate::messages::{ENROL, HEAD, LIST, ORG, serve};
use registry_rules::Founding;
use registry_store::Registry;
use shared_log::MemoryLog;
use shared_registry::{join, share};
use sqlite::{Alter, Connection};
use std::alloc::Global;
use std::process::Abort;
use std::test::Fail;
use store_visits::values::founding;

// Serves messages at one machine, which takes up the log anew.
fn turn<S: Alter>(
    alloc: Global,
    registry: &mut Registry<S>,
    log: MemoryLog,
    messages: &[&str],
    text: &mut String,
) -> MemoryLog {
    match join(alloc, registry, log) {
        Ok(mut cursor) => {
            serve(alloc, registry, &mut cursor, messages, text);
            cursor.into_log()
        }
        Err((_, log)) => log,
    }
}

const IMPORT: &str =
    "POST /imports/acme HTTP/1.1\r\nregistry-caller: cora\r\nregistry-key: i1\r\ncontent-length: 34\r\n\r\n1209  Shared products\n\t0012  Lamp\n";

// What the machines are sent in turns.
const TURNS: [&[&str]; 4] = [
    &[LIST, LIST, ENROL, ORG],
    &[ORG, LIST, "GET", IMPORT, LIST],
    &[ENROL, LIST, LIST],
    &[LIST, HEAD],
];

// What is sent, and how serving ends each time.
const SENT: &str = "Some(200) # List of USB numbers in the syntax of usb.ids

1209  Shared products
Some(200) # List of USB numbers in the syntax of usb.ids

1209  Shared products
Some(200) {\"done\":\"enrolled acme\"}
Some(200) {\"keeper\":\"ann\",\"org\":\"acme\",\"site\":\"https://acme.example/\",\"title\":\"Acme Tools\"}
Err(Connections)
Some(200) {\"keeper\":\"ann\",\"org\":\"acme\",\"site\":\"https://acme.example/\",\"title\":\"Acme Tools\"}
Some(200) # List of USB numbers in the syntax of usb.ids

1209  Shared products
Some(400) {\"name\":\"BadHead\",\"refused\":20}
Some(200) {\"done\":\"imported fresh 1, owned 0, reserved 0, doubled 0, untitled 0, zero 0\"}
Some(200) # List of USB numbers in the syntax of usb.ids

1209  Shared products
\t0012  Lamp
Err(Connections)
Some(200) {\"done\":\"enrolled acme\"}
Some(200) # List of USB numbers in the syntax of usb.ids

1209  Shared products
\t0012  Lamp
Some(200) # List of USB numbers in the syntax of usb.ids

1209  Shared products
\t0012  Lamp
Err(Connections)
Some(200) # List of USB numbers in the syntax of usb.ids

1209  Shared products
\t0012  Lamp
Some(200) {\"digest\":\"cad57dc4f7f3005be461f1e3404b758f0780f2fad4de80c794e1f1235bb7f21b\",\"requests\":2}
Err(Connections)
";

fn play<S: Alter>(alloc: Global, a: &mut Registry<S>, b: &mut Registry<S>, text: &mut String) {
    let mut log = match share(alloc, a, MemoryLog::new(alloc, 2)) {
        Ok(cursor) => cursor.into_log(),
        Err((_, log)) => log,
    };
    let mut is_first = true;
    for messages in TURNS {
        log = if is_first {
            turn(alloc, a, log, messages, text)
        } else {
            turn(alloc, b, log, messages, text)
        };
        is_first = !is_first;
    }
}

fn found_and_play<S: Alter + Drop>(
    alloc: Global,
    (first, second): (Connection<S>, Connection<S>),
    founding: &Founding,
    text: &mut String,
) {
    match Registry::found(alloc, first, founding) {
        Ok(mut a) => match Registry::found(alloc, second, founding) {
            Ok(mut b) => {
                play(alloc, &mut a, &mut b, text);
                let _conn = b.into_connection();
                let _conn = a.into_connection();
            }
            Err((_, _conn)) => {
                let _conn = a.into_connection();
            }
        },
        Err((_, _conn)) => {}
    }
}

// Each machine answers with what the other has accepted.
#[test]
fn serve_as_one(rt: HostRuntime) -> Result<(), Fail> {
    let alloc = rt.alloc();
    let founding = founding(alloc)?;
    let first = Connection::open_in_memory(alloc).expect(&rt, "memory");
    let second = Connection::open_in_memory(alloc).expect(&rt, "memory");
    let mut text = String::new(alloc);
    found_and_play(alloc, (first, second), &founding, &mut text);
    assert_eq!(rt; text.as_str(), SENT);
    Ok(())
}
