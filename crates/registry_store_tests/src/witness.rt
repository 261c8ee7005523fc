//! Requests that are acted on before a witness.

ghost use Rattle.std.specs.Prelude.{⊤};

use registry_rules::{Founding, Reply, ReplyText, Request};
use registry_store::{ActStop, Registry, Witness};
use sqlite::{Alter, Connection};
use std::alloc::Global;
use std::process::Abort;
use std::test::Fail;
use store_visits::steps::ENROL;
use store_visits::values::{founding, request};

// Misses each request while it is away, and else notes its reply.
#[derive(Drop)]
struct Notes {
    away: bool,
    text: String,
}

#[derive(Drop)]
struct Away;

impl Witness for Notes {
    type Why = Away;

    ghost saw = { λ _ _ _ _. ⊤ };

    ghost missed = { λ _ _ _ _ _. ⊤ };

    fn see(&mut self, _request: &Request, reply: &ReplyText) -> Result<(), Away> {
        let said = reply.as_str();
        if self.away || writeln!(&mut self.text, "{said}").is_err() {
            return Err(Away);
        }
        Ok(())
    }
}

// Acts on a request, and adds what is returned to the text.
fn act<S: Alter>(
    registry: &mut Registry<S>,
    request: &Request,
    notes: &mut Notes,
    text: &mut String,
) -> bool {
    match registry.act_before(request, notes) {
        Ok(Reply::Done(reply)) => {
            let said = reply.as_str();
            writeln!(text, "{said}").is_ok()
        }
        Err(ActStop::Unwitnessed(_)) => writeln!(text, "missed").is_ok(),
        Ok(Reply::Refused(_)) | Err(ActStop::Fault(_)) => false,
    }
}

// Sends a request while the witness is away, once it is there, and again.
fn send<S: Alter>(
    registry: &mut Registry<S>,
    request: &Request,
    notes: &mut Notes,
    text: &mut String,
) -> bool {
    notes.away = true;
    if !act(registry, request, notes, text) {
        return false;
    }
    notes.away = false;
    act(registry, request, notes, text) && act(registry, request, notes, text)
}

fn send_and_close<S: Alter + Drop>(
    mut registry: Registry<S>,
    request: &Request,
    notes: &mut Notes,
    text: &mut String,
) -> bool {
    let sent = send(&mut registry, request, notes, text);
    let _conn = registry.into_connection();
    sent
}

fn found_and_send<S: Alter + Drop>(
    alloc: Global,
    conn: Connection<S>,
    founding: &Founding,
    request: &Request,
    notes: &mut Notes,
    text: &mut String,
) -> bool {
    match Registry::found(alloc, conn, founding) {
        Ok(registry) => send_and_close(registry, request, notes, text),
        Err((_, _conn)) => false,
    }
}

#[test]
fn commits_what_a_witness_saw(rt: HostRuntime) -> Result<(), Fail> {
    let alloc = rt.alloc();
    let founding = founding(alloc)?;
    let (enrol, _) = ENROL;
    let request = request(alloc, enrol)?;
    let mut notes = Notes {
        away: false,
        text: String::new(alloc),
    };
    let mut text = String::new(alloc);
    let conn = Connection::open_in_memory(alloc).expect(&rt, "memory");
    let sent = found_and_send(alloc, conn, &founding, &request, &mut notes, &mut text);
    assert!(rt; sent);
    assert_eq!(rt; text.as_str(), "missed\nenrolled acme\nenrolled acme\n");
    assert_eq!(rt; notes.text.as_str(), "enrolled acme\n");
    Ok(())
}
