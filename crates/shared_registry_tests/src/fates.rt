//! A log whose calls are lost, late and repeated, each in turn.

ghost use Rattle.std.specs.Prelude.{⊤};

use crate::texts::{act_in, follow_in, have_same_rows, write_count, write_stop};
use registry_rules::{Founding, Request};
use registry_store::Registry;
use shared_log::{AppendAnswer, Fate, HeadAnswer, Log, LogFault, MemoryLog, PageAnswer};
use shared_registry::{Cursor, join, share};
use sqlite::{Alter, Connection};
use std::alloc::Global;
use std::process::Abort;
use std::test::Fail;
use store_visits::steps::EACH_KIND;
use store_visits::values::{founding, replies_to, requests_of};

// A log, some of whose calls have another fate than to be answered.
#[derive(Drop)]
struct Fated {
    log: MemoryLog,
    fate: Fate,
    // The calls before the next one with that fate.
    before: u32,
    // The calls between two of them.
    between: u32,
}

impl Fated {
    // Notes a call, and sets its fate.
    fn meet(&mut self, alloc: Global) {
        if self.before > 0 {
            self.before -= 1;
            return;
        }
        self.before = self.between;
        if let Ok(fates) = vec![in alloc; self.fate] {
            self.log.set_fates(fates);
        }
    }
}

impl Log for Fated {
    ghost appends = { λ _ _ _ _ _. ⊤ };

    ghost reads = { λ _ _ _ _. ⊤ };

    ghost looks = { λ _ _ _. ⊤ };

    ghost fails = { λ _ _. ⊤ };

    fn append(&mut self, alloc: Global, n: u32, line: &[u8]) -> Result<AppendAnswer, LogFault> {
        self.meet(alloc);
        self.log.append(alloc, n, line)
    }

    fn page(&mut self, alloc: Global, n: u32) -> Result<PageAnswer, LogFault> {
        self.meet(alloc);
        self.log.page(alloc, n)
    }

    fn head(&mut self, alloc: Global) -> Result<HeadAnswer, LogFault> {
        self.meet(alloc);
        self.log.head(alloc)
    }
}

// Puts the record into the log, and once more if a call got no answer.
fn share_through<S: Alter>(
    alloc: Global,
    registry: &mut Registry<S>,
    log: Fated,
) -> Result<Cursor<Fated>, Fated> {
    match share(alloc, registry, log) {
        Ok(cursor) => Ok(cursor),
        Err((_, log)) => match share(alloc, registry, log) {
            Ok(cursor) => Ok(cursor),
            Err((_, log)) => Err(log),
        },
    }
}

// Acts on a request, and once more if a call got no answer. Adds the last reply.
fn act_through<S: Alter>(
    alloc: Global,
    registry: &mut Registry<S>,
    cursor: &mut Cursor<Fated>,
    request: &Request,
    text: &mut String,
) {
    let mut said = String::new(alloc);
    let _written = act_in(alloc, registry, cursor, request, &mut said);
    if said.as_str().starts_with("log:") {
        let _written = act_in(alloc, registry, cursor, request, text);
    } else {
        let _written = text.push_str(said.as_str()).is_ok();
    }
}

// Follows a log, each of whose calls is answered from now on.
fn catch_up<S: Alter>(
    alloc: Global,
    registry: &mut Registry<S>,
    mut log: Fated,
    text: &mut String,
) -> Fated {
    log.fate = Fate::Answers;
    match join(alloc, registry, log) {
        Ok(mut cursor) => {
            let _written = follow_in(registry, &mut cursor, text);
            cursor.into_log()
        }
        Err((stop, log)) => {
            let _written = write_stop(text, stop);
            log
        }
    }
}

// Acts on requests at one machine, and lets the other follow.
fn play<S: Alter>(
    alloc: Global,
    a: &mut Registry<S>,
    b: &mut Registry<S>,
    log: Fated,
    requests: &[Request],
    text: &mut String,
) {
    let log = match share_through(alloc, a, log) {
        Ok(mut cursor) => {
            for request in requests {
                act_through(alloc, a, &mut cursor, request, text);
            }
            cursor.into_log()
        }
        Err(log) => log,
    };
    let log = catch_up(alloc, b, log, text);
    let _written = write_count(text, &log.log);
}

// The same over two new stores. Returns whether both had the same rows.
fn play_over<S: Alter + Drop>(
    alloc: Global,
    (first, second): (Connection<S>, Connection<S>),
    founding: &Founding,
    log: Fated,
    requests: &[Request],
    text: &mut String,
) -> bool {
    match Registry::found(alloc, first, founding) {
        Ok(mut a) => match Registry::found(alloc, second, founding) {
            Ok(mut b) => {
                play(alloc, &mut a, &mut b, log, requests, text);
                have_same_rows(alloc, a, b)
            }
            Err((_, _conn)) => {
                let _conn = a.into_connection();
                false
            }
        },
        Err((_, _conn)) => false,
    }
}

const FATES: [Fate; 4] = [Fate::Loses, Fate::Forgets, Fate::Delays, Fate::Repeats];

// Acts on each kind of order over a log, some of whose calls have each fate in turn. Returns what came of it
// with the first fate that changed something, or as with the last.
fn acted(alloc: Global, before: u32, between: u32, wanted: &str) -> Result<String, Fail> {
    let founding = founding(alloc)?;
    let requests = requests_of(alloc, &EACH_KIND)?;
    let mut last = String::new(alloc);
    for fate in FATES {
        let stores = (
            Connection::open_in_memory(alloc)?,
            Connection::open_in_memory(alloc)?,
        );
        let log = Fated {
            log: MemoryLog::new(alloc, 2),
            fate,
            before,
            between,
        };
        let mut text = String::new(alloc);
        if !play_over(alloc, stores, &founding, log, &requests, &mut text) {
            text.push_str("other rows\n")?;
        }
        let differs = text.as_str() != wanted;
        last = text;
        if differs {
            break;
        }
    }
    Ok(last)
}

// What comes of it if nothing changes: each request gets its reply, at the second time at the latest, the
// other machine has the same rows, and the log has each accepted request once.
fn unchanged(alloc: Global) -> Result<String, Fail> {
    let mut wanted = replies_to(alloc, &EACH_KIND)?;
    wanted.push_str("followed\n22 lines\n")?;
    Ok(wanted)
}

// The append of each line has the fate first.
#[test]
fn an_append_may_be_lost_late_or_repeated(rt: HostRuntime) -> Result<(), Fail> {
    let alloc = rt.alloc();
    let wanted = unchanged(alloc)?;
    let text = acted(alloc, 2, 3, wanted.as_str())?;
    assert_eq!(rt; text.as_str(), wanted.as_str());
    Ok(())
}

// The read before the founding has the fate first, and then each fifth call: appends of some requests, and reads after the
// others.
#[test]
fn each_fifth_call_may_be_lost(rt: HostRuntime) -> Result<(), Fail> {
    let alloc = rt.alloc();
    let wanted = unchanged(alloc)?;
    let text = acted(alloc, 0, 4, wanted.as_str())?;
    assert_eq!(rt; text.as_str(), wanted.as_str());
    Ok(())
}
