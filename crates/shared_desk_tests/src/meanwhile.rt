//! A log to which another machine appends a line between two messages.

ghost use Rattle.std.specs.Prelude.{⊤};

use crate::messages::{ORGS, serve};
use registry_rules::Founding;
use registry_store::Registry;
use shared_log::{AppendAnswer, HeadAnswer, Log, LogFault, MemoryLog, PageAnswer};
use shared_registry::share;
use sqlite::{Alter, Connection};
use std::alloc::Global;
use std::process::Abort;
use std::test::Fail;
use store_visits::values::founding;

// A log that gets a line of another machine before its third read.
#[derive(Drop)]
struct Meanwhile {
    log: MemoryLog,
    reads: u32,
}

const ENROLLED: &str =
    r#"{"caller":"ann","done":"enrolled acme","key":"a1","order":"enrol","org":"acme","site":"https://acme.example/","title":"Acme Tools"}"#;

impl Log for Meanwhile {
    ghost appends = { λ _ _ _ _ _. ⊤ };

    ghost reads = { λ _ _ _ _. ⊤ };

    ghost looks = { λ _ _ _. ⊤ };

    ghost fails = { λ _ _. ⊤ };

    fn append(&mut self, alloc: Global, n: u32, line: &[u8]) -> Result<AppendAnswer, LogFault> {
        self.log.append(alloc, n, line)
    }

    fn page(&mut self, alloc: Global, n: u32) -> Result<PageAnswer, LogFault> {
        self.reads = self.reads.saturating_add(1);
        if self.reads == 3 {
            let _answer = self.log.append(alloc, 1, ENROLLED.as_bytes());
        }
        self.log.page(alloc, n)
    }

    fn head(&mut self, alloc: Global) -> Result<HeadAnswer, LogFault> {
        self.log.head(alloc)
    }
}

fn share_and_serve<S: Alter>(
    alloc: Global,
    registry: &mut Registry<S>,
    log: Meanwhile,
    text: &mut String,
) {
    match share(alloc, registry, log) {
        Ok(mut cursor) => {
            serve(
                alloc,
                registry,
                &mut cursor,
                &[ORGS, ORGS, ORGS, ORGS],
                text,
            );
            let _log = cursor.into_log();
        }
        Err((_, _log)) => {}
    }
}

fn found_and_serve<S: Alter + Drop>(
    alloc: Global,
    conn: Connection<S>,
    founding: &Founding,
    log: Meanwhile,
    text: &mut String,
) {
    match Registry::found(alloc, conn, founding) {
        Ok(mut registry) => {
            share_and_serve(alloc, &mut registry, log, text);
            let _conn = registry.into_connection();
        }
        Err((_, _conn)) => {}
    }
}

// A report that is kept is written anew once another machine has changed it.
#[test]
fn shows_what_came_meanwhile(rt: HostRuntime) -> Result<(), Fail> {
    let alloc = rt.alloc();
    let founding = founding(alloc)?;
    let conn = Connection::open_in_memory(alloc).expect(&rt, "memory");
    let log = Meanwhile {
        log: MemoryLog::new(alloc, 2),
        reads: 0,
    };
    let mut text = String::new(alloc);
    found_and_serve(alloc, conn, &founding, log, &mut text);
    let line =
        "Some(200) acme                              ann                               Acme Tools\n";
    let wanted = format!(in alloc; "Some(200) \nSome(200) \n{line}{line}Err(Connections)\n")?;
    assert_eq!(rt; text.as_str(), wanted.as_str());
    Ok(())
}
