//! Peers that fail: a reader after each byte of an order, a writer after each byte of its response.

use crate::ends::{AMPLE, Stumbling, add_answer, add_response};
use crate::registries::{Calls, check};
use crate::texts::{ENROL, ENROLLED, FIND_ACME, NO_ORG, add_bytes, compare};
use byte_streams::Inlet;
use registry_store::Registry;
use sqlite::Alter;
use std::alloc::Global;
use std::test::Fail;

// The reader fails after so many bytes. Then nothing is written.
fn add_reader<S: Alter>(
    alloc: Global,
    good: u32,
    registry: &mut Registry<S>,
    seen: &mut String,
) -> bool {
    let mut source = Inlet::new(Stumbling { rest: ENROL, good });
    let mut text = String::new(alloc);
    add_response(alloc, &mut source, AMPLE, registry, &mut text)
        && compare("a reader", &text, "Read:", seen)
}

fn add_readers<S: Alter>(alloc: Global, registry: &mut Registry<S>, seen: &mut String) -> bool {
    let Ok(count) = u32::try_from(ENROL.len()) else {
        return false;
    };
    for good in 0..count {
        if !add_reader(alloc, good, registry, seen) {
            return false;
        }
    }
    true
}

fn add_prefix(room: usize, text: &mut String) -> bool {
    match ENROLLED.as_bytes().get(..room) {
        Some(part) => text.push_str("Write:").is_ok() && add_bytes(part, text),
        None => false,
    }
}

// The writer fails after so many bytes. Then a prefix of the response is written.
fn add_writer<S: Alter>(
    alloc: Global,
    room: usize,
    registry: &mut Registry<S>,
    seen: &mut String,
) -> bool {
    let mut wanted = String::new(alloc);
    let mut text = String::new(alloc);
    add_prefix(room, &mut wanted)
        && add_response(alloc, &mut Inlet::new(ENROL), room, registry, &mut text)
        && compare("a writer", &text, &wanted, seen)
}

fn add_writers<S: Alter>(alloc: Global, registry: &mut Registry<S>, seen: &mut String) -> bool {
    for room in 0..ENROLLED.len() {
        if !add_writer(alloc, room, registry, seen) {
            return false;
        }
    }
    true
}

struct Peers;

impl Calls for Peers {
    fn add_text<S: Alter>(
        &self,
        alloc: Global,
        registry: &mut Registry<S>,
        text: &mut String,
    ) -> bool {
        add_readers(alloc, registry, text)
            && add_answer(alloc, FIND_ACME, registry, text)
            && add_writers(alloc, registry, text)
            && add_answer(alloc, ENROL, registry, text)
    }
}

#[test]
fn peers_that_fail(rt: HostRuntime) -> Result<(), Fail> {
    let wanted = format!(in rt.alloc(); "{NO_ORG}{ENROLLED}")?;
    check(&rt, &Peers, &wanted);
    Ok(())
}
