//! What needs no store: an input that fails, the founding of a trial, and an error of a store.

use crate::ends::Stumbling;
use crate::texts::add_bytes;
use byte_streams::Inlet;
use registry_commands::{read_all, store_failure, trial_founding};
use sqlite::{Error, ErrorCode};
use std::alloc::Global;

// Adds the bytes that are read, or the fault.
fn add_read(alloc: Global, good: u32, text: &mut String) -> bool {
    let mut source = Inlet::new(Stumbling { rest: b"ab", good });
    match read_all(alloc, &mut source) {
        Ok(bytes) => add_bytes(&bytes, text) && text.push('\n').is_ok(),
        Err(fault) => writeln!(text, "{fault:?}").is_ok(),
    }
}

fn add_reads(alloc: Global, text: &mut String) -> bool {
    for good in 0..5 {
        if !add_read(alloc, good, text) {
            return false;
        }
    }
    true
}

fn add_trial(alloc: Global, text: &mut String) -> bool {
    match trial_founding(alloc) {
        Ok(founding) => writeln!(
            text,
            "{:x} {} {}",
            founding.vendor.get(),
            founding.fixed.count(),
            founding.licences.len()
        )
        .is_ok(),
        Err(_) => false,
    }
}

fn add_failures(text: &mut String) -> bool {
    let memory = store_failure(Error::SqliteFailure(ErrorCode::OutOfMemory));
    let store = store_failure(Error::InvalidQuery);
    writeln!(text, "{memory:?} {store:?}").is_ok()
}

#[test]
fn reads_to_the_end_or_fails(rt: HostRuntime) {
    let mut text = String::new(rt.alloc());
    let whole = add_reads(rt.alloc(), &mut text)
        && add_trial(rt.alloc(), &mut text)
        && add_failures(&mut text);
    assert_eq!(rt;
        (whole, text.as_str()),
        (true, "File\nFile\nFile\nab\nab\n1209 16 2\nMemory Store\n")
    );
}
