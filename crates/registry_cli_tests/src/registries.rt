//! One registry for each test, over files in memory.

use registry_commands::trial_founding;
use registry_store::Registry;
use sqlite::{Alter, Connection, FileStore, Files, Options};
use sqlite_disk::{Disk, Memory};
use std::alloc::Global;
use std::process::Abort;

/// What a test does over a registry.
pub trait Calls {
    /// Makes the calls, and adds what they give. Returns false if memory runs out.
    fn add_text<S: Alter>(
        &self,
        alloc: Global,
        registry: &mut Registry<S>,
        text: &mut String,
    ) -> bool;
}

/// Founds a registry in files.
pub fn founded_in<D: Disk + Drop>(
    alloc: Global,
    files: Files<D>,
) -> Option<Registry<FileStore<D>>> {
    if !files.may_be_used() {
        return None;
    }
    let founding = trial_founding(alloc).ok()?;
    let conn = Connection::open_files(alloc, files, Options::new(1)).ok()?;
    Registry::found(alloc, conn, &founding).ok()
}

/// Returns what calls add over a registry, and drops it.
pub fn text_over<S: Alter + Drop, C: Calls>(
    alloc: Global,
    found: Option<Registry<S>>,
    calls: &C,
) -> Option<String> {
    let mut registry = found?;
    let mut text = String::new(alloc);
    let whole = calls.add_text(alloc, &mut registry, &mut text);
    let _conn = registry.into_connection();
    if whole { Some(text) } else { None }
}

pub fn new_files(alloc: Global) -> Files<Memory> {
    Files {
        log: Memory::new(alloc),
        db: Memory::new(alloc),
    }
}

fn text_in<D: Disk + Drop, C: Calls>(alloc: Global, files: Files<D>, calls: &C) -> Option<String> {
    text_over(alloc, founded_in(alloc, files), calls)
}

/// Checks that calls give this text over a new registry.
pub fn check<R: AllocGlobal + Abort, C: Calls>(rt: &R, calls: &C, wanted: &str) {
    let alloc = rt.alloc();
    let text = text_in(alloc, new_files(alloc), calls);
    assert_eq!(rt; text.as_deref(), Some(wanted));
}
