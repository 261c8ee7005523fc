//! Runs each case over the two stores, and compares the texts.

use crate::steps::{Given, Step, perform};
use crate::values::founding;
use sqlite::{Alter, Connection, Files, Options};
use sqlite_disk::{Disk, Memory};
use std::alloc::Global;
use std::process::Abort;
use std::test::Fail;
use usbnum_core::NoMemory;

/// Parts of a list of steps, and parts of the text that they give.
pub type Case<'a> = (&'a [&'a [Step<'a>]], &'a [&'a str]);

fn add_steps<S: Alter>(
    given: Given<'_>,
    conn: &mut Connection<S>,
    steps: &[Step<'_>],
    text: &mut String,
) -> bool {
    for step in steps {
        if !perform(given, conn, *step, text) {
            return false;
        }
    }
    true
}

fn add_parts<S: Alter>(
    given: Given<'_>,
    conn: &mut Connection<S>,
    parts: &[&[Step<'_>]],
    text: &mut String,
) -> bool {
    for steps in parts {
        if !add_steps(given, conn, steps, text) {
            return false;
        }
    }
    true
}

/// Returns the text of the steps, or nothing if one fails. Drops the connection.
fn listing<S: Alter + Drop>(
    given: Given<'_>,
    conn: Connection<S>,
    parts: &[&[Step<'_>]],
) -> Option<String> {
    let mut conn = conn;
    let mut text = String::new(given.alloc);
    if add_parts(given, &mut conn, parts, &mut text) {
        Some(text)
    } else {
        None
    }
}

// Returns the text of the steps over a new store in memory.
fn over_memory(given: Given<'_>, parts: &[&[Step<'_>]]) -> Option<String> {
    listing(given, Connection::open_in_memory(given.alloc).ok()?, parts)
}

// Returns the text of the steps over a new store of a file and its log.
fn over_files<D: Disk + Drop>(
    given: Given<'_>,
    files: Files<D>,
    parts: &[&[Step<'_>]],
) -> Option<String> {
    if !files.may_be_used() {
        return None;
    }
    let conn = Connection::open_files(given.alloc, files, Options::new(1)).ok()?;
    listing(given, conn, parts)
}

fn joined(alloc: Global, parts: &[&str]) -> Result<String, Fail> {
    let mut text = String::new(alloc);
    for part in parts {
        text.push_str(part)?;
    }
    Ok(text)
}

fn check_case(
    rt: &impl Abort,
    given: Given<'_>,
    case: Case<'_>,
    number: usize,
) -> Result<(), Fail> {
    let (parts, wanted) = case;
    let wanted = joined(given.alloc, wanted)?;
    let log = Memory::new(given.alloc);
    let db = Memory::new(given.alloc);
    let in_files = over_files(given, Files { log, db }, parts);
    let in_memory = over_memory(given, parts);
    for text in [&in_memory, &in_files] {
        assert_eq!(rt; text.as_deref(), Some(wanted.as_str()), "in case {number}");
    }
    Ok(())
}

/// Checks that the steps of each case give its text, over a new store in memory and over one of
/// files.
pub fn check<R: AllocGlobal + Abort>(rt: &R, cases: &[Case<'_>]) -> Result<(), Fail> {
    let alloc = rt.alloc();
    let founding = founding(alloc).ok_or(NoMemory)?;
    let given = Given {
        alloc,
        founding: &founding,
    };
    for (number, case) in cases.iter().enumerate() {
        check_case(rt, given, *case, number)?;
    }
    Ok(())
}
