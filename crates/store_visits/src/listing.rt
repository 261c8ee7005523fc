//! The founding, lists and rows of a registry as texts.

use registry_rules::{Reply, Request, Vendor};
use registry_store::Registry;
use sqlite::types::ValueRef;
use sqlite::{Alter, Connection, Row};
use std::alloc::Global;

fn write_founding<S: Alter>(registry: &Registry<S>, text: &mut String) -> bool {
    let founding = registry.founding();
    writeln!(text, "{founding:?}").is_ok()
}

// Adds each list of a registry as a line.
fn write_lists<S: Alter>(registry: &mut Registry<S>, text: &mut String) -> bool {
    let vendors = registry.vendors();
    let orgs = registry.orgs();
    let numbers = registry.numbers();
    let petitions = registry.petitions();
    writeln!(text, "{vendors:?}\n{orgs:?}\n{numbers:?}\n{petitions:?}").is_ok()
}

fn write_spans<S: Alter>(registry: &Registry<S>, vendors: &[Vendor], text: &mut String) -> bool {
    for vendor in vendors {
        let reserved = registry.reserved(vendor.vid);
        if writeln!(text, "{reserved:?}").is_err() {
            return false;
        }
    }
    true
}

// Adds the reserved numbers of each vendor.
fn write_reserved<S: Alter>(registry: &mut Registry<S>, text: &mut String) -> bool {
    match registry.vendors() {
        Ok(vendors) => write_spans(registry, vendors.as_slice(), text),
        Err(_) => false,
    }
}

/// Adds the founding of a registry, all its lists, and the reserved numbers of each vendor.
pub fn write_listing<S: Alter>(registry: &mut Registry<S>, text: &mut String) -> bool {
    write_founding(registry, text) && write_lists(registry, text) && write_reserved(registry, text)
}

// All tables, each in the order of its key.
const QUERIES: [&str; 18] = [
    "SELECT * FROM meta ORDER BY id",
    "SELECT * FROM curators ORDER BY name",
    "SELECT * FROM licences ORDER BY name",
    "SELECT * FROM fixed ORDER BY lo",
    "SELECT * FROM orgs ORDER BY slug",
    "SELECT * FROM kept ORDER BY caller, request_key",
    "SELECT * FROM vendors ORDER BY vid",
    "SELECT * FROM spans3 ORDER BY vid, lo",
    "SELECT * FROM entries3 ORDER BY vid, pid",
    "SELECT * FROM petitions3 ORDER BY id",
    "SELECT * FROM digests4 ORDER BY id",
    "SELECT * FROM reasons4 ORDER BY petition",
    "SELECT * FROM opened5 ORDER BY petition",
    "SELECT * FROM closed5 ORDER BY petition",
    "SELECT * FROM petitions",
    "SELECT * FROM entries",
    "SELECT * FROM reserved",
    "SELECT * FROM spans",
];

fn add_text(bytes: &[u8], text: &mut String) -> bool {
    match std::str::from_utf8(bytes) {
        Ok(part) => write!(text, "{part:?}").is_ok(),
        Err(_) => false,
    }
}

fn add_value(value: ValueRef<'_>, text: &mut String) -> bool {
    match value {
        ValueRef::Null => text.push_str("NULL").is_ok(),
        ValueRef::Int(number) => write!(text, "{number}").is_ok(),
        ValueRef::Real(_) => false,
        ValueRef::Text(bytes) => add_text(bytes, text),
        ValueRef::Blob(bytes) => text.push('x').is_ok() && add_text(bytes, text),
    }
}

fn add_row(row: &Row, text: &mut String) -> bool {
    for at in 0..row.column_count() {
        let Ok(value) = row.get_ref(at) else {
            return false;
        };
        if !add_value(value, text) || text.push('|').is_err() {
            return false;
        }
    }
    text.push('\n').is_ok()
}

/// Adds a line for each row that the query returns.
pub fn add_answer<S: Alter>(conn: &mut Connection<S>, query: &str, text: &mut String) -> bool {
    match conn.query_all(query, &[]) {
        Ok(rows) => rows.iter().all(|row| add_row(row, text)),
        Err(_) => false,
    }
}

/// Adds the rows of all tables, each as a line, with a line before each table.
pub fn write_rows<S: Alter>(conn: &mut Connection<S>, text: &mut String) -> bool {
    for query in QUERIES {
        if writeln!(text, "{query}").is_err() || !add_answer(conn, query, text) {
            return false;
        }
    }
    true
}

/// The results of a poisoned registry for a request, a run and each list.
pub const SPENT: &str =
    "Some(Poisoned)\nErr(Fault(Poisoned)), 0 replies\nErr(Poisoned)\nErr(Poisoned)\nErr(Poisoned)\nErr(Poisoned)\n";

/// Adds the results of a registry for a request, a run and each list.
pub fn write_answers<S: Alter>(
    alloc: Global,
    registry: &mut Registry<S>,
    requests: &[Request],
    text: &mut String,
) -> bool {
    let fault = match requests.first() {
        Some(request) => registry.act(request).err(),
        None => None,
    };
    let mut replies: Vec<Reply> = Vec::new(alloc);
    let run = registry.run_to(requests, 0, &mut replies);
    let count = replies.len();
    writeln!(text, "{fault:?}\n{run:?}, {count} replies").is_ok() && write_lists(registry, text)
}
