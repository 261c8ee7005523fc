//! Looks at the files of a store that could not be used, and says what they are.

use crate::database::{Database, MOST, Schema, Version, open_database, schema_of, version_of};
use std::alloc::{AllocError, Global};
use std::fs::Metadata;
use std::os::unix::fs::{FileTypeExt, MetadataExt};
use std::{fs, io};

/// The bytes at the end of a page that hold its sum.
const SUM: usize = 8;

/// The newest schema, and its tables in their order, as docs/schema.md has them. An older one has the
/// first of these.
const NEWEST: u64 = 5;

const TABLES: [&str; 18] = [
    "meta",
    "curators",
    "licences",
    "fixed",
    "orgs",
    "petitions",
    "entries",
    "reserved",
    "kept",
    "spans",
    "vendors",
    "spans3",
    "entries3",
    "petitions3",
    "digests4",
    "reasons4",
    "opened5",
    "closed5",
];

/// The most characters that are shown of a name.
const MOST_SHOWN: usize = 64;

/// Returns what is at a path, where that cannot be a store.
fn kind_of(found: &Metadata) -> Option<&'static str> {
    let kind = found.file_type();
    if kind.is_dir() {
        Some("is a folder")
    } else if kind.is_fifo() {
        Some("is a FIFO")
    } else if !kind.is_file() {
        Some("is not a file")
    } else if found.nlink() != 1 {
        Some("has more than one name, by hard links")
    } else {
        None
    }
}

/// Returns why there is no store at a path.
pub fn why_missing(rt: &HostRuntime, path: &str) -> &'static str {
    if path.is_empty() {
        return "no file has an empty name";
    }
    match fs::symlink_metadata(rt, path) {
        Ok(found) if found.is_symlink() => "a link that leads nowhere",
        _ => "no such file",
    }
}

/// Returns why the engine opens no store at a path, where it says only that it does not.
pub fn why_unsupported(rt: &HostRuntime, path: &str) -> &'static str {
    match fs::metadata(rt, path) {
        Ok(found) => kind_of(&found).unwrap_or("its log is not a file, or has more than one name"),
        Err(_) => why_missing(rt, path),
    }
}

/// Returns the sum of a page without the last `SUM` bytes, by SQLite's extension cksumvfs,
/// <https://www.sqlite.org/cksumvfs.html>.
fn sum_of(page: &[u8]) -> [u8; SUM] {
    let mut first: u32 = 0;
    let mut second: u32 = 0;
    for bytes in page.chunks_exact(8) {
        if let [a, b, c, d, e, f, g, h] = bytes {
            let low = u32::from_le_bytes([*a, *b, *c, *d]);
            let high = u32::from_le_bytes([*e, *f, *g, *h]);
            first = first.wrapping_add(low).wrapping_add(second);
            second = second.wrapping_add(high).wrapping_add(first);
        }
    }
    let ([a, b, c, d], [e, f, g, h]) = (first.to_le_bytes(), second.to_le_bytes());
    [a, b, c, d, e, f, g, h]
}

/// Returns whether a page has its sum at its end.
fn has_sum(page: &[u8]) -> bool {
    let end = page.len().saturating_sub(SUM);
    &page[end..] == sum_of(&page[..end]).as_slice()
}

/// What the bytes of a page can show.
#[derive(Clone, Copy, Debug, PartialEq, Eq)]
enum Flaw {
    WrongSum,
    /// It has no bit. The sum of such a page is right.
    OnlyZeros,
}

fn has_flaw(page: &[u8], flaw: Flaw) -> bool {
    match flaw {
        Flaw::WrongSum => !has_sum(page),
        Flaw::OnlyZeros => page.iter().all(|byte| *byte == 0),
    }
}

/// Returns the number of the first page of the file, from 1, that has a flaw.
fn first_with(database: &Database, flaw: Flaw) -> io::Result<Option<u64>> {
    let mut room = [0u8; MOST];
    let count = database
        .length
        .checked_div(database.size as u64)
        .unwrap_or(0);
    for index in 0..count {
        let number = index.saturating_add(1);
        let page = &mut room[..database.size.min(MOST)];
        database.read_from_file(number, page)?;
        if has_flaw(page, flaw) {
            return Ok(Some(number));
        }
    }
    Ok(None)
}

/// Returns the words for the length of a file without commits in its log, if that is not the one that
/// its header says.
fn bad_length(alloc: Global, database: &Database) -> Result<Option<String>, AllocError> {
    let (length, pages, size) = (database.length, database.pages, database.size);
    if database.committed > 0 || pages == 0 || length == pages.saturating_mul(size as u64) {
        return Ok(None);
    }
    Ok(Some(format!(in alloc;
        "has {length} bytes; by its header it has {pages} pages of {size} bytes"
    )?))
}

/// Returns the front of a name, in as many characters as are shown.
fn front_of(alloc: Global, name: &str) -> Result<String, AllocError> {
    let mut front = String::new(alloc);
    let mut count = 0usize;
    for character in name.chars() {
        if count >= MOST_SHOWN {
            front.push_str("..")?;
            return Ok(front);
        }
        front.push(character)?;
        count = count.saturating_add(1);
    }
    Ok(front)
}

/// Returns how many tables a schema has, if it is known.
fn count_in(version: u64) -> Option<usize> {
    match version {
        1 => Some(9),
        2 => Some(10),
        3 => Some(14),
        4 => Some(16),
        5 => Some(18),
        _ => None,
    }
}

/// Returns the words for the first table that is in the place of another one.
fn other_table(alloc: Global, schema: &Schema) -> Result<Option<String>, AllocError> {
    let mut number = 0usize;
    for table in &schema.tables {
        let wanted = TABLES.get(number);
        number = number.saturating_add(1);
        match wanted {
            Some(wanted) if table.as_str() == *wanted => {}
            Some(wanted) => {
                let front = front_of(alloc, table.as_str())?;
                return Ok(Some(format!(in alloc;
                    "has {front} as its table {number}, where a registry has {wanted}"
                )?));
            }
            None => {
                let front = front_of(alloc, table.as_str())?;
                return Ok(Some(format!(in alloc;
                    "has a further table {front}, which no registry has"
                )?));
            }
        }
    }
    Ok(None)
}

/// Returns the words for tables that are in their places, but not as many as the schema of this version
/// has.
fn other_count(alloc: Global, schema: &Schema, version: u64) -> Result<Option<String>, AllocError> {
    let count = schema.tables.len();
    match count_in(version) {
        Some(wanted) if schema.is_whole && count != wanted => Ok(Some(format!(in alloc;
            "has the first {count} tables of a registry; one of schema {version} has {wanted}"
        )?)),
        None if schema.is_whole => Ok(Some(format!(in alloc;
            "has the first {count} tables of a registry, and version {version}, which none has"
        )?)),
        _ => Ok(None),
    }
}

/// Returns whether the first tables are those of a registry.
fn begins_as_registry(schema: &Schema) -> bool {
    match schema.tables.as_slice() {
        [first, second, ..] => first.as_str() == TABLES[0] && second.as_str() == TABLES[1],
        _ => false,
    }
}

/// Returns the words for a database that has a table `meta`, if it is no registry of a known schema.
fn other_registry(
    alloc: Global,
    database: &Database,
    schema: &Schema,
    meta: u32,
) -> io::Result<Option<String>> {
    let version = match version_of(alloc, database, meta)? {
        Version::Known(version) => version,
        Version::None => {
            return Ok(Some(String::from_str(alloc, "has a table meta without a version")?));
        }
        Version::Unseen => return Ok(None),
    };
    if version > NEWEST && begins_as_registry(schema) {
        return Ok(Some(format!(in alloc;
            "a registry of schema {version}; this usbreg knows schemas up to {NEWEST}"
        )?));
    }
    match other_table(alloc, schema)? {
        Some(words) => Ok(Some(words)),
        None => Ok(other_count(alloc, schema, version)?),
    }
}

/// Returns whether a table of a registry has this name.
fn is_known(name: &str) -> bool {
    for table in TABLES {
        if table == name {
            return true;
        }
    }
    false
}

/// Returns how many tables have the name of one of a registry.
fn count_known(schema: &Schema) -> usize {
    let mut count = 0usize;
    for table in &schema.tables {
        if is_known(table.as_str()) {
            count = count.saturating_add(1);
        }
    }
    count
}

/// Returns what a database holds in the place of a registry.
fn contents_of(alloc: Global, database: &Database) -> io::Result<Option<String>> {
    let Some(schema) = schema_of(alloc, database)? else {
        return Ok(None);
    };
    if let Some(meta) = schema.meta {
        return other_registry(alloc, database, &schema, meta);
    }
    if count_known(&schema) >= 2 {
        return Ok(other_table(alloc, &schema)?);
    }
    match schema.tables.first() {
        Some(table) => {
            let front = front_of(alloc, table.as_str())?;
            Ok(Some(format!(in alloc;
                "the database of another program; its first table is {front}"
            )?))
        }
        None => Ok(Some(String::from_str(
            alloc,
            "a database without tables, as an empty file becomes one; if it had a registry, restore a backup",
        )?)),
    }
}

/// Returns what a look at the file of a store shows: a fault of a page, a wrong length, or what it holds
/// in the place of a registry.
fn seen_in(rt: &HostRuntime, alloc: Global, path: &str) -> io::Result<Option<String>> {
    let Some(database) = open_database(rt, alloc, path)? else {
        return Ok(Some(String::from_str(alloc, "not a database")?));
    };
    if database.reserved == SUM {
        if let Some(number) = first_with(&database, Flaw::WrongSum)? {
            return Ok(Some(format!(in alloc; "page {number} has a wrong checksum")?));
        }
    }
    if let Some(words) = bad_length(alloc, &database)? {
        return Ok(Some(words));
    }
    if let Some(words) = contents_of(alloc, &database)? {
        return Ok(Some(words));
    }
    match first_with(&database, Flaw::OnlyZeros)? {
        Some(number) => Ok(Some(format!(in alloc; "page {number} has only zeros")?)),
        None => Ok(None),
    }
}

/// Returns what is seen of a store that was opened and then failed: another kind of file, a damaged one,
/// or one without a registry of a known schema.
pub fn look(rt: &HostRuntime, alloc: Global, path: &str) -> io::Result<Option<String>> {
    let found = fs::metadata(rt, path)?;
    if let Some(words) = kind_of(&found) {
        return Ok(Some(String::from_str(alloc, words)?));
    }
    if found.len() == 0 {
        return Ok(Some(String::from_str(alloc, "an empty file")?));
    }
    seen_in(rt, alloc, path)
}

/// Returns whether a database has a table `meta`, as each registry has.
pub fn has_meta(rt: &HostRuntime, alloc: Global, path: &str) -> io::Result<bool> {
    let Some(database) = open_database(rt, alloc, path)? else {
        return Ok(false);
    };
    match schema_of(alloc, &database)? {
        Some(schema) => Ok(schema.meta.is_some()),
        None => Ok(false),
    }
}
