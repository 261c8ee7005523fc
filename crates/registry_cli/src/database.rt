//! Reads the pages of a database file and its log as they are, to say what they hold. It uses no
//! engine, and writes nothing. The formats are those of SQLite's "Database File Format",
//! <https://www.sqlite.org/fileformat2.html>.

use crate::cells::{four_at, number_at, text_at, two_at};
use std::alloc::Global;
use std::fs::File;
use std::os::unix::fs::FileExt;
use std::{fs, io};

/// The bytes with which a database begins.
const FORMAT: &[u8] = b"SQLite format 3\0";

/// The length of a database's header.
pub const HEADER: usize = 100;

/// The greatest size of a page.
pub const MOST: usize = 65_536;

/// The lengths of a log's header, and of the header of one of its frames.
const LOG_HEADER: u64 = 32;

const FRAME_HEADER: u64 = 24;

/// The most pages of a tree that are visited.
const MOST_VISITED: usize = 64;

/// A database file, with the frames of its log that are committed.
#[derive(Drop)]
pub struct Database {
    file: File,
    log: Option<File>,
    /// The bytes of the file.
    pub length: u64,
    /// The size of a page.
    pub size: usize,
    /// The number of pages, by the header of the file, or 0 if that may be out of date.
    pub pages: u64,
    /// The reserved bytes at the end of a page.
    pub reserved: usize,
    /// The number of the frames of the log up to its last commit.
    pub committed: u64,
}

/// The number of frames up to the last commit of a log whose pages have this size.
fn committed_in(log: &File, size: usize) -> io::Result<u64> {
    let length = log.metadata()?.len();
    let mut header = [0u8; 32];
    if length < LOG_HEADER {
        return Ok(0);
    }
    log.read_exact_at(&mut header, 0)?;
    let step = FRAME_HEADER.saturating_add(size as u64);
    let count = length
        .saturating_sub(LOG_HEADER)
        .checked_div(step)
        .unwrap_or(0);
    let mut committed = 0u64;
    for number in 0..count {
        let mut frame = [0u8; 24];
        log.read_exact_at(
            &mut frame,
            LOG_HEADER.saturating_add(number.saturating_mul(step)),
        )?;
        if &frame[8..16] != &header[16..24] {
            return Ok(committed);
        }
        if four_at(&frame, 4) != Some(0) {
            committed = number.saturating_add(1);
        }
    }
    Ok(committed)
}

/// The number of pages by a header, or 0 if its number is that of an earlier change.
fn pages_by(header: &[u8]) -> u64 {
    if four_at(header, 24) == four_at(header, 92) {
        u64::from(four_at(header, 28).unwrap_or(0))
    } else {
        0
    }
}

/// Opens a database to look at it, or returns `None` if the file is none.
pub fn open_database(rt: &HostRuntime, alloc: Global, path: &str) -> io::Result<Option<Database>> {
    let file = fs::open(rt, path)?;
    let length = file.metadata()?.len();
    let mut header = [0u8; HEADER];
    if length < HEADER as u64 {
        return Ok(None);
    }
    file.read_exact_at(&mut header, 0)?;
    if !header.starts_with(FORMAT) {
        return Ok(None);
    }
    let size = two_at(&header, 16).unwrap_or(0);
    let size = if size == 1 { MOST } else { size };
    if size < 512 || size > MOST {
        return Ok(None);
    }
    let log = fs::open(rt, format!(in alloc; "{path}-wal")?.as_str()).ok();
    let committed = match &log {
        Some(log) => committed_in(log, size)?,
        None => 0,
    };
    Ok(Some(Database {
        file,
        log,
        length,
        size,
        pages: pages_by(&header),
        reserved: usize::from(header[20]),
        committed,
    }))
}

impl Database {
    /// Reads a page of the file, from 1.
    pub fn read_from_file(&self, number: u64, page: &mut [u8]) -> io::Result<()> {
        let at = number.saturating_sub(1).saturating_mul(self.size as u64);
        self.file.read_exact_at(page, at)
    }

    /// Reads a page, from 1, as the log has it, or else the file.
    fn read(&self, number: u32, page: &mut [u8]) -> io::Result<()> {
        if let Some(log) = &self.log {
            let step = FRAME_HEADER.saturating_add(self.size as u64);
            for back in 0..self.committed {
                let index = self.committed.saturating_sub(back).saturating_sub(1);
                let at = LOG_HEADER.saturating_add(index.saturating_mul(step));
                let mut frame = [0u8; 24];
                log.read_exact_at(&mut frame, at)?;
                if four_at(&frame, 0) == Some(number) {
                    return log.read_exact_at(page, at.saturating_add(FRAME_HEADER));
                }
            }
        }
        self.read_from_file(u64::from(number), page)
    }

    /// The leaves of the tree of a table, by its root, or `None` if a page of it is none of such a tree.
    fn leaves(
        &self,
        alloc: Global,
        root: u32,
        room: &mut [u8; MOST],
    ) -> io::Result<Option<Leaves>> {
        let mut open = Vec::new(alloc);
        open.push(root)?;
        let mut pages = Vec::new(alloc);
        for _ in 0..MOST_VISITED {
            let Some(number) = open.pop() else {
                break;
            };
            let page = &mut room[..self.size.min(MOST)];
            self.read(number, page)?;
            match page.get(head_of(number)) {
                Some(13) => pages.push(number)?,
                Some(5) => add_children(page, number, &mut open)?,
                _ => return Ok(None),
            }
        }
        let is_whole = open.is_empty();
        Ok(Some(Leaves { pages, is_whole }))
    }
}

/// The leaves of the tree of a table.
#[derive(Drop)]
struct Leaves {
    /// Their pages, in the order of the tree.
    pages: Vec<u32>,
    /// Whether these are all.
    is_whole: bool,
}

/// The place in a page at which its own header begins.
fn head_of(number: u32) -> usize {
    if number == 1 { HEADER } else { 0 }
}

/// The page below the cell with this index of an inner page of a table.
fn child_at(page: &[u8], number: u32, index: usize) -> Option<u32> {
    let first = head_of(number).checked_add(12)?;
    let cell = two_at(page, first.checked_add(index.checked_mul(2)?)?)?;
    four_at(page, cell)
}

/// Adds the pages below an inner page of a table, so that the first is the last of them.
fn add_children(page: &[u8], number: u32, open: &mut Vec<u32>) -> io::Result<()> {
    let head = head_of(number);
    let count = two_at(page, head.saturating_add(3)).unwrap_or(0);
    if let Some(last) = four_at(page, head.saturating_add(8)) {
        open.push(last)?;
    }
    for back in 0..count {
        let index = count.saturating_sub(back).saturating_sub(1);
        if let Some(child) = child_at(page, number, index) {
            open.push(child)?;
        }
    }
    Ok(())
}

/// The number of cells of a page that is a leaf.
fn count_of(page: &[u8], number: u32) -> usize {
    two_at(page, head_of(number).saturating_add(3)).unwrap_or(0)
}

/// The cell with this index of a page that is a leaf.
fn cell_at(page: &[u8], number: u32, index: usize) -> Option<&[u8]> {
    let first = head_of(number).checked_add(8)?;
    let at = two_at(page, first.checked_add(index.checked_mul(2)?)?)?;
    page.get(at..)
}

/// What the table of schemas has.
#[derive(Drop)]
pub struct Schema {
    /// The names of its tables, in their order.
    pub tables: Vec<String>,
    /// The root of the table `meta`.
    pub meta: Option<u32>,
    /// Whether these are all tables.
    pub is_whole: bool,
}

/// Adds an entry of the table of schemas, if it is a table.
fn add_entry(alloc: Global, schema: &mut Schema, cell: &[u8]) -> io::Result<()> {
    let (Some(kind), Some(name)) = (text_at(cell, 0), text_at(cell, 1)) else {
        return Ok(());
    };
    if kind != "table" {
        return Ok(());
    }
    if name == "meta" {
        schema.meta = match number_at(cell, 3) {
            Some(root) => u32::try_from(root).ok(),
            None => None,
        };
    }
    schema.tables.push(String::from_str(alloc, name)?)?;
    Ok(())
}

/// Adds the entries of a leaf of the table of schemas that are tables.
fn add_entries(alloc: Global, schema: &mut Schema, page: &[u8], number: u32) -> io::Result<()> {
    for index in 0..count_of(page, number) {
        if let Some(cell) = cell_at(page, number, index) {
            add_entry(alloc, schema, cell)?;
        }
    }
    Ok(())
}

/// The tables of a database, or `None` if a page that names them is none of a table.
pub fn schema_of(alloc: Global, database: &Database) -> io::Result<Option<Schema>> {
    let mut room = [0u8; MOST];
    let Some(leaves) = database.leaves(alloc, 1, &mut room)? else {
        return Ok(None);
    };
    let mut schema = Schema {
        tables: Vec::new(alloc),
        meta: None,
        is_whole: leaves.is_whole,
    };
    for number in &leaves.pages {
        let page = &mut room[..database.size.min(MOST)];
        database.read(*number, page)?;
        add_entries(alloc, &mut schema, page, *number)?;
    }
    Ok(Some(schema))
}

/// The version in the last row of `meta`.
#[derive(Clone, Copy, Debug, PartialEq, Eq)]
pub enum Version {
    /// This whole number.
    Known(u64),
    /// There is no row, or its version is no whole number, or is negative.
    None,
    /// A page of the table is none of a table, or there are too many.
    Unseen,
}

/// The version in the last cell of a page.
fn version_in(page: &[u8], number: u32) -> Version {
    let Some(last) = count_of(page, number).checked_sub(1) else {
        return Version::None;
    };
    match cell_at(page, number, last) {
        Some(cell) => match number_at(cell, 1) {
            Some(version) => Version::Known(version),
            None => Version::None,
        },
        None => Version::Unseen,
    }
}

/// The version in the last row of `meta`, by the root of that table.
pub fn version_of(alloc: Global, database: &Database, meta: u32) -> io::Result<Version> {
    let mut room = [0u8; MOST];
    let Some(leaves) = database.leaves(alloc, meta, &mut room)? else {
        return Ok(Version::Unseen);
    };
    match leaves.pages.last() {
        Some(number) if leaves.is_whole => {
            let page = &mut room[..database.size.min(MOST)];
            database.read(*number, page)?;
            Ok(version_in(page, *number))
        }
        _ => Ok(Version::Unseen),
    }
}
