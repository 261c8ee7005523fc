//! The empty database that a new store begins as. The engine gives a new file pages of 4,096 bytes;
//! pages of this size cost less work for each commit, and a store keeps the page size of its first page.

ghost use Rattle.std.specs.Prelude.{IfErr};
ghost use Rattle.registry_commands.specs.Failures.{IsOfStore};

use crate::notes::{Notes, Trouble};
use registry_commands::Failure;
use registry_program::{About, Making, Standing, is_blank, making_of};
use std::fs::{File, OpenOptions};
use std::io::ErrorKind;
use std::os::unix::fs::{FileExt, MetadataExt, OpenOptionsExt, fchown};
use std::{fs, io};

const PAGE_SIZE: usize = 1024;

/// The file header: "The Database Header" in SQLite's "Database File Format",
/// <https://www.sqlite.org/fileformat2.html>.
const FILE_HEADER: [u8; 100] = [
    // The name of the format.
    b'S', b'Q', b'L', b'i', b't', b'e', b' ', b'f', b'o', b'r', b'm', b'a', b't', b' ', b'3', 0,
    // The page size, 1,024.
    4, 0,
    // The versions for writing and for reading: 2 for a write-ahead log.
    2, 2,
    // The reserved bytes at the end of each page, which hold its sum.
    8,
    // The payload fractions, which are fixed.
    64, 32, 32,
    // The change counter.
    0, 0, 0, 1,
    // The number of pages.
    0, 0, 0, 1,
    // The first free page, and the number of free pages.
    0, 0, 0, 0, 0, 0, 0, 0,
    // The schema cookie.
    0, 0, 0, 0,
    // The schema format.
    0, 0, 0, 4,
    // The size of the cache, and the largest root page, which is 0 without auto-vacuum.
    0, 0, 0, 0, 0, 0, 0, 0,
    // The encoding of texts: UTF-8.
    0, 0, 0, 1,
    // The user version, incremental vacuum, and the application ID.
    0, 0, 0, 0, 0, 0, 0, 0, 0, 0, 0, 0,
    // Reserved.
    0, 0, 0, 0, 0, 0, 0, 0, 0, 0, 0, 0, 0, 0, 0, 0, 0, 0, 0, 0,
    // The change counter at which the next number was valid.
    0, 0, 0, 1,
    // The version of SQLite that wrote the file: 3,040,001.
    0, 46, 99, 1,
];

/// The header of the page, an empty leaf of the table of schemas: the kind, the first free block,
/// the number of cells, where cells begin (1,016), and the number of fragmented bytes.
const LEAF_HEADER: [u8; 8] = [13, 0, 0, 0, 0, 3, 248, 0];

/// The sum of the page, by SQLite's extension cksumvfs, <https://www.sqlite.org/cksumvfs.html>.
const SUM: [u8; 8] = [110, 168, 217, 73, 4, 89, 165, 179];

/// Returns the only page of an empty database.
fn blank_page() -> [u8; PAGE_SIZE] {
    let mut page = [0u8; PAGE_SIZE];
    page[..100].copy_from_slice(&FILE_HEADER);
    page[100..108].copy_from_slice(&LEAF_HEADER);
    page[PAGE_SIZE - 8..].copy_from_slice(&SUM);
    page
}

/// Returns what stands at a path. It follows no link.
fn standing_at(rt: &HostRuntime, path: &str) -> io::Result<Standing> {
    match fs::symlink_metadata(rt, path) {
        Ok(found) if found.is_file() => Ok(Standing::File(found.len())),
        Ok(_) => Ok(Standing::Other),
        Err(error) if error.kind() == ErrorKind::NotFound => Ok(Standing::Nothing),
        Err(error) => Err(error),
    }
}

/// Returns what is done before the store at a path is opened. The engine opens no file by the names
/// that are left out.
fn making_at(rt: &HostRuntime, store: &str) -> io::Result<Making> {
    if store.is_empty() || store == ":memory:" || store.starts_with("file:") {
        return Ok(Making::Leave);
    }
    let found = standing_at(rt, store)?;
    if !is_blank(found) {
        // Only the log of a new store is looked for.
        return Ok(making_of(found, Standing::Nothing));
    }
    let log = format!(in rt.alloc(); "{store}-wal")?;
    Ok(making_of(found, standing_at(rt, log.as_str())?))
}

/// Returns whether to make the store. It fails if the log of the store may hold commits.
fn is_to_make(rt: &HostRuntime, store: &str) -> io::Result<bool> {
    match making_at(rt, store)? {
        Making::Make => Ok(true),
        Making::Leave => Ok(false),
        Making::Refuse => Err(ErrorKind::AlreadyExists.into()),
    }
}

/// Opens a file for this process alone, and makes it if it does not exist. Another process that
/// makes the same store fails here, so it cannot put an empty store in the place of a founded one.
fn open_alone(rt: &HostRuntime, path: &str) -> io::Result<File> {
    let file = OpenOptions::new()
        .write(true)
        .create(true)
        .mode(0o644)
        .open(rt, path)?;
    file.try_lock()?;
    // The process that had the lock before may have given the file the name of the store.
    let (locked, named) = (file.metadata()?, fs::symlink_metadata(rt, path)?);
    if locked.dev() != named.dev() || locked.ino() != named.ino() {
        return Err(ErrorKind::WouldBlock.into());
    }
    Ok(file)
}

/// Gives the file the mode of the store, if that exists, and its owner and group where this process
/// may set them.
fn copy_access(rt: &HostRuntime, store: &str, file: &File) -> io::Result<()> {
    let Ok(found) = fs::symlink_metadata(rt, store) else {
        return Ok(());
    };
    let _ = fchown(file, Some(found.uid()), Some(found.gid()));
    file.set_permissions(found.permissions())
}

/// Syncs the folder of a file.
fn sync_folder(rt: &HostRuntime, path: &str) -> io::Result<()> {
    let mut folder = fs::canonicalize(rt, path)?;
    folder.pop();
    File::open(rt, folder.as_str())?.sync_all()
}

/// Writes the empty database to a file, with the access of the store, and syncs it.
fn fill(rt: &HostRuntime, store: &str, file: &File) -> io::Result<()> {
    copy_access(rt, store, file)?;
    file.set_len(0)?;
    file.write_all_at(&blank_page(), 0)?;
    file.sync_all()
}

/// Makes the store under another name, which it changes at the end, so that a stop leaves the store
/// whole or as it was.
fn make_as(rt: &HostRuntime, made: &str, store: &str) -> io::Result<()> {
    let file = open_alone(rt, made)?;
    // Another process may have made the store since the first look.
    if !is_to_make(rt, store)? {
        return fs::remove_file(rt, made);
    }
    fill(rt, store, &file)?;
    fs::rename(rt, made, store)?;
    sync_folder(rt, store)
}

/// Makes the store if it does not exist or has no bytes.
fn make(rt: &HostRuntime, store: &str) -> io::Result<()> {
    if !is_to_make(rt, store)? {
        return Ok(());
    }
    let made = format!(in rt.alloc(); "{store}-new")?;
    make_as(rt, made.as_str(), store)
}

/// Returns why a store could not be made.
fn trouble_of(error: io::Error) -> Trouble {
    match error.kind() {
        ErrorKind::AlreadyExists => Trouble::Known("the log beside it belongs to another file"),
        ErrorKind::NotFound => Trouble::Known("its folder does not exist"),
        ErrorKind::PermissionDenied => Trouble::Folder,
        _ => Trouble::System(error),
    }
}

/// Makes the store as an empty database if it does not exist or has no bytes. Otherwise it changes
/// nothing.
///
/// # Errors
///
/// `Memory` when out of memory; `Store` if the file cannot be made.
pub fn make_store(rt: &HostRuntime, notes: &Notes, store: &str) -> Result<(), Failure>
    ensures { IfErr result IsOfStore }
{
    match make(rt, store) {
        Ok(()) => Ok(()),
        Err(error) if error.kind() == ErrorKind::OutOfMemory => Err(Failure::Memory),
        Err(error) => {
            notes.note(About::Store, trouble_of(error));
            Err(Failure::Store)
        }
    }
}
