//! The contents of two files, and files in memory with these contents that stop at a call.

use sqlite::{Files, Options};
use sqlite_disk::{Crash, Disk, Fuse, Memory};
use std::alloc::Global;
use std::test::Fail;

/// More calls than any test makes.
pub const MANY: u64 = 100_000;

/// The options with which the program opens files, but with a cache as large as the database.
pub const PLAIN: Options = Options {
    cache_pages: 32,
    spill_pages: 2000,
    checkpoint_frames: 1000,
    seed: 1,
};

/// The same, with all commits copied into the main file before each further write.
pub const COPYING: Options = Options {
    cache_pages: 32,
    spill_pages: 2000,
    checkpoint_frames: 0,
    seed: 1,
};

/// The file whose calls fail from some call on.
#[derive(Clone, Copy, Debug)]
pub enum Stops {
    Db,
    Log,
}

/// What happens to the files after a stop.
#[derive(Clone, Copy, Debug)]
pub enum Fate {
    /// The machine stops: writes that were not synced are lost.
    Crash,
    /// Only the process stops: all writes are kept.
    Exit,
}

/// A stop of a file after this many calls.
#[derive(Clone, Copy, Debug)]
pub struct Stop {
    pub file: Stops,
    pub fate: Fate,
    pub calls: u64,
}

impl Stop {
    /// No stop.
    pub const NEVER: Stop = Stop {
        file: Stops::Log,
        fate: Fate::Exit,
        calls: u64::MAX,
    };
}

/// The contents of the two files.
#[derive(Drop)]
pub struct Image {
    log: Vec<u8>,
    db: Vec<u8>,
}

/// Two files, one of which stops.
pub type Stopping = Files<Fuse<Memory>>;

/// Returns empty contents.
pub fn nothing(alloc: Global) -> Image {
    Image {
        log: Vec::new(alloc),
        db: Vec::new(alloc),
    }
}

fn copy_of(alloc: Global, bytes: &[u8]) -> Result<Memory, Fail> {
    let mut file = Memory::new(alloc);
    file.write_at(0, bytes)?;
    file.sync()?;
    Ok(file)
}

/// Returns files with these contents, one of which stops.
pub fn files_of(alloc: Global, image: &Image, stop: Stop) -> Result<Stopping, Fail> {
    let log = copy_of(alloc, image.log.as_slice())?;
    let db = copy_of(alloc, image.db.as_slice())?;
    let (log_calls, db_calls) = match stop.file {
        Stops::Log => (stop.calls, u64::MAX),
        Stops::Db => (u64::MAX, stop.calls),
    };
    Ok(Files {
        log: Fuse::new(log, log_calls),
        db: Fuse::new(db, db_calls),
    })
}

fn image_of(alloc: Global, files: &Stopping) -> Result<Image, Fail> {
    Ok(Image {
        log: files.log.inner().bytes().to_vec(alloc)?,
        db: files.db.inner().bytes().to_vec(alloc)?,
    })
}

fn has_call<D: Disk>(file: &mut D) -> bool {
    file.may_be_used() && file.len().is_ok()
}

/// Returns what is left of the files, and whether the file has not stopped and will not at its next
/// call.
pub fn left_by(alloc: Global, mut files: Stopping, stop: Stop) -> Result<(Image, bool), Fail> {
    let is_whole = match stop.file {
        Stops::Db => has_call(&mut files.db),
        Stops::Log => has_call(&mut files.log),
    };
    match stop.fate {
        Fate::Crash => {
            files.log.crash();
            files.db.crash();
        }
        Fate::Exit => {}
    }
    Ok((image_of(alloc, &files)?, is_whole))
}

/// Returns whether the contents are the same. Opened again, they then behave the same.
pub fn are_same(first: &Image, other: &Image) -> bool {
    first.log.as_slice() == other.log.as_slice() && first.db.as_slice() == other.db.as_slice()
}
