//! Notes why the last call of this machine failed that did, and keeps the bytes of its input, so that
//! the cause of a failure can be said.

ghost use Rattle.std.specs.Prelude.{⊤, None};

use byte_streams::{Broken, ByteReader, ByteWriter};
use registry_program::{About, Cause};
use std::alloc::{AllocError, Global};
use std::cell::Cell;
use std::io;
use std::io::{ErrorKind, Read, Stderr, Write};

/// Why a call failed.
#[derive(Clone, Copy, Drop)]
pub enum Trouble {
    /// The system's error.
    System(io::Error),
    /// What is known of it, in a few words.
    Known(&'static str),
    /// The folder of the store may not be written.
    Folder,
    /// The input has so many bytes, more than so many.
    TooLong(u64, u64),
    /// The log has another record than the store, from this line on.
    OtherRecord(u32),
}

/// The most bytes that are kept of an input.
const MOST_KEPT: usize = 16 * 1024 * 1024;

/// What is known of the last call that failed, and of the input.
#[derive(Drop)]
pub struct Notes {
    last: Cell<Option<(About, Trouble)>>,
    kept: Cell<Option<Vec<u8>>>,
}

impl Notes {
    /// Returns the notes before any call. They keep the input only if that is asked for.
    pub fn new(alloc: Global, keeps: bool) -> Notes {
        Notes {
            last: Cell::new(None),
            kept: Cell::new(if keeps { Some(Vec::new(alloc)) } else { None }),
        }
    }

    /// Keeps the next bytes of the input. Keeps nothing of an input that has too many or for which
    /// memory runs out.
    fn keep(&self, bytes: &[u8]) {
        if let Some(mut kept) = self.kept.replace(None) {
            let fits = kept.len().saturating_add(bytes.len()) <= MOST_KEPT;
            if fits && kept.extend_from_slice(bytes).is_ok() {
                self.kept.set(Some(kept));
            }
        }
    }

    /// Returns the bytes that are kept, and keeps none from now on.
    pub fn take_kept(&self) -> Option<Vec<u8>> {
        self.kept.replace(None)
    }

    pub fn note(&self, about: About, trouble: Trouble) {
        self.last.set(Some((about, trouble)));
    }

    /// Does the same if nothing is noted.
    pub fn note_first(&self, about: About, trouble: Trouble) {
        if self.last.get().is_none() {
            self.note(about, trouble);
        }
    }

    /// Returns what is noted, in words, of a store in this folder.
    pub fn cause(&self, alloc: Global, folder: &str) -> Result<Option<Cause>, AllocError> {
        match self.last.get() {
            Some((about, trouble)) => {
                let words = words_of(alloc, trouble, folder)?;
                Ok(Some(Cause { about, words }))
            }
            None => Ok(None),
        }
    }
}

/// Returns the words for an error of the system, as this program uses them.
fn words_of_kind(kind: ErrorKind) -> Option<&'static str> {
    match kind {
        ErrorKind::NotFound => Some("no such file or folder"),
        ErrorKind::PermissionDenied => Some("permission denied"),
        ErrorKind::StorageFull => Some("no space left on the device"),
        ErrorKind::QuotaExceeded => Some("no space left in the quota"),
        ErrorKind::FileTooLarge => Some("larger than a file may be"),
        ErrorKind::ReadOnlyFilesystem => Some("read-only file system"),
        ErrorKind::IsADirectory => Some("is a folder"),
        ErrorKind::NotADirectory => Some("a part of its path is not a folder"),
        ErrorKind::InvalidFilename => Some("its path or a name in it is too long"),
        ErrorKind::FilesystemLoop => Some("its links lead in a circle"),
        ErrorKind::WouldBlock | ErrorKind::AddrInUse => Some("in use by another process"),
        ErrorKind::BrokenPipe => Some("its reader is gone"),
        _ => None,
    }
}

fn words_of(alloc: Global, trouble: Trouble, folder: &str) -> Result<String, AllocError> {
    match trouble {
        Trouble::Folder => format!(in alloc; "permission denied in its folder {folder}"),
        Trouble::TooLong(length, most) => {
            format!(in alloc; "has {length} bytes; it may have at most {most}")
        }
        Trouble::OtherRecord(n) => {
            format!(in alloc; "has another record than the store, from line {n} on")
        }
        Trouble::Known(words) => String::from_str(alloc, words),
        Trouble::System(error) => match words_of_kind(error.kind()) {
            Some(words) => String::from_str(alloc, words),
            None => format!(in alloc; "{error}"),
        },
    }
}

/// A reader or a writer whose failures are noted. The bytes of an input are kept.
#[derive(Drop)]
pub struct Noted<'a, T: Drop> {
    stream: T,
    about: About,
    notes: &'a Notes,
}

impl<'a, T: Drop> Noted<'a, T> {
    pub fn new(stream: T, about: About, notes: &'a Notes) -> Noted<'a, T> {
        Noted {
            stream,
            about,
            notes,
        }
    }
}

// What a system call does is not known, so these relations hold of every call.
impl<T: Read + Drop> ByteReader for Noted<'_, T> {
    ghost remaining = { λ _. None };

    ghost reads = { λ _ _ _ _. ⊤ };

    ghost fails = { λ _ _. ⊤ };

    fn read(&mut self, room: &mut [u8]) -> Result<usize, Broken> {
        match self.stream.read(room) {
            Ok(count) => {
                self.notes.keep(&room[..count.min(room.len())]);
                Ok(count)
            }
            Err(error) => {
                self.notes.note(self.about, Trouble::System(error));
                Err(Broken)
            }
        }
    }
}

// What a system call does is not known, so these relations hold of every call.
impl<T: Write + Drop> ByteWriter for Noted<'_, T> {
    ghost contents = { λ _. None };

    ghost writes = { λ _ _ _ _. ⊤ };

    ghost fails = { λ _ _. ⊤ };

    fn write(&mut self, bytes: &[u8]) -> Result<usize, Broken> {
        match self.stream.write(bytes) {
            Ok(count) => Ok(count),
            Err(error) => {
                self.notes.note(self.about, Trouble::System(error));
                Err(Broken)
            }
        }
    }
}

/// The error output. Its failures are not noted.
#[derive(Drop)]
pub struct Errors(pub Stderr);

// What a system call does is not known, so these relations hold of every call.
impl ByteWriter for Errors {
    ghost contents = { λ _. None };

    ghost writes = { λ _ _ _ _. ⊤ };

    ghost fails = { λ _ _. ⊤ };

    fn write(&mut self, bytes: &[u8]) -> Result<usize, Broken> {
        match self.0.write(bytes) {
            Ok(count) => Ok(count),
            Err(_) => Err(Broken),
        }
    }
}
