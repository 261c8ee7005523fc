//! This machine: its files and its ports.

ghost use Rattle.std.specs.Prelude.{⊤, true, false, IfOk, IfErr, IsTrue};
ghost use Rattle.sqlite.specs.WalFiles.{image_at};
ghost use Rattle.sqlite_std_file.specs.File.{IsFresh, file_is_usable};
ghost use Rattle.registry_commands.specs.Failures.{IsOfStore};
ghost use Rattle.registry_program.specs.Opening.{IsOfFiles};

use crate::blank::make_store;
use crate::look::{has_meta, look, why_missing, why_unsupported};
use crate::notes::{Noted, Notes, Trouble};
use byte_streams::{Broken, Inlet};
use registry_commands::Failure;
use registry_program::{About, Cause, Host};
use sqlite::{FileFrom, Files, Options, Start};
use sqlite_std_file::OpenError;
use std::alloc::Global;
use std::fs;
use std::fs::{File, OpenOptions};
use std::hash::{BuildHasher, RandomState};
use std::io::{Error, ErrorKind, IsTerminal};
use std::net::{Ipv4Addr, TcpListener};

/// This machine, for a command that opens at most one store, whose files hold what `S` says.
#[derive(Drop)]
pub struct Machine<'a, S: Start> {
    pub(crate) rt: &'a HostRuntime,
    pub(crate) notes: &'a Notes,
    start: Option<S>,
    /// Whether the store that was opened had no registry then.
    was_empty: bool,
    pub(crate) listener: Option<TcpListener>,
}

impl<'a, S: Start> Machine<'a, S> {
    ghost use Rattle.std.specs.Prelude.{◌≡◌, false};

    /// Returns the machine before anything was opened. It notes there what fails. Nothing is supposed
    /// of what a crash leaves of a write, so each commit syncs twice.
    pub fn new(rt: &'a HostRuntime, notes: &'a Notes, start: S) -> Machine<'a, S>
        requires { S.Start.is_mixing ≡ false }
    {
        Machine {
            rt,
            notes,
            start: Some(start),
            was_empty: false,
            listener: None,
        }
    }
}

/// Returns the options for a store: the log's sums start from a random number.
fn options(rt: &HostRuntime, notes: &Notes) -> Result<Options, Failure>
    ensures { IfErr result IsOfStore }
{
    match RandomState::new(rt) {
        Ok(state) => Ok(Options::new(state.hash_one(&0u8))),
        Err(error) => {
            notes.note(About::Store, Trouble::System(error));
            Err(Failure::Store)
        }
    }
}

/// Returns what is denied where the files of a store may not be opened: the file itself, or what is
/// to stand beside it.
fn denied(rt: &HostRuntime, path: &str, error: Error) -> Trouble {
    match OpenOptions::new().read(true).write(true).open(rt, path) {
        Ok(_) if is_log_denied(rt, path) => Trouble::Known(
            "permission denied for the log beside it",
        ),
        Ok(_) => Trouble::Folder,
        Err(_) => Trouble::System(error),
    }
}

/// Returns whether the log of a store is there, and may not be opened.
fn is_log_denied(rt: &HostRuntime, path: &str) -> bool {
    let Ok(log) = format!(in rt.alloc(); "{path}-wal") else {
        return false;
    };
    match OpenOptions::new()
        .read(true)
        .write(true)
        .open(rt, log.as_str())
    {
        Ok(_) => false,
        Err(error) => error.kind() == ErrorKind::PermissionDenied,
    }
}

/// Returns the folder of a path, as it is shown.
fn folder_of(path: &str) -> &str {
    match path.rsplit_once('/') {
        Some((folder, _)) => { if folder.is_empty() { "/" } else { folder } }
        None => ".",
    }
}

/// Returns why the engine does not open the files of a store.
fn trouble_of(rt: &HostRuntime, path: &str, error: OpenError) -> Trouble {
    match error {
        OpenError::Io(error) if error.kind() == ErrorKind::Unsupported => {
            Trouble::Known(why_unsupported(rt, path))
        }
        OpenError::Io(error) if error.kind() == ErrorKind::PermissionDenied => {
            denied(rt, path, error)
        }
        OpenError::Io(error) => Trouble::System(error),
        OpenError::OutOfMemory => Trouble::Known("out of memory"),
        OpenError::Busy => Trouble::Known("in use by another process"),
        OpenError::HotJournal => {
            Trouble::Known("has a rollback journal beside it; open it with sqlite3 first")
        }
    }
}

/// Opens the database file at a path and its log, and makes those that are missing. It opens
/// neither `:memory:` nor a URI.
fn open_files<S: Start>(
    rt: &HostRuntime,
    notes: &Notes,
    path: &str,
    start: S,
) -> Result<Files<FileFrom<S>>, Failure>
    ensures usable { IfOk result (λ files. IsTrue (file_is_usable S.Start files.log) × IsTrue (file_is_usable S.Start files.db)) }
    ensures fresh { IfOk result (λ files. IsFresh true files.log × IsFresh false files.db) }
    ensures failed { IfErr result IsOfStore }
{
    if path == ":memory:" || path.starts_with("file:") {
        notes.note(
            About::Store,
            Trouble::Known("SQLite has another meaning for this name; write ./ before it"),
        );
        return Err(Failure::Store);
    }
    match sqlite_std_file::open(rt, path, start) {
        Ok(files) => Ok(files),
        Err(OpenError::OutOfMemory) => Err(Failure::Memory),
        Err(OpenError::Io(error)) if error.kind() == ErrorKind::OutOfMemory => Err(Failure::Memory),
        Err(error) => {
            notes.note(About::Store, trouble_of(rt, path, error));
            Err(Failure::Store)
        }
    }
}

/// Makes the store at a path if it may, else looks whether it is there.
fn find_store(rt: &HostRuntime, notes: &Notes, path: &str, may_make: bool) -> Result<(), Failure>
    ensures { IfErr result (IsOfFiles may_make) }
{
    if may_make {
        return make_store(rt, notes, path);
    }
    let trouble = match fs::exists(rt, path) {
        Ok(true) => return Ok(()),
        Ok(false) => Trouble::Known(why_missing(rt, path)),
        Err(error) => Trouble::System(error),
    };
    notes.note(About::Store, trouble);
    Err(Failure::File)
}

/// Returns the number of bytes of a file, or 0 if it is a pipe or a device.
fn length_of(file: &File) -> u64 {
    match file.metadata() {
        Ok(found) if found.is_file() => found.len(),
        _ => 0,
    }
}

/// Returns what the failed calls of the files of a store met.
fn trouble_in<S: Start>(files: &Files<FileFrom<S>>) -> Option<Trouble> {
    let tally = files.tally();
    if tally.refused > 0 {
        Some(Trouble::System(ErrorKind::StorageFull.into()))
    } else if tally.caught > 0 {
        Some(Trouble::Known("a read returned other bytes than were written"))
    } else if !files.may_be_used() {
        Some(Trouble::Known("a sync failed; what was written may be lost"))
    } else {
        None
    }
}

// What a real file, a port or a connection does between two calls is not known, so these relations
// hold of every call. What a store holds is what `S` says.
impl<'a, S: Start> Host for Machine<'a, S> {
    type File = FileFrom<S>;

    type Input = Inlet<Noted<'a, File>>;

    ghost holds = { λ _ _. image_at S.Start };

    ghost opens = { λ _ _ _ _ _. ⊤ };

    ghost misses = { λ _ _ _ _ _. ⊤ };

    ghost reads = { λ _ _ _ _ _. ⊤ };

    ghost lacks = { λ _ _ _ _ _. ⊤ };

    ghost listens = { λ _ _ _. ⊤ };

    ghost is_refused = { λ _ _ _. ⊤ };

    ghost lets_go = { λ _ _ _. ⊤ };

    fn open_store(
        &mut self,
        path: &str,
        may_make: bool,
    ) -> Result<(Files<FileFrom<S>>, Options), Failure> {
        find_store(self.rt, self.notes, path, may_make)?;
        let options = options(self.rt, self.notes)?;
        self.was_empty = may_make && !has_meta(self.rt, self.rt.alloc(), path).unwrap_or(true);
        let Some(start) = self.start.take() else {
            return Err(Failure::Store);
        };
        match open_files(self.rt, self.notes, path, start) {
            Ok(files) => Ok((files, options)),
            Err(failure) => Err(failure),
        }
    }

    fn open_input(&mut self, path: &str, most: u64) -> Result<Inlet<Noted<'a, File>>, Failure> {
        match fs::open(self.rt, path) {
            Ok(file) => {
                let length = length_of(&file);
                if length > most {
                    self.notes
                        .note(About::Input, Trouble::TooLong(length, most));
                    return Err(Failure::File);
                }
                Ok(Inlet::new(Noted::new(file, About::Input, self.notes)))
            }
            Err(error) => {
                self.notes.note(About::Input, Trouble::System(error));
                Err(Failure::File)
            }
        }
    }

    fn listen(&mut self, port: u16) -> Result<(), Broken> {
        match TcpListener::bind(self.rt, (Ipv4Addr::new(127, 0, 0, 1), port)) {
            Ok(listener) => {
                self.listener = Some(listener);
                if self.rt.stderr().is_terminal() {
                    let _ = eprintln!(self.rt; "listening on 127.0.0.1:{port}");
                }
                Ok(())
            }
            Err(error) => {
                self.notes.note(About::Port, Trouble::System(error));
                Err(Broken)
            }
        }
    }

    fn cause(&self, alloc: Global, store: Option<&str>) -> Option<Cause> {
        if let Ok(Some(cause)) = self.notes.cause(alloc, folder_of(store.unwrap_or("."))) {
            return Some(cause);
        }
        let store = store?;
        match look(self.rt, alloc, store) {
            Ok(Some(words)) => Some(Cause {
                about: About::Store,
                words,
            }),
            _ => None,
        }
    }

    fn shows_registry(&self, alloc: Global, path: &str) -> bool {
        self.was_empty && has_meta(self.rt, alloc, path).unwrap_or(false)
    }

    fn take_kept(&self, _alloc: Global) -> Option<Vec<u8>> {
        self.notes.take_kept()
    }

    fn let_go(&mut self, files: Files<FileFrom<S>>)
        ensures { ⊤ }
    {
        if let Some(trouble) = trouble_in(&files) {
            self.notes.note_first(About::Store, trouble);
        }
        drop(files);
    }
}
