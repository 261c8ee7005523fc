//! A machine in memory: one store, files that are read, and connections that send one message each.

ghost use Rattle.std.specs.Prelude.{◌≡◌, ⊤, IfOk, IsTrue};
ghost use Rattle.sqlite_disk.specs.Memory.{memory_bytes, memory_is_usable};
ghost use Rattle.registry_program_tests.specs.Room.{image_in};

use byte_streams::{Broken, Inlet, Outlet};
use registry_commands::Failure;
use registry_desk::Connections;
use registry_program::{About, Cause, Host, Logs, NoLog};
use shared_log::{Log, MemoryLog};
use shared_registry::ShareStop;
use sqlite::{Files, Options};
use sqlite_disk::Memory;
use std::alloc::Global;

/// The least length of a log that may hold a commit.
const LEAST_LOG: usize = 56;

/// A file that is read, with its name.
#[derive(Drop)]
pub struct Given {
    pub name: String,
    pub bytes: Vec<u8>,
}

/// A machine in memory. Its store has no name.
#[derive(Drop)]
pub struct Room<'a> {
    pub alloc: Global,
    pub store: Option<Files<Memory>>,
    pub inputs: &'a [Given],
    pub messages: &'a [Vec<u8>],
    pub opened: usize,
    /// The calls that opened something, and what was written to the connections.
    pub calls: String,
    /// What the last call that failed was about.
    pub missed: Option<About>,
    /// The bytes of the last file that was opened.
    pub read: Option<&'a [u8]>,
    /// The bytes of the standard input, if it has any.
    pub piped: Option<&'a [u8]>,
}

impl Room<'_> {
    /// Notes a call. Without memory for the note it is left out, which the row then shows.
    fn note(&mut self, call: &str) {
        let _ = self.calls.push_str(call);
    }
}

/// Takes the files of a store, or makes them, if they may be used.
fn files_in(alloc: Global, store: &mut Option<Files<Memory>>) -> Result<Files<Memory>, Failure>
    ensures usable { IfOk result (λ files. IsTrue (memory_is_usable files.log) × IsTrue (memory_is_usable files.db)) }
    ensures found { IfOk result (λ files. record { log = memory_bytes files.log; db = memory_bytes files.db } ≡ image_in store.old) }
{
    let Some(files) = store.take() else {
        return Ok(Files {
            log: Memory::new(alloc),
            db: Memory::new(alloc),
        });
    };
    if files.may_be_used() {
        Ok(files)
    } else {
        Err(Failure::Store)
    }
}

impl<'a> Host for Room<'a> {
    type File = Memory;

    type Input = Inlet<&'a [u8]>;

    ghost holds = { λ room _. image_in room.store };

    ghost opens = { λ _ _ _ _ _. ⊤ };

    ghost misses = { λ _ _ _ _ _. ⊤ };

    ghost reads = { λ _ _ _ _ _. ⊤ };

    ghost lacks = { λ _ _ _ _ _. ⊤ };

    ghost listens = { λ _ _ _. ⊤ };

    ghost is_refused = { λ _ _ _. ⊤ };

    ghost lets_go = { λ _ _ _. ⊤ };

    fn open_store(
        &mut self,
        _path: &str,
        may_make: bool,
    ) -> Result<(Files<Memory>, Options), Failure> {
        if !may_make && self.store.is_none() {
            self.missed = Some(About::Store);
            return Err(Failure::File);
        }
        match files_in(self.alloc, &mut self.store) {
            Ok(files) => {
                self.note("store ");
                Ok((files, Options::new(1)))
            }
            Err(_) => Err(Failure::Store),
        }
    }

    fn open_input(&mut self, path: &str, most: u64) -> Result<Inlet<&'a [u8]>, Failure> {
        let inputs = self.inputs;
        for input in inputs {
            if input.name.as_str() == path && input.bytes.len() as u64 <= most {
                self.note("input ");
                self.read = Some(input.bytes.as_slice());
                return Ok(Inlet::new(input.bytes.as_slice()));
            }
        }
        self.missed = Some(About::Input);
        Err(Failure::File)
    }

    fn listen(&mut self, port: u16) -> Result<(), Broken> {
        if port == 0 {
            return Err(Broken);
        }
        self.note("port ");
        Ok(())
    }

    fn cause(&self, alloc: Global, store: Option<&str>) -> Option<Cause> {
        let (about, words) = match (self.missed, store) {
            (Some(about), _) => (about, "not in\nthe room"),
            (None, Some(_)) => (About::Store, "looked at"),
            (None, None) => return None,
        };
        match String::from_str(alloc, words) {
            Ok(words) => Some(Cause { about, words }),
            Err(_) => None,
        }
    }

    fn shows_registry(&self, _alloc: Global, _path: &str) -> bool {
        self.store.is_some()
    }

    fn take_kept(&self, alloc: Global) -> Option<Vec<u8>> {
        let mut bytes = Vec::new(alloc);
        bytes.extend_from_slice(self.read.or(self.piped)?).ok()?;
        Some(bytes)
    }

    fn let_go(&mut self, files: Files<Memory>)
        ensures { ⊤ }
    {
        if files.log.bytes().len() < LEAST_LOG {
            self.note("closed ");
        } else {
            self.note("left ");
        }
        self.store = Some(files);
    }
}

/// Returns a log with these lines.
fn log_of(alloc: Global, lines: &[u8]) -> MemoryLog {
    let mut log = MemoryLog::new(alloc, 2);
    let mut n: u32 = 0;
    for line in lines.split(|b| *b == b'\n') {
        if !line.is_empty() {
            let _answer = log.append(alloc, n, line);
            n = n.saturating_add(1);
        }
    }
    log
}

// The log at the name of a file, or at the URL of that name in the room, has its lines.
impl Logs for Room<'_> {
    type Log = MemoryLog;

    ghost finds = { λ _ _ _ _. ⊤ };

    ghost rejects = { λ _ _ _ _. ⊤ };

    ghost leaves = { λ _ _ _ _. ⊤ };

    ghost closes = { λ _ _ _. ⊤ };

    fn log_at(&mut self, address: &str) -> Result<MemoryLog, NoLog> {
        let name = address.strip_prefix("http://room/").unwrap_or(address);
        let inputs = self.inputs;
        for input in inputs {
            if input.name.as_str() == name {
                self.note("log ");
                return Ok(log_of(self.alloc, input.bytes.as_slice()));
            }
        }
        Err(NoLog::BadAddress)
    }

    fn leave_log(&mut self, log: MemoryLog, stop: ShareStop) {
        let count = log.lines().len();
        let _ = write!(self.calls, "{count} lines, {stop:?} ");
        self.missed = Some(About::Log);
    }

    fn close_log(&mut self, log: MemoryLog) {
        let count = log.lines().len();
        let _ = write!(self.calls, "{count} lines ");
    }
}

impl<'a> Connections for Room<'a> {
    type Reader = Inlet<&'a [u8]>;

    type Writer = Outlet<Vec<u8>>;

    ghost opens = { λ _ _ _ _. ⊤ };

    ghost closes = { λ _ _ _ _ _. ⊤ };

    ghost fails = { λ _ _. ⊤ };

    fn open(&mut self) -> Result<(Inlet<&'a [u8]>, Outlet<Vec<u8>>), Broken> {
        let messages = self.messages;
        if self.opened >= messages.len() {
            self.missed = Some(About::Port);
            return Err(Broken);
        }
        let message = messages[self.opened].as_slice();
        self.opened += 1;
        Ok((Inlet::new(message), Outlet::new(Vec::new(self.alloc))))
    }

    fn close(&mut self, reader: Inlet<&'a [u8]>, writer: Outlet<Vec<u8>>, status: Option<u16>) {
        drop(reader);
        drop(writer);
        let _ = write!(self.calls, "{status:?} ");
    }
}
