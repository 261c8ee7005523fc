//! The connections that come to a port of this machine, one after another.

ghost use Rattle.std.specs.Prelude.{◌≡◌, ◌⊎◌, ◌↔◌, ⊤, IsTrue, None};
ghost use Rattle.std.specs.IoError.{error_kind};

use crate::machine::Machine;
use crate::notes::Trouble;
use byte_streams::{Broken, ByteReader, ByteWriter, Inlet, Outlet};
use peer_streams::{Arrival, Peer, limited};
use registry_desk::Connections;
use registry_program::About;
use sqlite::Start;
use std::alloc::Global;
use std::io;
use std::io::{ErrorKind, Read, Write};
use std::net::{Shutdown, TcpStream};
use std::rc::Rc;
use std::time::{Duration, Instant};

/// One of the two ends of a stream.
#[derive(Drop)]
pub struct End(Rc<TcpStream>);

// What a system call does is not known, so these relations hold of every call.
impl ByteReader for End {
    ghost remaining = { λ _. None };

    ghost reads = { λ _ _ _ _. ⊤ };

    ghost fails = { λ _ _. ⊤ };

    fn read(&mut self, room: &mut [u8]) -> Result<usize, Broken> {
        let mut stream = self.0.as_ref();
        match stream.read(room) {
            Ok(count) => Ok(count),
            Err(_) => Err(Broken),
        }
    }
}

// What a system call does is not known, so these relations hold of every call.
impl ByteWriter for End {
    ghost contents = { λ _. None };

    ghost writes = { λ _ _ _ _. ⊤ };

    ghost fails = { λ _ _. ⊤ };

    fn write(&mut self, bytes: &[u8]) -> Result<usize, Broken> {
        let mut stream = self.0.as_ref();
        match stream.write(bytes) {
            Ok(count) => Ok(count),
            Err(_) => Err(Broken),
        }
    }
}

/// A stream that has come, before its ends are made.
#[derive(Drop)]
struct Arrived {
    alloc: Global,
    stream: TcpStream,
}

// What a system call does is not known, so these relations hold of every call.
impl Arrival for Arrived {
    type Reader = Inlet<End>;

    type Writer = Outlet<End>;

    ghost limits_reads = { λ _ _ _. ⊤ };

    ghost limits_writes = { λ _ _ _. ⊤ };

    ghost fails = { λ _ _. ⊤ };

    ghost splits = { λ _ _ _. ⊤ };

    ghost fails_to_split = { λ _. ⊤ };

    fn limit_reads(&mut self, time: Duration) -> Result<(), Broken> {
        self.stream.set_read_timeout(Some(time)).map_err(|_| Broken)
    }

    fn limit_writes(&mut self, time: Duration) -> Result<(), Broken> {
        self.stream
            .set_write_timeout(Some(time))
            .map_err(|_| Broken)
    }

    fn split(self) -> Result<(Inlet<End>, Outlet<End>), Broken> {
        let Arrived { alloc, stream } = self;
        let stream = Rc::new(alloc, stream).map_err(|_| Broken)?;
        let other = stream.clone().map_err(|_| Broken)?;
        Ok((Inlet::new(End(stream)), Outlet::new(End(other))))
    }
}

/// A stream whose response was written, before it is closed.
#[derive(Drop)]
struct Answered<'a> {
    rt: &'a HostRuntime,
    stream: &'a TcpStream,
}

// What a system call does is not known, so these relations hold of every call.
impl Peer for Answered<'_> {
    ghost limits_reads = { λ _ _ _. ⊤ };

    ghost waits = { λ _ _ _. ⊤ };

    ghost sees = { λ _ _ _ _. ⊤ };

    ghost ends = { λ _ _. ⊤ };

    ghost tells = { λ _ _ _. ⊤ };

    ghost reads = { λ _ _ _ _. ⊤ };

    ghost fails = { λ _ _. ⊤ };

    fn limit_reads(&mut self, time: Duration) -> Result<(), Broken> {
        self.stream.set_read_timeout(Some(time)).map_err(|_| Broken)
    }

    fn set_waiting(&mut self, waiting: bool) -> Result<(), Broken> {
        self.stream.set_nonblocking(!waiting).map_err(|_| Broken)
    }

    fn peek(&mut self, room: &mut [u8]) -> Result<usize, Broken> {
        match self.stream.peek(room) {
            Ok(count) => Ok(count),
            Err(_) => Err(Broken),
        }
    }

    fn end_writing(&mut self) -> Result<(), Broken> {
        self.stream.shutdown(Shutdown::Write).map_err(|_| Broken)
    }

    fn now(&mut self) -> Result<Instant, Broken> {
        Instant::now(self.rt).map_err(|_| Broken)
    }

    fn read(&mut self, room: &mut [u8]) -> Result<usize, Broken> {
        let mut stream = self.stream;
        match stream.read(room) {
            Ok(count) => Ok(count),
            Err(_) => Err(Broken),
        }
    }
}

/// Returns whether the peer gave up a connection before it was accepted.
fn is_of_peer(error: &io::Error) -> bool
    ensures { IsTrue result ↔ ((error_kind error.now ≡ ErrorKind.ConnectionAborted) ⊎ (error_kind error.now ≡ ErrorKind.ConnectionReset) ⊎ (error_kind error.now ≡ ErrorKind.Interrupted)) }
{
    matches!(
        error.kind(),
        ErrorKind::ConnectionAborted | ErrorKind::ConnectionReset | ErrorKind::Interrupted
    )
}

// What a peer sends, and when it is gone, is not known, so these relations hold of every call.
impl<S: Start> Connections for Machine<'_, S> {
    type Reader = Inlet<End>;

    type Writer = Outlet<End>;

    ghost opens = { λ _ _ _ _. ⊤ };

    ghost closes = { λ _ _ _ _ _. ⊤ };

    ghost fails = { λ _ _. ⊤ };

    fn open(&mut self) -> Result<(Inlet<End>, Outlet<End>), Broken> {
        let Some(listener) = &self.listener else {
            return Err(Broken);
        };
        for accepted in listener.incoming() {
            match accepted {
                Ok(stream) => {
                    let alloc = self.rt.alloc();
                    if let Ok(ends) = limited(Arrived { alloc, stream }) {
                        return Ok(ends);
                    }
                }
                Err(error) => {
                    if !is_of_peer(&error) {
                        self.notes.note(About::Port, Trouble::System(error));
                        return Err(Broken);
                    }
                }
            }
        }
        Err(Broken)
    }

    fn close(&mut self, reader: Inlet<End>, _writer: Outlet<End>, status: Option<u16>) {
        let End(stream) = reader.into_inner();
        let mut answered = Answered {
            rt: self.rt,
            stream: stream.as_ref(),
        };
        peer_streams::close(&mut answered, status);
    }
}
