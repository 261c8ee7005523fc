//! The log in etcd that a command uses, and the connection to it.

ghost use Rattle.std.specs.Prelude.{⊤};

use crate::machine::Machine;
use crate::notes::Trouble;
use byte_streams::Broken;
use etcd_client::{CallFault, EtcdLog, Host, User};
use etcd_messages::AnswerFault;
use http_exchange::Connection;
use registry_program::{About, Logs, NoLog};
use shared_registry::ShareStop;
use sqlite::Start;
use std::alloc::Global;
use std::io::{ErrorKind, Read, Write};
use std::net::{SocketAddr, TcpStream};
use std::time::Duration;
use usbnum_core::Slug;

/// A connection to a member of etcd.
#[derive(Drop)]
pub struct LogPort<'a> {
    rt: &'a HostRuntime,
    place: SocketAddr,
    stream: Option<TcpStream>,
}

impl LogPort<'_> {
    /// Connects, and limits how long each read and each write waits.
    fn connect(&self, time: Duration) -> Result<TcpStream, Broken> {
        let stream = TcpStream::connect_timeout(self.rt, &self.place, time).map_err(|_| Broken)?;
        stream.set_read_timeout(Some(time)).map_err(|_| Broken)?;
        stream.set_write_timeout(Some(time)).map_err(|_| Broken)?;
        // A request is written at once, and waits for nothing to be sent with it.
        stream.set_nodelay(true).map_err(|_| Broken)?;
        Ok(stream)
    }
}

/// Returns whether a stream is open and has no byte to read.
fn rests(stream: &TcpStream) -> bool {
    if stream.set_nonblocking(true).is_err() {
        return false;
    }
    let mut room = [0];
    let rests = match stream.peek(&mut room) {
        Ok(_) => false,
        Err(error) => error.kind() == ErrorKind::WouldBlock,
    };
    stream.set_nonblocking(false).is_ok() && rests
}

// What a system call does is not known, so these relations hold of every call.
impl Connection for LogPort<'_> {
    ghost opens = { λ _ _ _. ⊤ };

    ghost closes = { λ _ _. ⊤ };

    ghost rests = { λ _ _ _. ⊤ };

    ghost writes = { λ _ _ _ _. ⊤ };

    ghost reads = { λ _ _ _ _. ⊤ };

    ghost fails = { λ _ _. ⊤ };

    fn open(&mut self, time: Duration) -> Result<(), Broken> {
        self.stream = None;
        self.stream = Some(self.connect(time)?);
        Ok(())
    }

    fn close(&mut self) {
        self.stream = None;
    }

    fn rests(&mut self) -> bool {
        match &self.stream {
            Some(stream) => rests(stream),
            None => false,
        }
    }

    fn write(&mut self, bytes: &[u8]) -> Result<usize, Broken> {
        let Some(mut stream) = self.stream.as_ref() else {
            return Err(Broken);
        };
        match stream.write(bytes) {
            Ok(count) => Ok(count.min(bytes.len())),
            Err(_) => Err(Broken),
        }
    }

    fn read(&mut self, room: &mut [u8]) -> Result<usize, Broken> {
        let most = room.len();
        let Some(mut stream) = self.stream.as_ref() else {
            return Err(Broken);
        };
        match stream.read(room) {
            Ok(count) => Ok(count.min(most)),
            Err(_) => Err(Broken),
        }
    }
}

/// The parts of the address of a log.
struct Address<'t> {
    user: Option<(&'t str, &'t str)>,
    place: &'t str,
    name: &'t str,
}

/// Returns the parts of `http://HOST:PORT/NAME`, where `USER:PASSWORD@` may stand before the host.
fn parts_of<'t>(address: &'t str) -> Option<Address<'t>> {
    let (place, name) = address.strip_prefix("http://")?.split_once('/')?;
    match place.rsplit_once('@') {
        Some((user, place)) => Some(Address {
            user: Some(user.split_once(':')?),
            place,
            name,
        }),
        None => Some(Address {
            user: None,
            place,
            name,
        }),
    }
}

/// Returns the user of an address, if it has one.
fn user_of(alloc: Global, user: Option<(&str, &str)>) -> Result<Option<User>, NoLog> {
    let Some((name, password)) = user else {
        return Ok(None);
    };
    match (
        String::from_str(alloc, name),
        String::from_str(alloc, password),
    ) {
        (Ok(name), Ok(password)) => Ok(Some(User::new(name, password))),
        _ => Err(NoLog::NoMemory),
    }
}

/// Returns the log at an address.
fn log_at<'a>(rt: &'a HostRuntime, address: &str) -> Result<EtcdLog<LogPort<'a>>, NoLog> {
    let alloc = rt.alloc();
    let Some(Address { user, place, name }) = parts_of(address) else {
        return Err(NoLog::BadAddress);
    };
    let (Ok(at), Ok(Some(host)), Ok(Some(name))) = (
        place.parse::<SocketAddr>(),
        Host::new(alloc, place),
        Slug::new(alloc, name.as_bytes()),
    ) else {
        return Err(NoLog::BadAddress);
    };
    let user = user_of(alloc, user)?;
    let port = LogPort {
        rt,
        place: at,
        stream: None,
    };
    Ok(EtcdLog::new(port, host, name, user))
}

/// Returns why an answer is none.
fn words_for_answer(fault: AnswerFault) -> &'static str {
    match fault {
        AnswerFault::NoQuorum => "too few machines of the log answer",
        AnswerFault::BadToken | AnswerFault::Forbidden | AnswerFault::BadLogin => {
            "the name or the password is refused"
        }
        // The answer of an etcd that has users to a message without a token.
        AnswerFault::BadStatus(400) => "refuses the message, and may ask for a name and a password",
        AnswerFault::BadStatus(_)
        | AnswerFault::TooLong
        | AnswerFault::BadJson
        | AnswerFault::BadMember(_) => "gives an answer that is none of etcd",
    }
}

/// Returns why a call of the log got no answer.
fn words_for_call(fault: Option<CallFault>) -> &'static str {
    match fault {
        Some(CallFault::Answer(fault)) => words_for_answer(fault),
        Some(CallFault::BadMessage) | Some(CallFault::TooLong) => {
            "gives an answer that is none of etcd"
        }
        Some(CallFault::Open) => "takes no connection",
        Some(CallFault::Write) | Some(CallFault::Read) | Some(CallFault::Ended) => {
            "gives no answer in time"
        }
        Some(CallFault::NoMemory) | None => "gives no answer",
    }
}

/// Returns why a registry did not go on with its log.
fn trouble_of(fault: Option<CallFault>, stop: ShareStop) -> Trouble {
    match stop {
        ShareStop::OtherRecord(n) => Trouble::OtherRecord(n),
        ShareStop::Ahead => Trouble::Known("has fewer lines than the record of the store"),
        ShareStop::Empty => Trouble::Known("has no line"),
        ShareStop::Full => Trouble::Known("has so many lines that no other is counted"),
        ShareStop::Log(_) | ShareStop::Registry(_) | ShareStop::NoMemory => {
            Trouble::Known(words_for_call(fault))
        }
    }
}

// What a system call does is not known, so these relations hold of every call.
impl<'a, S: Start> Logs for Machine<'a, S> {
    type Log = EtcdLog<LogPort<'a>>;

    ghost finds = { λ _ _ _ _. ⊤ };

    ghost rejects = { λ _ _ _ _. ⊤ };

    ghost leaves = { λ _ _ _ _. ⊤ };

    ghost closes = { λ _ _ _. ⊤ };

    fn log_at(&mut self, address: &str) -> Result<EtcdLog<LogPort<'a>>, NoLog> {
        log_at(self.rt, address)
    }

    fn leave_log(&mut self, log: EtcdLog<LogPort<'a>>, stop: ShareStop) {
        self.notes.note(About::Log, trouble_of(log.fault(), stop));
    }

    // The connection ends where the log is dropped.
    fn close_log(&mut self, log: EtcdLog<LogPort<'a>>)
        ensures { ⊤ }
    {
        drop(log);
    }
}
