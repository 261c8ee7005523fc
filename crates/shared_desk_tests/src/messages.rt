//! Connections in memory, each with one message, and what is sent to them as text.

use byte_streams::{Broken, Inlet, Outlet};
use registry_desk::Connections;
use registry_store::Registry;
use shared_desk::serve_shared;
use shared_log::Log;
use shared_registry::Cursor;
use sqlite::Alter;
use std::alloc::Global;

/// An order and the queries that tell whether it was acted on.
pub(crate) const ENROL: &str =
    "POST /commands HTTP/1.1\r\nregistry-caller: ann\r\nregistry-key: k1\r\ncontent-length: 82\r\n\r\n{\"order\":\"enrol\",\"org\":\"acme\",\"title\":\"Acme Tools\",\"site\":\"https://acme.example/\"}";

pub(crate) const ORG: &str = "GET /orgs/acme HTTP/1.1\r\n\r\n";

pub(crate) const LIST: &str = "GET /list HTTP/1.1\r\n\r\n";

pub(crate) const ORGS: &str = "GET /reports/organisations HTTP/1.1\r\n\r\n";

pub(crate) const HEAD: &str = "GET /head HTTP/1.1\r\n\r\n";

/// Messages, one for each connection, and the status and the body of each response as a line.
#[derive(Drop)]
pub(crate) struct Messages<'m> {
    pub(crate) alloc: Global,
    pub(crate) messages: &'m [&'m str],
    pub(crate) opened: usize,
    pub(crate) text: String,
}

// Returns the body of a response, without the line end.
fn body_of(bytes: &[u8]) -> &str {
    match std::str::from_utf8(bytes) {
        Ok(text) => match text.split_once("\r\n\r\n") {
            Some((_, body)) => body.trim_end(),
            None => "no body",
        },
        Err(_) => "no text",
    }
}

impl<'m> Connections for Messages<'m> {
    ghost use Rattle.std.specs.Prelude.{⊤};

    type Reader = Inlet<&'m [u8]>;

    type Writer = Outlet<Vec<u8>>;

    ghost opens = { λ _ _ _ _. ⊤ };

    ghost closes = { λ _ _ _ _ _. ⊤ };

    ghost fails = { λ _ _. ⊤ };

    fn open(&mut self) -> Result<(Inlet<&'m [u8]>, Outlet<Vec<u8>>), Broken> {
        if self.opened >= self.messages.len() {
            return Err(Broken);
        }
        let message = self.messages[self.opened];
        self.opened += 1;
        Ok((
            Inlet::new(message.as_bytes()),
            Outlet::new(Vec::new(self.alloc)),
        ))
    }

    fn close(&mut self, reader: Inlet<&'m [u8]>, writer: Outlet<Vec<u8>>, status: Option<u16>) {
        drop(reader);
        let bytes = writer.into_inner();
        let body = body_of(&bytes);
        let _written = writeln!(self.text, "{status:?} {body}").is_ok();
    }
}

/// Serves these messages and waits for one more connection. Adds what is sent, and how serving ended.
pub(crate) fn serve<S: Alter, L: Log>(
    alloc: Global,
    registry: &mut Registry<S>,
    cursor: &mut Cursor<L>,
    messages: &[&str],
    text: &mut String,
) {
    let mut connections = Messages {
        alloc,
        messages,
        opened: 0,
        text: String::new(alloc),
    };
    let count = messages.len() as u64;
    let end = serve_shared(
        alloc,
        &mut connections,
        registry,
        cursor,
        count.saturating_add(1),
    );
    let said = connections.text.as_str();
    let _written = write!(text, "{said}{end:?}\n").is_ok();
}
