//! The server over connections in memory.

use crate::registries::{Calls, check};
use crate::texts::{ENROL, ENROLLED, NO_ORG, add_bytes};
use byte_streams::{Broken, Inlet, Outlet};
use registry_desk::{Connections, ServerStop, serve_all};
use registry_store::Registry;
use sqlite::Alter;
use std::alloc::Global;
use std::test::Fail;

/// Messages, one per connection, and the status and the bytes of each response.
#[derive(Drop)]
pub struct Messages<'a> {
    pub alloc: Global,
    pub messages: &'a [&'a [u8]],
    pub opened: usize,
    pub text: String,
    /// Whether the text has them all.
    pub whole: bool,
}

impl<'a> Connections for Messages<'a> {
    ghost use Rattle.std.specs.Prelude.{⊤};

    type Reader = Inlet<&'a [u8]>;

    type Writer = Outlet<Vec<u8>>;

    ghost opens = { λ _ _ _ _. ⊤ };

    ghost closes = { λ _ _ _ _ _. ⊤ };

    ghost fails = { λ _ _. ⊤ };

    fn open(&mut self) -> Result<(Inlet<&'a [u8]>, Outlet<Vec<u8>>), Broken> {
        if self.opened >= self.messages.len() {
            return Err(Broken);
        }
        let message = self.messages[self.opened];
        self.opened += 1;
        Ok((Inlet::new(message), Outlet::new(Vec::new(self.alloc))))
    }

    fn close(&mut self, reader: Inlet<&'a [u8]>, writer: Outlet<Vec<u8>>, status: Option<u16>) {
        drop(reader);
        let bytes = writer.into_inner();
        if !add_closed(status, &bytes, &mut self.text) {
            self.whole = false;
        }
    }
}

fn add_closed(status: Option<u16>, bytes: &[u8], text: &mut String) -> bool {
    write!(text, "{status:?} ").is_ok() && add_bytes(bytes, text)
}

/// Adds how serving ended.
pub fn add_end(served: Result<(), ServerStop>, text: &mut String) -> bool {
    writeln!(text, "{served:?}").is_ok()
}

// The numbers of connections that are served, one after another.
const COUNTS: [u64; 3] = [0, 8, 1];

const LIST: &[u8] = b"GET /list HTTP/1.1\r\n\r\n";

const IMPORT: &[u8] =
    b"POST /imports/acme HTTP/1.1\r\nregistry-caller: cora\r\nregistry-key: i1\r\ncontent-length: 34\r\n\r\n1209  Shared products\n\t0012  Lamp\n";

// The list is asked for again before an order changes it, and after.
const MESSAGES: &[&[u8]] = &[
    b"",
    b"GET /orgs/bolt HTTP/1.1\r\n\r\n",
    ENROL,
    LIST,
    LIST,
    IMPORT,
    LIST,
    b"GET /reports/holders HTTP/1.1\r\n\r\n",
];

fn serve_counts<S: Alter>(
    alloc: Global,
    connections: &mut Messages<'_>,
    registry: &mut Registry<S>,
) -> bool {
    for count in COUNTS {
        let served = serve_all(alloc, connections, registry, count);
        if !add_end(served, &mut connections.text) {
            return false;
        }
    }
    connections.whole
}

struct OneAfterAnother;

impl Calls for OneAfterAnother {
    fn add_text<S: Alter>(
        &self,
        alloc: Global,
        registry: &mut Registry<S>,
        text: &mut String,
    ) -> bool {
        let mut connections = Messages {
            alloc,
            messages: MESSAGES,
            opened: 0,
            text: String::new(alloc),
            whole: true,
        };
        serve_counts(alloc, &mut connections, registry)
            && text.push_str(connections.text.as_str()).is_ok()
    }
}

const BAD_HEAD: &str =
    "HTTP/1.1 400 Bad Request\r\ncontent-type: application/json\r\ncontent-length: 32\r\nconnection: close\r\n\r\n{\"name\":\"BadHead\",\"refused\":20}\n";

const EMPTY: &str =
    "HTTP/1.1 200 OK\r\ncontent-type: text/plain; charset=utf-8\r\ncontent-length: 70\r\nconnection: close\r\n\r\n# List of USB numbers in the syntax of usb.ids\n\n1209  Shared products\n";

const IMPORTED: &str =
    "HTTP/1.1 200 OK\r\ncontent-type: application/json\r\ncontent-length: 80\r\nconnection: close\r\n\r\n{\"done\":\"imported fresh 1, owned 0, reserved 0, doubled 0, untitled 0, zero 0\"}\n";

const LAMP: &str =
    "HTTP/1.1 200 OK\r\ncontent-type: text/plain; charset=utf-8\r\ncontent-length: 82\r\nconnection: close\r\n\r\n# List of USB numbers in the syntax of usb.ids\n\n1209  Shared products\n\t0012  Lamp\n";

const HOLDERS: &str =
    "HTTP/1.1 200 OK\r\ncontent-type: text/plain; charset=utf-8\r\ncontent-length: 45\r\nconnection: close\r\n\r\nacme                                 1     0\n";

#[test]
fn serves_one_after_another(rt: HostRuntime) -> Result<(), Fail> {
    let wanted = format!(in rt.alloc();
        "Ok(())\nSome(400) {BAD_HEAD}Some(404) {NO_ORG}Some(200) {ENROLLED}Some(200) {EMPTY}Some(200) {EMPTY}Some(200) {IMPORTED}Some(200) {LAMP}Some(200) {HOLDERS}Ok(())\nErr(Connections)\n"
    )?;
    check(&rt, &OneAfterAnother, &wanted);
    Ok(())
}
