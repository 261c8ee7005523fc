//! Messages of several kinds, and their whole responses.

use crate::ends::{AMPLE, Stumbling, add_answer, add_response};
use crate::registries::{Calls, check};
use crate::texts::{ENROL, ENROLLED, NO_ORG, compare};
use byte_streams::Inlet;
use registry_store::Registry;
use sqlite::Alter;
use std::alloc::Global;

/// How a message comes.
#[derive(Clone, Copy)]
enum Comes {
    /// Whole at once.
    Whole,
    /// Byte by byte, from a reader that fails after the last.
    Dripping,
}

// Each message and its whole response, in turn over one registry.
const ROWS: &[(Comes, &[u8], &str)] = &[
    (
        Comes::Whole,
        b"GET /reports/petitions HTTP/1.1\r\n\r\n",
        "HTTP/1.1 200 OK\r\ncontent-type: text/plain; charset=utf-8\r\ncontent-length: 0\r\nconnection: close\r\n\r\n",
    ),
    (
        Comes::Whole,
        b"GET /reports/nothing HTTP/1.1\r\n\r\n",
        "HTTP/1.1 404 Not Found\r\ncontent-type: application/json\r\ncontent-length: 32\r\nconnection: close\r\n\r\n{\"name\":\"NoRoute\",\"refused\":24}\n",
    ),
    (
        Comes::Whole,
        b"GET /list?x HTTP/1.1\r\n\r\n",
        "HTTP/1.1 200 OK\r\ncontent-type: text/plain; charset=utf-8\r\ncontent-length: 70\r\nconnection: close\r\n\r\n# List of USB numbers in the syntax of usb.ids\n\n1209  Shared products\n",
    ),
    (
        Comes::Whole,
        b"GET /reports/census HTTP/1.1\r\n\r\n",
        "HTTP/1.1 200 OK\r\ncontent-type: text/plain; charset=utf-8\r\ncontent-length: 102\r\nconnection: close\r\n\r\nvendor      1209\nfree       65519\nreserved      16\nheld           0\nreturned       0\ntotal      65535\n",
    ),
    (
        Comes::Whole,
        b"POST /commands HTTP/1.1\r\nhost: localhost\r\nregistry-caller: ann\r\nregistry-key: k1\r\ncontent-length: 82\r\n\r\n{\"order\":\"enrol\",\"org\":\"acme\",\"title\":\"Acme Tools\",\"site\":\"https://acme.example/\"",
        "HTTP/1.1 400 Bad Request\r\ncontent-type: application/json\r\ncontent-length: 34\r\nconnection: close\r\n\r\n{\"name\":\"ShortBody\",\"refused\":23}\n",
    ),
    (Comes::Whole, ENROL, ENROLLED),
    (Comes::Dripping, ENROL, ENROLLED),
    (
        Comes::Dripping,
        b"POST /x HTTP/1.1\r\n\r\n",
        "HTTP/1.1 404 Not Found\r\ncontent-type: application/json\r\ncontent-length: 32\r\nconnection: close\r\n\r\n{\"name\":\"NoRoute\",\"refused\":24}\n",
    ),
    (
        Comes::Whole,
        b"DELETE /list HTTP/1.1\r\n\r\n",
        "HTTP/1.1 405 Method Not Allowed\r\ncontent-type: application/json\r\ncontent-length: 36\r\nallow: GET\r\nconnection: close\r\n\r\n{\"name\":\"WrongMethod\",\"refused\":25}\n",
    ),
    (
        Comes::Whole,
        b"GET /numbers/0012 HTTP/1.1\r\n\r\n",
        "HTTP/1.1 200 OK\r\ncontent-type: application/json\r\ncontent-length: 33\r\nconnection: close\r\n\r\n{\"number\":\"0012\",\"state\":\"free\"}\n",
    ),
    (
        Comes::Whole,
        b"GET /numbers/0000 HTTP/1.1\r\n\r\n",
        "HTTP/1.1 404 Not Found\r\ncontent-type: application/json\r\ncontent-length: 32\r\nconnection: close\r\n\r\n{\"name\":\"NoRoute\",\"refused\":24}\n",
    ),
    (
        Comes::Whole,
        b"POST /imports/acme HTTP/1.1\r\nRegistry-Caller: cora \r\nregistry-key:i1\r\nCONTENT-LENGTH: 15\r\n\r\n1209  A\n\t\t01  x",
        "HTTP/1.1 422 Unprocessable Entity\r\ncontent-type: application/json\r\ncontent-length: 60\r\nconnection: close\r\n\r\n{\"detail\":\"line 2: NoParent\",\"name\":\"BadList\",\"refused\":29}\n",
    ),
    (Comes::Whole, b"GET /orgs/bolt HTTP/1.1\r\n\r\n", NO_ORG),
    (
        Comes::Whole,
        b"GET /numbers/beef/0012?x HTTP/1.0\r\n\r\n",
        "HTTP/1.1 404 Not Found\r\ncontent-type: application/json\r\ncontent-length: 33\r\nconnection: close\r\n\r\n{\"name\":\"NoVendor\",\"refused\":34}\n",
    ),
];

fn add_dripping<S: Alter>(
    alloc: Global,
    message: &[u8],
    registry: &mut Registry<S>,
    text: &mut String,
) -> bool {
    let Ok(good) = u32::try_from(message.len()) else {
        return false;
    };
    let mut source = Inlet::new(Stumbling {
        rest: message,
        good,
    });
    add_response(alloc, &mut source, AMPLE, registry, text)
}

fn add_row<S: Alter>(
    alloc: Global,
    row: (Comes, &[u8], &str),
    registry: &mut Registry<S>,
    seen: &mut String,
) -> bool {
    let (comes, message, wanted) = row;
    let mut text = String::new(alloc);
    let whole = match comes {
        Comes::Whole => add_answer(alloc, message, registry, &mut text),
        Comes::Dripping => add_dripping(alloc, message, registry, &mut text),
    };
    whole && compare("a message", &text, wanted, seen)
}

struct Rows;

impl Calls for Rows {
    fn add_text<S: Alter>(
        &self,
        alloc: Global,
        registry: &mut Registry<S>,
        text: &mut String,
    ) -> bool {
        for row in ROWS {
            if !add_row(alloc, *row, registry, text) {
                return false;
            }
        }
        true
    }
}

#[test]
fn orders_queries_lists_and_reports(rt: HostRuntime) {
    check(&rt, &Rows, "");
}
