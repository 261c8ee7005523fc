//! The reasons why a message is refused before the registry is asked.

ghost use Rattle.std.specs.Prelude.{◌≡◌, IfOk, Some};
ghost use Rattle.registry_http.specs.Refusals.{http_refusal_text};

use registry_rules::ReplyText;
use registry_wire::WireRefusal;
use std::alloc::Global;
use std::error::Error;
use std::fmt;
use usbnum_core::NoMemory;

/// The method that a path allows.
#[derive(Clone, Copy, Debug, PartialEq, Eq)]
pub enum Allow {
    /// The path is a query.
    Get,
    /// The path takes orders.
    Post,
}

/// A header that gives the caller of a request, its key, or its time.
#[derive(Clone, Copy, Debug, PartialEq, Eq)]
pub enum Header {
    /// `registry-caller`.
    Caller,
    /// `registry-key`.
    Key,
    /// `registry-time`.
    Time,
}

impl Header {
    ghost use Rattle.std.specs.Prelude.{◌≡◌};
    ghost use Rattle.registry_http.specs.Refusals.{header_name};

    /// Returns the header's name, in lower case.
    pub fn name(self) -> &'static str
        ensures { result.now ≡ header_name self }
    {
        match self {
            Header::Caller => "registry-caller",
            Header::Key => "registry-key",
            Header::Time => "registry-time",
        }
    }
}

/// The reason why a message is refused before the registry is asked.
#[derive(Clone, Copy, Debug, PartialEq, Eq)]
pub enum HttpRefusal {
    /// The message has no valid head.
    BadHead,
    /// The message does not give the length of its body.
    BadLength,
    /// The body is longer than its route allows.
    TooLarge,
    /// The body ends early.
    ShortBody,
    /// The path is not served.
    NoRoute,
    /// The path is served only with this method, which the field `allow` of the response names.
    WrongMethod(Allow),
    /// The message does not have this header exactly once with a valid value.
    BadHeader(Header),
    /// The store failed.
    StoreFault,
    /// Out of memory.
    NoMemory,
    /// The body is refused.
    Wire(WireRefusal),
}

impl HttpRefusal {
    ghost use Rattle.std.specs.Prelude.{◌≡◌, IfOk};
    ghost use Rattle.registry_http.specs.Refusals.{http_refusal_number, http_refusal_name, http_refusal_detail};

    /// Returns the refusal's number.
    pub fn number(self) -> u8
        ensures { result ≡ http_refusal_number self }
    {
        match self {
            HttpRefusal::BadHead => 20,
            HttpRefusal::BadLength => 21,
            HttpRefusal::TooLarge => 22,
            HttpRefusal::ShortBody => 23,
            HttpRefusal::NoRoute => 24,
            HttpRefusal::WrongMethod(_) => 25,
            HttpRefusal::BadHeader(_) => 26,
            HttpRefusal::StoreFault => 30,
            HttpRefusal::NoMemory => 31,
            HttpRefusal::Wire(refusal) => refusal.number(),
        }
    }

    /// Returns the refusal's name.
    pub fn name(self) -> &'static str
        ensures { result.now ≡ http_refusal_name self }
    {
        match self {
            HttpRefusal::BadHead => "BadHead",
            HttpRefusal::BadLength => "BadLength",
            HttpRefusal::TooLarge => "TooLarge",
            HttpRefusal::ShortBody => "ShortBody",
            HttpRefusal::NoRoute => "NoRoute",
            HttpRefusal::WrongMethod(_) => "WrongMethod",
            HttpRefusal::BadHeader(_) => "BadHeader",
            HttpRefusal::StoreFault => "StoreFault",
            HttpRefusal::NoMemory => "NoMemory",
            HttpRefusal::Wire(refusal) => refusal.name(),
        }
    }

    /// Returns the subject of the refusal: the name of the bad header, or the detail of the body's
    /// refusal.
    pub fn detail(self, alloc: Global) -> Result<Option<ReplyText>, NoMemory>
        ensures { IfOk result (λ detail. detail ≡ http_refusal_detail self) }
    {
        match self {
            HttpRefusal::BadHeader(header) => {
                Ok(Some(ReplyText::new(String::from_str(alloc, header.name())?)))
            }
            HttpRefusal::Wire(refusal) => refusal.detail(alloc),
            _ => Ok(None),
        }
    }
}

/// The name, and after a colon the detail: `BadHeader: registry-key`.
impl fmt::Display for HttpRefusal {
    ghost output = { λ refusal. Some (http_refusal_text refusal) };

    fn fmt<W: fmt::Write>(&self, f: &mut fmt::Formatter<W>) -> fmt::Result {
        let name = self.name();
        match self {
            HttpRefusal::BadHeader(header) => write!(f, "{name}: {}", header.name()),
            HttpRefusal::Wire(refusal) => write!(f, "{refusal}"),
            _ => f.write_str(name),
        }
    }
}

impl Error for HttpRefusal {}
