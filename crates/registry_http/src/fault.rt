//! The reasons why no message is read.

ghost use Rattle.std.specs.Prelude.{◌≡◌, Some};
ghost use Rattle.registry_http.specs.declared.fault.MessageFault.TheVariants.{NoMemory as OutOfMemory};
ghost use Rattle.registry_http.specs.Refusals.{message_fault_text, of_list, of_message, of_stream, of_wire};

use crate::refusal::HttpRefusal;
use registry_rules::Rejection;
use registry_wire::WireRefusal;
use std::alloc::AllocError;
use std::error::Error;
use std::fmt;
use usbids_text::ReadFault;
use usbnum_core::NoMemory;

/// The reason why bytes of a source cannot be read.
#[derive(Clone, Copy, Debug, PartialEq, Eq)]
pub(crate) enum StreamFault {
    /// The source failed.
    Broken,
    /// Out of memory.
    NoMemory,
}

/// The reason why a source gave no message to act on.
#[derive(Clone, Copy, Debug, PartialEq, Eq)]
pub enum MessageFault {
    /// The source failed.
    Broken,
    /// Out of memory.
    NoMemory,
    /// The message is refused before the registry is asked.
    Refused(HttpRefusal),
}

impl From<StreamFault> for MessageFault {
    ghost from_gives = { λ fault message. message ≡ of_stream fault };

    fn from(fault: StreamFault) -> MessageFault {
        match fault {
            StreamFault::Broken => MessageFault::Broken,
            StreamFault::NoMemory => MessageFault::NoMemory,
        }
    }
}

impl From<Rejection<HttpRefusal>> for MessageFault {
    ghost from_gives = { λ rejection message. message ≡ of_message rejection };

    fn from(rejection: Rejection<HttpRefusal>) -> MessageFault {
        match rejection {
            Rejection::Refused(refusal) => MessageFault::Refused(refusal),
            Rejection::NoMemory => MessageFault::NoMemory,
        }
    }
}

impl From<Rejection<WireRefusal>> for MessageFault {
    ghost from_gives = { λ rejection message. message ≡ of_wire rejection };

    fn from(rejection: Rejection<WireRefusal>) -> MessageFault {
        match rejection {
            Rejection::Refused(refusal) => MessageFault::Refused(HttpRefusal::Wire(refusal)),
            Rejection::NoMemory => MessageFault::NoMemory,
        }
    }
}

impl From<ReadFault> for MessageFault {
    ghost from_gives = { λ fault message. message ≡ of_list fault };

    fn from(fault: ReadFault) -> MessageFault {
        match fault {
            ReadFault::Line(line) => {
                MessageFault::Refused(HttpRefusal::Wire(WireRefusal::BadList(line)))
            }
            ReadFault::NoMemory => MessageFault::NoMemory,
        }
    }
}

impl From<NoMemory> for MessageFault {
    ghost from_gives = { λ _ message. message ≡ OutOfMemory };

    fn from(_error: NoMemory) -> MessageFault {
        MessageFault::NoMemory
    }
}

/// The fault in a few words, or the text of the refusal.
impl fmt::Display for MessageFault {
    ghost output = { λ fault. Some (message_fault_text fault) };

    fn fmt<W: fmt::Write>(&self, f: &mut fmt::Formatter<W>) -> fmt::Result {
        match self {
            MessageFault::Broken => f.write_str("the source failed"),
            MessageFault::NoMemory => f.write_str("out of memory"),
            MessageFault::Refused(refusal) => write!(f, "{refusal}"),
        }
    }
}

impl Error for MessageFault {}
