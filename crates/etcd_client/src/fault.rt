//! Why a call of the log got no answer.

ghost use Rattle.std.specs.Prelude.{◌≡◌};
ghost use Rattle.etcd_client.specs.declared.fault.CallFault.TheVariants.{NoMemory as OutOfMemory};
ghost use Rattle.etcd_client.specs.Faults.{answer_fault, call_fault, message_fault};

use etcd_messages::{AnswerFault, Unread};
use http_exchange::ExchangeFault;
use shared_log::LogFault;
use std::alloc::{AllocError, AllocFailed};
use usbnum_core::NoMemory;

/// Why a call of the log got no answer.
#[derive(Clone, Copy, Debug, PartialEq, Eq)]
pub enum CallFault {
    /// The connection was not made, or not in time.
    Open,
    /// A write failed, or took none of the bytes.
    Write,
    /// A read failed, or took too long.
    Read,
    /// The connection ended before the answer did.
    Ended,
    /// The bytes that came are not the beginning of an answer in HTTP/1.1.
    BadMessage,
    /// The message has more than 32 MiB and 64 KiB.
    TooLong,
    /// The answer is none that was asked for: this is its first fault.
    Answer(AnswerFault),
    /// Memory ran out.
    NoMemory,
}

// Returns what the fault of an answer is for one who uses the log.
fn answer_fault(fault: AnswerFault) -> LogFault
    ensures { result ≡ answer_fault fault }
{
    match fault {
        AnswerFault::NoQuorum => LogFault::NoQuorum,
        AnswerFault::BadToken | AnswerFault::Forbidden | AnswerFault::BadLogin => LogFault::Refused,
        AnswerFault::BadStatus(_)
        | AnswerFault::TooLong
        | AnswerFault::BadJson
        | AnswerFault::BadMember(_) => LogFault::BadAnswer,
    }
}

impl CallFault {
    ghost use Rattle.std.specs.Prelude.{◌≡◌};
    ghost use Rattle.etcd_client.specs.Faults.{log_fault};

    /// Returns what it is for one who uses the log.
    pub fn log_fault(self) -> LogFault
        ensures { result ≡ log_fault self }
    {
        match self {
            CallFault::Open | CallFault::Write | CallFault::Read | CallFault::Ended => {
                LogFault::Unreachable
            }
            CallFault::BadMessage | CallFault::TooLong => LogFault::BadAnswer,
            CallFault::Answer(fault) => answer_fault(fault),
            CallFault::NoMemory => LogFault::NoMemory,
        }
    }
}

/// Says why an answer was not read.
impl From<Unread> for CallFault {
    ghost from_gives = { λ unread fault. fault ≡ call_fault unread };

    fn from(unread: Unread) -> CallFault {
        match unread {
            Unread::Bad(fault) => CallFault::Answer(fault),
            Unread::NoMemory => CallFault::NoMemory,
        }
    }
}

/// Says why a message got no answer.
impl From<ExchangeFault> for CallFault {
    ghost from_gives = { λ cause fault. fault ≡ message_fault cause };

    fn from(cause: ExchangeFault) -> CallFault {
        match cause {
            ExchangeFault::Open => CallFault::Open,
            ExchangeFault::Write => CallFault::Write,
            ExchangeFault::Read => CallFault::Read,
            ExchangeFault::Ended => CallFault::Ended,
            ExchangeFault::BadMessage => CallFault::BadMessage,
            ExchangeFault::TooLong => CallFault::TooLong,
            ExchangeFault::NoMemory => CallFault::NoMemory,
        }
    }
}

impl From<AllocError> for CallFault {
    ghost from_gives = { λ _ fault. fault ≡ OutOfMemory };

    fn from(_error: AllocError) -> CallFault {
        CallFault::NoMemory
    }
}

impl<T: Drop> From<AllocFailed<T>> for CallFault {
    ghost from_gives = { λ _ fault. fault ≡ OutOfMemory };

    fn from(_error: AllocFailed<T>) -> CallFault {
        CallFault::NoMemory
    }
}

impl From<NoMemory> for CallFault {
    ghost from_gives = { λ _ fault. fault ≡ OutOfMemory };

    fn from(_error: NoMemory) -> CallFault {
        CallFault::NoMemory
    }
}
