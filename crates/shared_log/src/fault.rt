//! Why a log gave no answer.

ghost use Rattle.std.specs.Prelude.{◌≡◌};
ghost use Rattle.shared_log.specs.declared.fault.LogFault.TheVariants.{NoMemory as OutOfMemory};

use std::alloc::{AllocError, AllocFailed};
use usbnum_core::NoMemory;

/// Why a log gave no answer. What became of the request is then not known.
#[derive(Clone, Copy, Debug, PartialEq, Eq)]
pub enum LogFault {
    /// Too few machines of the log answer.
    NoQuorum,
    /// The log does not answer, or not in time.
    Unreachable,
    /// The name or the password of the user is refused.
    Refused,
    /// The answer is none of a log.
    BadAnswer,
    /// Memory ran out.
    NoMemory,
}

impl From<AllocError> for LogFault {
    ghost from_gives = { λ _ fault. fault ≡ OutOfMemory };

    fn from(_error: AllocError) -> LogFault {
        LogFault::NoMemory
    }
}

impl<T: Drop> From<AllocFailed<T>> for LogFault {
    ghost from_gives = { λ _ fault. fault ≡ OutOfMemory };

    fn from(_error: AllocFailed<T>) -> LogFault {
        LogFault::NoMemory
    }
}

impl From<NoMemory> for LogFault {
    ghost from_gives = { λ _ fault. fault ≡ OutOfMemory };

    fn from(_error: NoMemory) -> LogFault {
        LogFault::NoMemory
    }
}
