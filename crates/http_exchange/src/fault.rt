//! Why a request got no answer.

ghost use Rattle.std.specs.Prelude.{◌≡◌};
ghost use Rattle.http_exchange.specs.declared.fault.ExchangeFault.TheVariants.{NoMemory as OutOfMemory};

use std::alloc::AllocError;

/// Why a request got no answer.
#[derive(Clone, Copy, Debug, PartialEq, Eq)]
pub enum ExchangeFault {
    /// The connection was not made, or not in time.
    Open,
    /// A write failed, or took none of the bytes.
    Write,
    /// A read failed, or took too long.
    Read,
    /// The connection ended before the answer did.
    Ended,
    /// The bytes that came are not the beginning of an answer in HTTP/1.1.
    BadMessage,
    /// The answer has more than 32 MiB and 64 KiB.
    TooLong,
    /// Memory ran out.
    NoMemory,
}

impl From<AllocError> for ExchangeFault {
    ghost from_gives = { λ _ fault. fault ≡ OutOfMemory };

    fn from(_error: AllocError) -> ExchangeFault {
        ExchangeFault::NoMemory
    }
}
