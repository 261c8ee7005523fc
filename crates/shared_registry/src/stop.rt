//! Why a registry did not go on with its log.

ghost use Rattle.std.specs.Prelude.{◌≡◌};
ghost use Rattle.shared_registry.specs.declared.stop.ShareStop.TheVariants as stops;

use registry_store::Fault;
use shared_log::LogFault;
use usbnum_core::NoMemory;

/// Why a registry did not go on with the log that it follows.
#[derive(Clone, Copy, Debug, PartialEq, Eq)]
pub enum ShareStop {
    /// The registry had this fault, or was poisoned before.
    Registry(Fault),
    /// A call of the log got no answer, for this reason.
    Log(LogFault),
    /// The record of the registry does not go on with the line of the log that has this number,
    /// from 0.
    OtherRecord(u32),
    /// The log has fewer lines than the record of the registry.
    Ahead,
    /// The log has no line.
    Empty,
    /// The record of the registry has 2^32 - 1 lines, so many that no other is counted.
    Full,
    /// Memory ran out.
    NoMemory,
}

impl From<Fault> for ShareStop {
    ghost from_gives = { λ fault stop. stop ≡ stops.Registry fault };

    fn from(fault: Fault) -> ShareStop {
        ShareStop::Registry(fault)
    }
}

impl From<LogFault> for ShareStop {
    ghost from_gives = { λ fault stop. stop ≡ stops.Log fault };

    fn from(fault: LogFault) -> ShareStop {
        ShareStop::Log(fault)
    }
}

impl From<NoMemory> for ShareStop {
    ghost from_gives = { λ _ stop. stop ≡ stops.NoMemory };

    fn from(_error: NoMemory) -> ShareStop {
        ShareStop::NoMemory
    }
}
