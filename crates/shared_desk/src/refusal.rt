//! What a message gets if the registry does not go on with its log, and whether the server does.

ghost use Rattle.std.specs.Prelude.{◌≡◌};
ghost use Rattle.shared_desk.specs.Refusals.{fault_behind_stop, may_pass, stop_of, unavailable_for};

use registry_desk::{DeskFault, unavailable_of};
use registry_http::Unavailable;
use registry_store::Fault;
use shared_log::LogFault;
use shared_registry::ShareStop;

/// Returns the refusal for this stop: 31 when out of memory, 30 for any other.
pub(crate) fn unavailable_for(stop: ShareStop) -> Unavailable
    ensures { result ≡ unavailable_for stop }
{
    match stop {
        ShareStop::Registry(fault) => unavailable_of(DeskFault::Registry(fault)),
        ShareStop::Log(LogFault::NoMemory) | ShareStop::NoMemory => Unavailable::NoMemory,
        ShareStop::Log(
            LogFault::NoQuorum | LogFault::Unreachable | LogFault::Refused | LogFault::BadAnswer,
        )
        | ShareStop::OtherRecord(_)
        | ShareStop::Ahead
        | ShareStop::Empty
        | ShareStop::Full => Unavailable::StoreFault,
    }
}

/// Returns whether what stopped a message may have passed at the next one. If so, the server goes on.
pub(crate) fn may_pass(stop: ShareStop) -> bool
    ensures { result ≡ may_pass stop }
{
    match stop {
        ShareStop::Log(_) | ShareStop::NoMemory => true,
        ShareStop::Registry(_)
        | ShareStop::OtherRecord(_)
        | ShareStop::Ahead
        | ShareStop::Empty
        | ShareStop::Full => false,
    }
}

/// Returns the stop for the fault of a query.
pub(crate) fn stop_of(fault: DeskFault) -> ShareStop
    ensures { result ≡ stop_of fault }
{
    match fault {
        DeskFault::Registry(fault) => ShareStop::Registry(fault),
        DeskFault::NoMemory => ShareStop::NoMemory,
    }
}

/// Returns the fault of the registry behind a response, if any.
pub(crate) fn fault_behind(stop: Option<ShareStop>) -> Option<Fault>
    ensures { result ≡ fault_behind_stop stop }
{
    match stop {
        Some(ShareStop::Registry(fault)) => Some(fault),
        Some(
            ShareStop::Log(_)
            | ShareStop::OtherRecord(_)
            | ShareStop::Ahead
            | ShareStop::Empty
            | ShareStop::Full
            | ShareStop::NoMemory,
        )
        | None => None,
    }
}
