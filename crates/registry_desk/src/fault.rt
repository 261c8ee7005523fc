//! Why a message gets refusal 30 or 31: the registry has a fault, or memory runs out.

ghost use Rattle.std.specs.Prelude.{◌≡◌};
ghost use Rattle.registry_desk.specs.declared.fault.DeskFault.TheVariants.{NoMemory as OutOfMemory};
ghost use Rattle.registry_desk.specs.Faults.{unavailable_of, registry_fault, failed_by};

use registry_http::Unavailable;
use registry_store::Fault;
use std::alloc::AllocError;
use usbnum_core::NoMemory;

/// Why a message gets refusal 30 or 31 instead of a response of its own.
#[derive(Clone, Copy, Debug, Drop, PartialEq, Eq)]
pub enum DeskFault {
    /// The registry had a fault.
    Registry(Fault),
    /// Out of memory for the message or its response.
    NoMemory,
}

/// Turns the fault of a query. Memory that runs out for a query is no fault of the registry, and
/// does not end a server. The fault of an order is always `DeskFault::Registry`.
impl From<Fault> for DeskFault {
    ghost from_gives = { λ fault gives. gives ≡ failed_by fault };

    fn from(fault: Fault) -> DeskFault {
        match fault {
            Fault::NoMemory => DeskFault::NoMemory,
            fault => DeskFault::Registry(fault),
        }
    }
}

impl From<NoMemory> for DeskFault {
    ghost from_gives = { λ _ gives. gives ≡ OutOfMemory };

    fn from(_error: NoMemory) -> DeskFault {
        DeskFault::NoMemory
    }
}

impl From<AllocError> for DeskFault {
    ghost from_gives = { λ _ gives. gives ≡ OutOfMemory };

    fn from(_error: AllocError) -> DeskFault {
        DeskFault::NoMemory
    }
}

/// Returns the refusal for a fault: 31 when out of memory, 30 for any other.
pub fn unavailable_of(fault: DeskFault) -> Unavailable
    ensures { result ≡ unavailable_of fault }
{
    match fault {
        DeskFault::NoMemory | DeskFault::Registry(Fault::NoMemory) => Unavailable::NoMemory,
        DeskFault::Registry(Fault::Store | Fault::Foreign | Fault::Taken | Fault::Poisoned) =>
            Unavailable::StoreFault,
    }
}

/// Returns the fault of the registry behind this one, if any.
pub(crate) fn registry_fault(fault: DeskFault) -> Option<Fault>
    ensures { result ≡ registry_fault fault }
{
    match fault {
        DeskFault::Registry(fault) => Some(fault),
        DeskFault::NoMemory => None,
    }
}
