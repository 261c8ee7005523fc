//! Why a call of a registry fails.

ghost use Rattle.std.specs.Prelude.{◌≡◌, Some};
ghost use Rattle.registry_store.specs.Faults.{fault_of, fault_text};
ghost use Rattle.registry_store.specs.declared.fault.Fault.TheVariants.{NoMemory as OutOfMemory};

use registry_tables::TableFault;
use std::alloc::AllocError;
use std::error::Error;
use std::fmt;
use usbnum_core::NoMemory;

/// Why a call of a registry fails.
#[derive(Clone, Copy, Debug, Drop, PartialEq, Eq)]
pub enum Fault {
    /// The store refused or failed.
    Store,
    /// Out of memory.
    NoMemory,
    /// The tables hold the rows of no history.
    Foreign,
    /// The database already has a table `meta`, so no registry is founded in it.
    Taken,
    /// An earlier `act` had a fault. Take the connection back, close it and open the files again; to
    /// open a registry on the same connection is not enough.
    Poisoned,
}

/// The fault in a few words.
impl fmt::Display for Fault {
    ghost output = { λ fault. Some (fault_text fault) };

    fn fmt<W: fmt::Write>(&self, f: &mut fmt::Formatter<W>) -> fmt::Result {
        f.write_str(match self {
            Fault::Store => "the store failed",
            Fault::NoMemory => "out of memory",
            Fault::Foreign => "not the tables of a registry",
            Fault::Taken => "the store holds a registry already",
            Fault::Poisoned => "the registry had a fault before and is poisoned",
        })
    }
}

impl Error for Fault {}

impl From<NoMemory> for Fault {
    ghost from_gives = { λ _ fault. fault ≡ OutOfMemory };

    fn from(_error: NoMemory) -> Fault {
        Fault::NoMemory
    }
}

impl From<AllocError> for Fault {
    ghost from_gives = { λ _ fault. fault ≡ OutOfMemory };

    fn from(_error: AllocError) -> Fault {
        Fault::NoMemory
    }
}

/// Turns a fault of the tables by `fault_of`.
impl From<TableFault> for Fault {
    ghost from_gives = { λ fault gives. gives ≡ fault_of fault };

    fn from(fault: TableFault) -> Fault {
        match fault {
            TableFault::Store => Fault::Store,
            TableFault::NoMemory => Fault::NoMemory,
            TableFault::Foreign => Fault::Foreign,
        }
    }
}
