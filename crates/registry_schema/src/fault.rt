//! Why a call on the tables fails.

ghost use Rattle.std.specs.Prelude.{◌≡◌, ◌≢◌, ◌↔◌, Some};
ghost use Rattle.registry_schema.specs.Faults.{table_fault_text};

use sqlite::{Error, ErrorCode};
use std::fmt;

/// Why a call on the tables fails.
#[derive(Clone, Copy, Debug, PartialEq, Eq)]
pub enum TableFault {
    /// The store refused or failed.
    Store,
    /// Out of memory.
    NoMemory,
    /// The tables hold the rows of no history.
    Foreign,
}

/// The fault in a few words.
impl fmt::Display for TableFault {
    ghost output = { λ fault. Some (table_fault_text fault) };

    fn fmt<W: fmt::Write>(&self, f: &mut fmt::Formatter<W>) -> fmt::Result {
        f.write_str(match self {
            TableFault::Store => "the store failed",
            TableFault::NoMemory => "out of memory",
            TableFault::Foreign => "not the tables of a registry",
        })
    }
}

impl std::error::Error for TableFault {}

/// Maps an error of the store to a fault: `NoMemory` if it is out of memory, otherwise `Store`.
pub fn fault_of(error: Error) -> TableFault
    ensures memory { (result ≡ TableFault.NoMemory) ↔ (error ≡ Error.SqliteFailure ErrorCode.OutOfMemory) }
    ensures known { result ≢ TableFault.Foreign }
{
    match error {
        Error::SqliteFailure(ErrorCode::OutOfMemory) => TableFault::NoMemory,
        _ => TableFault::Store,
    }
}

impl From<Error> for TableFault {
    ghost use Rattle.registry_schema.specs.Faults.{IsFaultOf};

    ghost from_gives = { λ error fault. IsFaultOf error fault };

    fn from(error: Error) -> TableFault {
        fault_of(error)
    }
}
