//! The reasons why a row shows no result.

use std::alloc::{AllocError, AllocFailed};
use usbnum_core::NoMemory;

/// The reason why a row shows no result.
#[derive(Clone, Copy, Debug, PartialEq, Eq)]
pub enum RowFault {
    /// It is no row of its kind.
    BadRow,
    /// A call did what it must not do.
    Wrong,
    /// Out of memory.
    OutOfMemory,
}

impl RowFault {
    /// Returns what is shown in place of a result.
    pub fn name(self) -> &'static str {
        match self {
            RowFault::BadRow => "bad row",
            RowFault::Wrong => "wrong",
            RowFault::OutOfMemory => "out of memory",
        }
    }
}

impl From<NoMemory> for RowFault {
    fn from(_error: NoMemory) -> RowFault {
        RowFault::OutOfMemory
    }
}

impl From<AllocError> for RowFault {
    fn from(_error: AllocError) -> RowFault {
        RowFault::OutOfMemory
    }
}

impl<T: Drop> From<AllocFailed<T>> for RowFault {
    fn from(_error: AllocFailed<T>) -> RowFault {
        RowFault::OutOfMemory
    }
}
