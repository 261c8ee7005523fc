//! The faults of a text.
ghost use Rattle.std.specs.Prelude.{◌≡◌, Some};
ghost use Rattle.usbids_text.specs.Faults.{line_fault_text, read_fault_number, read_fault_text};

use crate::line::Why;
use std::error::Error;
use std::fmt;

/// The first faulty line of a text.
#[derive(Clone, Copy, Debug, PartialEq, Eq)]
pub struct LineFault {
    /// The line number, from 1. It stays at 2^64 - 1.
    pub line: u64,
    /// The fault of the line.
    pub why: Why,
}

/// The reason why a reader returns no document: a faulty line, or out of memory.
#[derive(Clone, Copy, Debug, PartialEq, Eq)]
pub enum ReadFault {
    /// The first faulty line.
    Line(LineFault),
    /// There was no memory for the document.
    NoMemory,
}

impl ReadFault {
    /// Returns the number of the fault: that of the faulty line's fault, or 5 if out of memory.
    pub fn number(&self) -> u8
        ensures { result ≡ read_fault_number self.now }
    {
        match self {
            ReadFault::Line(fault) => fault.why.number(),
            ReadFault::NoMemory => 5,
        }
    }
}

impl fmt::Display for LineFault {
    ghost output = { λ fault. Some (line_fault_text fault) };

    fn fmt<W: fmt::Write>(&self, f: &mut fmt::Formatter<W>) -> fmt::Result {
        write!(f, "line {}: {}", self.line, self.why)
    }
}

impl fmt::Display for ReadFault {
    ghost output = { λ fault. Some (read_fault_text fault) };

    fn fmt<W: fmt::Write>(&self, f: &mut fmt::Formatter<W>) -> fmt::Result {
        match self {
            ReadFault::Line(fault) => write!(f, "{fault}"),
            ReadFault::NoMemory => f.write_str("out of memory"),
        }
    }
}

impl Error for ReadFault {}
