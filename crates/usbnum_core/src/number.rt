//! A product ID with its vendor ID, and a span of product IDs.

ghost use Rattle.std.specs.Prelude.{◌≡◌, ◌≤◌, ◌<◌, ◌⊎◌, ◌↔◌, Some, IfSome, IsSome, IsTrue};
ghost use Rattle.usbnum_core.specs.Number.{range_text};

use crate::{Pid, Vid};
use std::fmt;

/// The vendor ID and the product ID of a device. Ordered by vendor ID, then by product ID.
#[derive(Clone, Copy, Debug, PartialEq, Eq, PartialOrd, Ord, Hash)]
pub struct Number {
    /// The vendor ID.
    pub vid: Vid,
    /// The product ID.
    pub pid: Pid,
}

impl Number {
    /// Returns whether the number comes before the other: by vendor ID, then by product ID.
    pub fn is_before(&self, other: &Number) -> bool
        ensures { IsTrue result ↔ ((self.now.vid < other.now.vid) ⊎ ((self.now.vid ≡ other.now.vid) × (self.now.pid < other.now.pid))) }
    {
        self < other
    }
}

/// All product IDs from the first to the last.
#[derive(Clone, Copy, Debug, PartialEq, Eq)]
pub struct Span {
    first: Pid,
    last: Pid,
    pub ghost ordered: { first ≤ last },
}

impl Span {
    /// Makes the span from the first to the last, or returns None if the last is below the first.
    pub fn new(first: Pid, last: Pid) -> Option<Span>
        ensures valid { IsSome result ↔ (first ≤ last) }
        ensures ends { IfSome result (λ span. (span.first ≡ first) × (span.last ≡ last)) }
    {
        if first <= last {
            Some(Span { first, last })
        } else {
            None
        }
    }

    // The span between two numbers that are in order.
    pub(crate) fn between(first: Pid, last: Pid) -> Span
        requires { first ≤ last }
        ensures first { result.first ≡ first }
        ensures last { result.last ≡ last }
    {
        Span { first, last }
    }

    /// Returns the least number of the span.
    pub fn first(&self) -> Pid
        ensures { result ≡ self.now.first }
    {
        self.first
    }

    /// Returns the greatest number of the span.
    pub fn last(&self) -> Pid
        ensures last { result ≡ self.now.last }
        ensures ordered { self.now.first ≤ result }
    {
        self.last
    }
}

/// Writes the digits of both ends, for example `2000-20ff`.
impl fmt::Display for Span {
    ghost output = { λ span. Some (range_text span.first span.last) };

    fn fmt<W: fmt::Write>(&self, f: &mut fmt::Formatter<W>) -> fmt::Result {
        write!(f, "{}-{}", self.first, self.last)
    }
}
