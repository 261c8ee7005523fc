//! The names of numbers and spans in replies.

ghost use Rattle.std.specs.Prelude.{Some};
ghost use Rattle.registry_rules.specs.Reply.{number_text, span_text};

use std::fmt;
use usbnum_core::{Number, Span, Vid};

/// The name of a number in replies. It shows the vendor if that is foreign, which means that it is
/// not the founding vendor.
#[derive(Clone, Copy, Debug, PartialEq, Eq)]
pub struct NumberName {
    /// The number.
    pub number: Number,
    /// Whether the vendor is foreign.
    pub foreign: bool,
}

/// Writes the name, as in `0011` or `cafe:0011`.
impl fmt::Display for NumberName {
    ghost output = { λ name. Some (number_text name) };

    fn fmt<W: fmt::Write>(&self, f: &mut fmt::Formatter<W>) -> fmt::Result {
        if self.foreign {
            write!(f, "{}:{}", self.number.vid, self.number.pid)
        } else {
            write!(f, "{}", self.number.pid)
        }
    }
}

/// The name of a span in replies, with the vendor if that is foreign.
#[derive(Clone, Copy, Debug, PartialEq, Eq)]
pub struct SpanName {
    /// The vendor.
    pub vid: Vid,
    /// The product IDs.
    pub span: Span,
    /// Whether the vendor is foreign.
    pub foreign: bool,
}

/// Writes the name, as in `2000-20ff` or `cafe:2000-20ff`.
impl fmt::Display for SpanName {
    ghost output = { λ name. Some (span_text name) };

    fn fmt<W: fmt::Write>(&self, f: &mut fmt::Formatter<W>) -> fmt::Result {
        if self.foreign {
            write!(f, "{}:{}", self.vid, self.span)
        } else {
            write!(f, "{}", self.span)
        }
    }
}
