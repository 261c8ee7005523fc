//! Reads the lines of a record: the founding of a registry, and then its accepted requests with
//! their replies, oldest first.

ghost use Rattle.serde_json.specs.View.{view};
ghost use Rattle.registry_rules.specs.Gives.{Gives};
ghost use Rattle.registry_wire.specs.Record.{line_in, record_reading};

use crate::accepted_reader::accepted_line_at;
use crate::founding_reader::founding_at;
use crate::request::object_of;
use crate::{Field, WireRefusal};
use registry_rules::{Accepted, Founding, Rejection};
use serde_json::Value;
use std::alloc::Global;
use usbnum_core::Digest;

/// What one line of a record says.
#[derive(Debug, Drop)]
pub enum RecordLine {
    /// The founding of a registry, which is the first line of a whole record.
    Founding(Founding),
    /// An accepted request with its reply, and the digest after it, if the line has one.
    Accepted(Accepted, Option<Digest>),
}

#[tactic(auto, unfolding(crate::specs::Record::line_in))]
fn line_at(alloc: Global, value: &Value) -> Result<RecordLine, Rejection<WireRefusal>>
    ensures { Gives result (line_in (view value.now)) }
{
    if value.get(Field::Order.name()).is_some() {
        accepted_line_at(alloc, value)
    } else {
        Ok(RecordLine::Founding(founding_at(alloc, value)?))
    }
}

/// Reads a line of a record, without its line feed. An object with a member `order` is an accepted
/// request, any other object a founding; members that it does not need are ignored.
///
/// Returns the refusal `BadJson` if the bytes are not a JSON object. In an accepted request the
/// fields are checked in this order: `caller`, `key`, `order`, the fields of the order, `done`, and
/// `at` and `digest`, which may be missing. The first that is bad, or missing where it may not be, is
/// in the refusal `BadField`. A link stands as it is kept. In a founding the keys are checked in the
/// order of a founding file, and the first that is missing or bad is in the refusal `BadFounding`. So
/// is a list that is not in order, and spans that are not maximal.
#[tactic(auto, unfolding(crate::specs::Record::record_reading))]
pub fn record_line(alloc: Global, line: &[u8]) -> Result<RecordLine, Rejection<WireRefusal>>
    ensures { Gives result (record_reading line.now) }
{
    let value = object_of(alloc, line)?;
    line_at(alloc, &value)
}
