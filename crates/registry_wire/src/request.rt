//! Reads requests from a line of JSON or from the body of a message.

ghost use Rattle.serde_json.specs.View.{view};
ghost use Rattle.registry_rules.specs.Gives.{Gives};
ghost use Rattle.registry_wire.specs.Refusals.{GivesSeen};
ghost use Rattle.registry_wire.specs.Reading.{object_of, order_of_body, body_reading, request_in, line_reading};

use crate::fields::{Origin, field_at, optional_at};
use crate::orders::order_at;
use crate::{Field, WireRefusal};
use registry_rules::{Order, Rejection, Request};
use serde_json::Value;
use std::alloc::Global;
use usbnum_core::{Key, Slug, Time};

// Reads the bytes as a JSON object.
#[tactic(auto, unfolding(crate::specs::Reading::object_of))]
pub(crate) fn object_of(alloc: Global, bytes: &[u8]) -> Result<Value, Rejection<WireRefusal>>
    ensures { GivesSeen view result (object_of bytes.now) }
{
    match Value::from_slice(alloc, bytes) {
        Ok(value) => {
            if value.is_object() {
                Ok(value)
            } else {
                Err(Rejection::Refused(WireRefusal::BadJson))
            }
        }
        Err(error) => {
            if error.is_memory() {
                Err(Rejection::NoMemory)
            } else {
                Err(Rejection::Refused(WireRefusal::BadJson))
            }
        }
    }
}

// Reads a request from the object of a line.
#[tactic(auto, unfolding(crate::specs::Reading::request_in))]
fn request_at(alloc: Global, value: &Value) -> Result<Request, Rejection<WireRefusal>>
    ensures { Gives result (request_in (view value.now)) }
{
    let caller = field_at(alloc, value, Field::Caller)?;
    let key = field_at(alloc, value, Field::Key)?;
    let order = order_at(alloc, Origin::Caller, value)?;
    let time = optional_at(alloc, value, Field::At)?;
    Ok(Request {
        caller,
        key,
        order,
        time,
    })
}

/// Reads a request from a line of JSON, with its caller and key as fields, and its time if there is
/// a field `at`.
///
/// Returns the refusal of the first fault, which is checked in this order: `BadJson` if the bytes
/// are not a JSON object; `BadField` for `caller`, `key`, `order`, the fields of the order, and `at`.
#[tactic(auto, unfolding(crate::specs::Reading::line_reading))]
pub fn line_request(alloc: Global, line: &[u8]) -> Result<Request, Rejection<WireRefusal>>
    ensures { Gives result (line_reading line.now) }
{
    let value = object_of(alloc, line)?;
    request_at(alloc, &value)
}

// Reads the order of a body.
#[tactic(auto, unfolding(crate::specs::Reading::order_of_body))]
fn order_of_body(alloc: Global, body: &[u8]) -> Result<Order, Rejection<WireRefusal>>
    ensures { Gives result (order_of_body body.now) }
{
    let value = object_of(alloc, body)?;
    order_at(alloc, Origin::Caller, &value)
}

/// Reads a request from a body of JSON, with this caller, key and time.
///
/// Returns the refusal of the first fault: `BadJson` if the bytes are not a JSON object; `BadField`
/// for `order`, and the fields of the order.
#[tactic(auto, unfolding(crate::specs::Reading::body_reading))]
pub fn request_from_json(
    alloc: Global,
    caller: Slug,
    key: Key,
    time: Option<Time>,
    body: &[u8],
) -> Result<Request, Rejection<WireRefusal>>
    ensures { Gives result (body_reading caller key time body.now) }
{
    let order = order_of_body(alloc, body)?;
    Ok(Request {
        caller,
        key,
        order,
        time,
    })
}
