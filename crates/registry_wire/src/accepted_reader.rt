//! Reads an accepted request from the object of a record's line.

ghost use Rattle.std.specs.Prelude.{◌≡◌, ℕ, List, Option, Result};
ghost use Rattle.serde_json.specs.View.{view};
ghost use Rattle.registry_rules.specs.Gives.{Gives};
ghost use Rattle.registry_wire.specs.declared.field.Field.TheVariants as fields;
ghost use Rattle.registry_wire.specs.Reading.{text_in};
ghost use Rattle.registry_wire.specs.Record.{kept_import_in, names_import, kept_order_in, kept_request_in, line_with, accepted_line_in};
ghost use Rattle.registry_wire.specs.declared.refusal.WireRefusal.{WireRefusal as Refusal};

use crate::fields::{Origin, field_at, optional_at, text_at};
use crate::orders::order_at;
use crate::record::RecordLine;
use crate::{Field, WireRefusal};
use registry_rules::{Accepted, Import, Order, Rejection, Request};
use serde_json::Value;
use std::alloc::Global;
use usbnum_core::Digest;

#[tactic(auto, unfolding(crate::specs::Record::kept_import_in))]
fn import_at(alloc: Global, value: &Value) -> Result<Order, Rejection<WireRefusal>>
    ensures { Gives result (kept_import_in (view value.now)) }
{
    let org = field_at(alloc, value, Field::Org)?;
    let items = field_at(alloc, value, Field::Items)?;
    let vendor = optional_at(alloc, value, Field::Vendor)?;
    Ok(Order::Import(Import { org, items, vendor }))
}

fn is_import(value: &Value) -> bool
    ensures { result ≡ names_import (text_in fields.Order (view value.now)) }
{
    match text_at(value, Field::Order) {
        Some(name) => name == "import",
        None => false,
    }
}

// The order, which may be an import.
#[tactic(auto, unfolding(crate::specs::Record::kept_order_in))]
fn kept_order_at(alloc: Global, value: &Value) -> Result<Order, Rejection<WireRefusal>>
    ensures { Gives result (kept_order_in (view value.now)) }
{
    if is_import(value) {
        import_at(alloc, value)
    } else {
        order_at(alloc, Origin::Record, value)
    }
}

// Reads an accepted request with its reply.
#[tactic(auto, unfolding(crate::specs::Record::kept_request_in))]
fn accepted_at(alloc: Global, value: &Value) -> Result<Accepted, Rejection<WireRefusal>>
    ensures { Gives result (kept_request_in (view value.now)) }
{
    let caller = field_at(alloc, value, Field::Caller)?;
    let key = field_at(alloc, value, Field::Key)?;
    let order = kept_order_at(alloc, value)?;
    let reply = field_at(alloc, value, Field::Done)?;
    let time = optional_at(alloc, value, Field::At)?;
    let request = Request {
        caller,
        key,
        order,
        time,
    };
    Ok(Accepted { request, reply })
}

// The line of an accepted request with this digest, or why it has none.
fn with_digest(
    accepted: Accepted,
    digest: Result<Option<Digest>, Rejection<WireRefusal>>,
) -> Result<RecordLine, Rejection<WireRefusal>>
    ensures { (found : Result (Option (List ℕ)) Refusal) → Gives digest found → Gives result (line_with accepted found) }
{
    match digest {
        Ok(digest) => Ok(RecordLine::Accepted(accepted, digest)),
        Err(rejection) => Err(rejection),
    }
}

// Reads the line of an accepted request.
#[tactic(auto, unfolding(crate::specs::Record::accepted_line_in))]
pub(crate) fn accepted_line_at(
    alloc: Global,
    value: &Value,
) -> Result<RecordLine, Rejection<WireRefusal>>
    ensures { Gives result (accepted_line_in (view value.now)) }
{
    match accepted_at(alloc, value) {
        Ok(accepted) => with_digest(accepted, optional_at(alloc, value, Field::Digest)),
        Err(rejection) => Err(rejection),
    }
}
