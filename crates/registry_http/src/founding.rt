//! The response to a query for the founding.

ghost use Rattle.std.specs.Prelude.{◌≡◌, ◌++◌, ◌∷◌, [], ℕ, List, false, map, IfOk, OnOk};
ghost use Rattle.serde_json.specs.View.{view, members_view, items_view};
ghost use Rattle.serde_json.specs.Data.{string, put};
ghost use Rattle.serde_json.specs.Written.{has_float, items_have_float, members_have_float};
ghost use Rattle.registry_http.specs.Foundings.{texts_data, range_data, spans_data, vendor_data, vendors_data, put_lists, put_names, founding_members, founding_response};

use crate::json_object::{object_value, put_array, put_text, text_value};
use crate::resources::found_response;
use crate::response::Response;
use registry_rules::{Founding, Vendor};
use serde_json::{Map, Value};
use std::alloc::Global;
use usbnum_core::{NoMemory, Span, Text, TextRule};

/// Puts an array of texts at a key.
fn put_texts<R: TextRule>(
    alloc: Global,
    members: &mut Map<String, Value>,
    key: &str,
    texts: &[Text<R>],
) -> Result<(), NoMemory>
    ensures value { OnOk result (members_view members.new.entries ≡ put key.now (texts_data texts.now) (members_view members.old.entries)) }
    ensures plain { OnOk result (members_have_float (members_view members.old.entries) ≡ false → members_have_float (members_view members.new.entries) ≡ false) }
{
    let mut items = Vec::new(alloc);
    for text in texts {
        items.push(text_value(alloc, text.as_str())?)?;
    }
    put_array(alloc, members, key, items)
}

fn span_value(alloc: Global, span: &Span) -> Result<Value, NoMemory>
    ensures { IfOk result (λ value. view value ≡ range_data span.now) }
{
    Ok(Value::String(span.to_string(alloc)?))
}

/// Puts an array of spans at a key.
fn put_spans(
    alloc: Global,
    members: &mut Map<String, Value>,
    key: &str,
    spans: &[Span],
) -> Result<(), NoMemory>
    ensures value { OnOk result (members_view members.new.entries ≡ put key.now (spans_data spans.now) (members_view members.old.entries)) }
    ensures plain { OnOk result (members_have_float (members_view members.old.entries) ≡ false → members_have_float (members_view members.new.entries) ≡ false) }
{
    let mut items = Vec::new(alloc);
    for span in spans {
        items.push(span_value(alloc, span)?)?;
    }
    put_array(alloc, members, key, items)
}

fn vendor_value(alloc: Global, vendor: &Vendor) -> Result<Value, NoMemory>
    ensures { IfOk result (λ value. view value ≡ vendor_data vendor.now) }
{
    let mut members = Map::new(alloc);
    put_text(alloc, &mut members, "name", vendor.name.as_str())?;
    let digits = vendor.vid.to_string(alloc)?;
    put_text(alloc, &mut members, "vendor", digits.as_str())?;
    Ok(object_value(members))
}

/// Puts an array of vendors at a key.
fn put_vendors(
    alloc: Global,
    members: &mut Map<String, Value>,
    key: &str,
    vendors: &[Vendor],
) -> Result<(), NoMemory>
    ensures value { OnOk result (members_view members.new.entries ≡ put key.now (vendors_data vendors.now) (members_view members.old.entries)) }
    ensures plain { OnOk result (members_have_float (members_view members.old.entries) ≡ false → members_have_float (members_view members.new.entries) ≡ false) }
{
    let mut items = Vec::new(alloc);
    for vendor in vendors {
        items.push(vendor_value(alloc, vendor)?)?;
    }
    put_array(alloc, members, key, items)
}

#[tactic(auto, unfolding(crate::specs::Foundings::put_lists))]
fn put_lists(
    alloc: Global,
    members: &mut Map<String, Value>,
    founding: &Founding,
) -> Result<(), NoMemory>
    ensures value { OnOk result (members_view members.new.entries ≡ put_lists founding.now (members_view members.old.entries)) }
    ensures plain { OnOk result (members_have_float (members_view members.old.entries) ≡ false → members_have_float (members_view members.new.entries) ≡ false) }
{
    put_texts(alloc, members, "curators", founding.curators.as_slice())?;
    put_spans(alloc, members, "fixed", founding.fixed.parts())?;
    put_texts(alloc, members, "licences", founding.licences.as_slice())
}

#[tactic(auto, unfolding(crate::specs::Foundings::put_names))]
fn put_names(
    alloc: Global,
    members: &mut Map<String, Value>,
    founding: &Founding,
) -> Result<(), NoMemory>
    ensures value { OnOk result (members_view members.new.entries ≡ put_names founding.now (members_view members.old.entries)) }
    ensures plain { OnOk result (members_have_float (members_view members.old.entries) ≡ false → members_have_float (members_view members.new.entries) ≡ false) }
{
    put_text(alloc, members, "name", founding.name.as_str())?;
    let digits = founding.vendor.to_string(alloc)?;
    put_text(alloc, members, "vendor", digits.as_str())
}

/// Makes the response to a query for the founding: its values, and all vendors of the registry.
#[tactic(auto, unfolding(crate::specs::Foundings::founding_response, crate::specs::Foundings::founding_members))]
pub fn founding_response(
    alloc: Global,
    founding: &Founding,
    vendors: &[Vendor],
) -> Result<Response, NoMemory>
    ensures { IfOk result (λ response. response ≡ founding_response founding.now vendors.now) }
{
    let mut members = Map::new(alloc);
    put_lists(alloc, &mut members, founding)?;
    put_names(alloc, &mut members, founding)?;
    put_vendors(alloc, &mut members, "vendors", vendors)?;
    found_response(alloc, members)
}
