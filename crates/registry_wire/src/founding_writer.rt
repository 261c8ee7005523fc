//! Writes a founding as a line of a record.

ghost use Rattle.std.specs.Prelude.{◌≡◌, map, IfOk, OnOk};
ghost use Rattle.std.specs.String.{string_bytes};
ghost use Rattle.serde_json.specs.Data.{string, array, no_members, put};
ghost use Rattle.serde_json.specs.View.{view, items_of, members_view};
ghost use Rattle.registry_wire.specs.Names.{fault_name};
ghost use Rattle.registry_wire.specs.Record.{span_data, founding_keys, with_keys, founding_line};

use crate::FoundingFault;
use crate::json_object::{Members, object_text, put, text_value};
use registry_rules::Founding;
use serde_json::{Map, Value};
use std::alloc::Global;
use usbnum_core::{NoMemory, Span, Text, TextRule};

fn texts_value<R: TextRule>(alloc: Global, texts: &[Text<R>]) -> Result<Value, NoMemory>
    ensures { IfOk result (λ value. view value ≡ array (items_of (map string texts.now))) }
{
    let mut values = Vec::new(alloc);
    for text in texts {
        values.push(text_value(alloc, text.as_str())?)?;
    }
    Ok(Value::Array(values))
}

// A span by its first and last number, as `0001-0010`.
#[tactic(auto, unfolding(crate::specs::Record::span_data))]
fn span_value(alloc: Global, span: Span) -> Result<Value, NoMemory>
    ensures { IfOk result (λ value. view value ≡ span_data span) }
{
    text_value(alloc, format!(in alloc; "{span}")?.as_str())
}

fn spans_value(alloc: Global, spans: &[Span]) -> Result<Value, NoMemory>
    ensures { IfOk result (λ value. view value ≡ array (items_of (map span_data spans.now))) }
{
    let mut values = Vec::new(alloc);
    for span in spans {
        values.push(span_value(alloc, *span)?)?;
    }
    Ok(Value::Array(values))
}

fn put_key(
    alloc: Global,
    members: &mut Members,
    key: FoundingFault,
    value: Value,
) -> Result<(), NoMemory>
    ensures { OnOk result (members_view members.new.entries ≡ put (fault_name key) (view value) (members_view members.old.entries)) }
{
    put(alloc, members, key.name(), value)
}

fn founding_members(alloc: Global, founding: &Founding) -> Result<Members, NoMemory>
    ensures { IfOk result (λ members. members_view members.entries ≡ with_keys (founding_keys founding.now) no_members) }
{
    let vendor = format!(in alloc; "{}", founding.vendor)?;
    let vendor = text_value(alloc, vendor.as_str())?;
    let name = text_value(alloc, founding.name.as_str())?;
    let curators = texts_value(alloc, founding.curators.as_slice())?;
    let licences = texts_value(alloc, founding.licences.as_slice())?;
    let fixed = spans_value(alloc, founding.fixed.parts())?;
    let mut members = Map::new(alloc);
    put_key(alloc, &mut members, FoundingFault::Vendor, vendor)?;
    put_key(alloc, &mut members, FoundingFault::Name, name)?;
    put_key(alloc, &mut members, FoundingFault::Curators, curators)?;
    put_key(alloc, &mut members, FoundingFault::Licences, licences)?;
    put_key(alloc, &mut members, FoundingFault::Fixed, fixed)?;
    Ok(members)
}

/// Returns a founding as one line of JSON, without a line feed: the keys of a founding file, with
/// all lists in order.
#[tactic(auto, unfolding(crate::specs::Record::founding_data))]
pub fn founding_line(alloc: Global, founding: &Founding) -> Result<String, NoMemory>
    ensures { IfOk result (λ line. string_bytes line ≡ founding_line founding.now) }
{
    object_text(alloc, founding_members(alloc, founding)?)
}
