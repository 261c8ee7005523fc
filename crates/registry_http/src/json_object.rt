//! Makes JSON objects of texts, whole numbers and arrays, member by member.

ghost use Rattle.std.specs.Prelude.{◌≡◌, false, IfOk, OnOk, option_copied, string_bytes};
ghost use Rattle.serde_json.specs.Data.{string, number, unsigned, array, object, put};
ghost use Rattle.serde_json.specs.View.{view, items_view, members_view};
ghost use Rattle.serde_json.specs.Written.{compact_text, has_float, items_have_float, members_have_float};
ghost use Rattle.registry_http.specs.Objects.{put_text, put_if};

use serde_json::{Map, Number, Value};
use std::alloc::Global;
use usbnum_core::NoMemory;

fn put(
    alloc: Global,
    members: &mut Map<String, Value>,
    key: &str,
    value: Value,
) -> Result<(), NoMemory>
    ensures value { OnOk result (members_view members.new.entries ≡ put key.now (view value) (members_view members.old.entries)) }
    ensures plain { OnOk result (has_float (view value) ≡ false → members_have_float (members_view members.old.entries) ≡ false → members_have_float (members_view members.new.entries) ≡ false) }
{
    members.insert(String::from_str(alloc, key)?, value)?;
    Ok(())
}

/// Makes a text.
pub(crate) fn text_value(alloc: Global, text: &str) -> Result<Value, NoMemory>
    ensures { IfOk result (λ value. view value ≡ string text.now) }
{
    Ok(Value::String(String::from_str(alloc, text)?))
}

/// Puts a text at a key.
pub(crate) fn put_text(
    alloc: Global,
    members: &mut Map<String, Value>,
    key: &str,
    text: &str,
) -> Result<(), NoMemory>
    ensures value { OnOk result (members_view members.new.entries ≡ put_text key.now text.now (members_view members.old.entries)) }
    ensures plain { OnOk result (members_have_float (members_view members.old.entries) ≡ false → members_have_float (members_view members.new.entries) ≡ false) }
{
    let value = text_value(alloc, text)?;
    put(alloc, members, key, value)
}

/// Puts a text at a key, if there is a text.
pub(crate) fn put_if(
    alloc: Global,
    members: &mut Map<String, Value>,
    key: &str,
    text: Option<&str>,
) -> Result<(), NoMemory>
    ensures value { OnOk result (members_view members.new.entries ≡ put_if key.now (option_copied text.entry) (members_view members.old.entries)) }
    ensures plain { OnOk result (members_have_float (members_view members.old.entries) ≡ false → members_have_float (members_view members.new.entries) ≡ false) }
{
    match text {
        Some(text) => put_text(alloc, members, key, text),
        None => Ok(()),
    }
}

fn number_value(count: u32) -> Value
    ensures { view result ≡ number (unsigned count) }
{
    Value::Number(Number::from(count))
}

/// Puts a whole number at a key.
pub(crate) fn put_number(
    alloc: Global,
    members: &mut Map<String, Value>,
    key: &str,
    count: u32,
) -> Result<(), NoMemory>
    ensures value { OnOk result (members_view members.new.entries ≡ put key.now (number (unsigned count)) (members_view members.old.entries)) }
    ensures plain { OnOk result (members_have_float (members_view members.old.entries) ≡ false → members_have_float (members_view members.new.entries) ≡ false) }
{
    put(alloc, members, key, number_value(count))
}

/// Puts an array at a key.
pub(crate) fn put_array(
    alloc: Global,
    members: &mut Map<String, Value>,
    key: &str,
    items: Vec<Value>,
) -> Result<(), NoMemory>
    ensures value { OnOk result (members_view members.new.entries ≡ put key.now (array (items_view items.items)) (members_view members.old.entries)) }
    ensures plain { OnOk result (items_have_float (items_view items.items) ≡ false → members_have_float (members_view members.old.entries) ≡ false → members_have_float (members_view members.new.entries) ≡ false) }
{
    put(alloc, members, key, Value::Array(items))
}

/// Makes an object.
pub(crate) fn object_value(members: Map<String, Value>) -> Value
    ensures { view result ≡ object (members_view members.entries) }
{
    Value::Object(members)
}

/// Returns the text of an object.
pub(crate) fn object_text(alloc: Global, members: Map<String, Value>) -> Result<String, NoMemory>
    requires { members_have_float (members_view members.entries) ≡ false }
    ensures { IfOk result (λ text. string_bytes text ≡ compact_text (object (members_view members.entries))) }
{
    let value = object_value(members);
    Ok(value.to_string(alloc)?)
}
