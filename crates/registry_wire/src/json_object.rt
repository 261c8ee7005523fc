//! Makes JSON objects, member by member.

ghost use Rattle.std.specs.Prelude.{◌≡◌, false, IfOk, OnOk, string_bytes};
ghost use Rattle.serde_json.specs.Data.{string, object, put};
ghost use Rattle.serde_json.specs.View.{view, members_view};
ghost use Rattle.serde_json.specs.Written.{compact_text, members_have_float};

use serde_json::{Map, Value};
use std::alloc::Global;
use usbnum_core::NoMemory;

/// The members of an object.
pub(crate) type Members = Map<String, Value>;

/// Puts a value at a key.
pub(crate) fn put(
    alloc: Global,
    members: &mut Members,
    key: &str,
    value: Value,
) -> Result<(), NoMemory>
    ensures { OnOk result (members_view members.new.entries ≡ put key.now (view value) (members_view members.old.entries)) }
{
    members.insert(String::from_str(alloc, key)?, value)?;
    Ok(())
}

/// Returns a text as a value.
pub(crate) fn text_value(alloc: Global, text: &str) -> Result<Value, NoMemory>
    ensures { IfOk result (λ value. view value ≡ string text.now) }
{
    Ok(Value::String(String::from_str(alloc, text)?))
}

fn object_value(members: Members) -> Value
    ensures { view result ≡ object (members_view members.entries) }
{
    Value::Object(members)
}

/// Returns the text of an object that has no fraction.
pub(crate) fn object_text(alloc: Global, members: Members) -> Result<String, NoMemory>
    requires { members_have_float (members_view members.entries) ≡ false }
    ensures { IfOk result (λ text. string_bytes text ≡ compact_text (object (members_view members.entries))) }
{
    let value = object_value(members);
    Ok(value.to_string(alloc)?)
}
