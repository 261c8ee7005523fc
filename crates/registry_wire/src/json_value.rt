//! Reads values of JSON, in a request or in a record's line.

ghost use Rattle.std.specs.Prelude.{◌≡◌, IfOk, option_map, option_and_then};
ghost use Rattle.serde_json.specs.View.{view, items_view};
ghost use Rattle.serde_json.specs.Find.{as_str};
ghost use Rattle.usbnum_core.specs.Number.{code_of};
ghost use Rattle.registry_wire.specs.Reading.{slug_from, key_from, title_from, time_from, digest_from, id_from, whole_from};
ghost use Rattle.registry_wire.specs.Record.{span_from, item_from, item_of_pair, title_or_null, items_from, all_from};

use crate::toml_value::span_written;
use registry_rules::{Item, Items, ReplyText};
use serde_json::Value;
use std::alloc::Global;
use usbnum_core::{
    Digest, Key, NoMemory, Pid, Slug, Span, Time, Title, Vid, parse_code, parse_pid, parse_vid,
};

// A type that is read from one JSON value.
pub(crate) trait FromJson: Drop {
    ghost use Rattle.std.specs.Prelude.{Option};
    ghost use Rattle.serde_json.specs.Data.{Data};

    ghost kind: { Data → Option Self };

    fn read(alloc: Global, value: &Value) -> Result<Option<Self>, NoMemory>
        ensures { IfOk result (λ found. found ≡ kind (view value.now)) };
}

impl FromJson for Vid {
    ghost kind = { id_from };

    fn read(_alloc: Global, value: &Value) -> Result<Option<Vid>, NoMemory> {
        match value.as_str() {
            Some(text) => Ok(parse_vid(text.as_bytes())),
            None => Ok(None),
        }
    }
}

impl FromJson for Pid {
    ghost kind = { id_from };

    fn read(_alloc: Global, value: &Value) -> Result<Option<Pid>, NoMemory> {
        match value.as_str() {
            Some(text) => Ok(parse_pid(text.as_bytes())),
            None => Ok(None),
        }
    }
}

// A whole number, without a decimal point or exponent.
impl FromJson for u64 {
    ghost kind = { whole_from };

    fn read(_alloc: Global, value: &Value) -> Result<Option<u64>, NoMemory> {
        Ok(value.as_u64())
    }
}

impl FromJson for ReplyText {
    ghost kind = { as_str };

    fn read(alloc: Global, value: &Value) -> Result<Option<ReplyText>, NoMemory> {
        match value.as_str() {
            Some(text) => Ok(Some(ReplyText::new(String::from_str(alloc, text)?))),
            None => Ok(None),
        }
    }
}

impl FromJson for Slug {
    ghost kind = { slug_from };

    #[tactic(auto, unfolding(crate::specs::Kinds::slug_of))]
    fn read(alloc: Global, value: &Value) -> Result<Option<Slug>, NoMemory> {
        match value.as_str() {
            Some(text) => Slug::new(alloc, text.as_bytes()),
            None => Ok(None),
        }
    }
}

impl FromJson for Key {
    ghost kind = { key_from };

    #[tactic(auto, unfolding(crate::specs::Kinds::key_of))]
    fn read(alloc: Global, value: &Value) -> Result<Option<Key>, NoMemory> {
        match value.as_str() {
            Some(text) => Key::new(alloc, text.as_bytes()),
            None => Ok(None),
        }
    }
}

impl FromJson for Title {
    ghost kind = { title_from };

    #[tactic(auto, unfolding(crate::specs::Kinds::title_of))]
    fn read(alloc: Global, value: &Value) -> Result<Option<Title>, NoMemory> {
        match value.as_str() {
            Some(text) => Title::new(alloc, text.as_bytes()),
            None => Ok(None),
        }
    }
}

impl FromJson for Time {
    ghost kind = { time_from };

    #[tactic(auto, unfolding(crate::specs::Kinds::time_of))]
    fn read(alloc: Global, value: &Value) -> Result<Option<Time>, NoMemory> {
        match value.as_str() {
            Some(text) => Time::new(alloc, text.as_bytes()),
            None => Ok(None),
        }
    }
}

impl FromJson for Digest {
    ghost kind = { digest_from };

    #[tactic(auto, unfolding(crate::specs::Kinds::kept_digest))]
    fn read(alloc: Global, value: &Value) -> Result<Option<Digest>, NoMemory> {
        match value.as_str() {
            Some(text) => Digest::new(alloc, text.as_bytes()),
            None => Ok(None),
        }
    }
}

impl FromJson for Span {
    ghost kind = { span_from };

    fn read(_alloc: Global, value: &Value) -> Result<Option<Span>, NoMemory> {
        match value.as_str() {
            Some(text) => Ok(span_written(text.as_bytes())),
            None => Ok(None),
        }
    }
}

fn code_from(value: &Value) -> Option<u16>
    ensures { result ≡ option_and_then code_of (as_str (view value.now)) }
{
    parse_code(value.as_str()?.as_bytes())
}

// The title of an item, or null.
fn title_or_null(alloc: Global, value: &Value) -> Result<Option<Option<Title>>, NoMemory>
    ensures { IfOk result (λ found. found ≡ title_or_null (view value.now)) }
{
    if value.is_null() {
        return Ok(Some(None));
    }
    match Title::read(alloc, value)? {
        Some(title) => Ok(Some(Some(title))),
        None => Ok(None),
    }
}

fn item_of_pair(alloc: Global, pair: &[Value]) -> Result<Option<Item>, NoMemory>
    ensures { IfOk result (λ found. found ≡ item_of_pair (items_view pair.now)) }
{
    let [code, title] = pair else {
        return Ok(None);
    };
    let Some(code) = code_from(code) else {
        return Ok(None);
    };
    match title_or_null(alloc, title)? {
        Some(title) => Ok(Some(Item { code, title })),
        None => Ok(None),
    }
}

impl FromJson for Item {
    ghost kind = { item_from };

    fn read(alloc: Global, value: &Value) -> Result<Option<Item>, NoMemory> {
        match value.as_array() {
            Some(pair) => item_of_pair(alloc, pair),
            None => Ok(None),
        }
    }
}

// The values of an array, if all are of the kind.
pub(crate) fn all_from<T: FromJson>(
    alloc: Global,
    values: &[Value],
) -> Result<Option<Vec<T>>, NoMemory>
    ensures { IfOk result (λ found. option_map (λ list. list.items) found ≡ all_from T.kind (items_view values.now)) }
{
    let mut list = Vec::new(alloc);
    for value in values {
        match T::read(alloc, value)? {
            Some(read) => list.push(read)?,
            None => return Ok(None),
        }
    }
    Ok(Some(list))
}

impl FromJson for Items {
    ghost kind = { items_from };

    fn read(alloc: Global, value: &Value) -> Result<Option<Items>, NoMemory> {
        let Some(array) = value.as_array() else {
            return Ok(None);
        };
        match all_from(alloc, array)? {
            Some(list) => Ok(Some(Items::new(list))),
            None => Ok(None),
        }
    }
}
