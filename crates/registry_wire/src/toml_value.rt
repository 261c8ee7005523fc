//! Reads the values of a founding file.

ghost use Rattle.std.specs.Prelude.{◌≡◌, IfOk, option_map};
ghost use Rattle.toml.specs.View.{view, items_view};
ghost use Rattle.registry_wire.specs.Founding.{toml_id, toml_slug, toml_title, toml_span, span_after, span_written, all_of_kind};

use crate::span::span_of;
use std::alloc::Global;
use toml::Value;
use usbnum_core::{NoMemory, Pid, Slug, Span, Title, Vid, parse_pid, parse_vid};

// A type that is read from one TOML value.
pub(crate) trait FromToml: Drop {
    ghost use Rattle.std.specs.Prelude.{Option};
    ghost use Rattle.toml.specs.Data.{Data};

    ghost kind: { Data → Option Self };

    fn read(alloc: Global, value: &Value) -> Result<Option<Self>, NoMemory>
        ensures { IfOk result (λ found. found ≡ kind (view value.now)) };
}

impl FromToml for Vid {
    ghost kind = { toml_id };

    fn read(_alloc: Global, value: &Value) -> Result<Option<Vid>, NoMemory> {
        match value.as_str() {
            Some(text) => Ok(parse_vid(text.as_bytes())),
            None => Ok(None),
        }
    }
}

impl FromToml for Slug {
    ghost kind = { toml_slug };

    #[tactic(auto, unfolding(crate::specs::Kinds::slug_of))]
    fn read(alloc: Global, value: &Value) -> Result<Option<Slug>, NoMemory> {
        match value.as_str() {
            Some(text) => Slug::new(alloc, text.as_bytes()),
            None => Ok(None),
        }
    }
}

impl FromToml for Title {
    ghost kind = { toml_title };

    #[tactic(auto, unfolding(crate::specs::Kinds::title_of))]
    fn read(alloc: Global, value: &Value) -> Result<Option<Title>, NoMemory> {
        match value.as_str() {
            Some(text) => Title::new(alloc, text.as_bytes()),
            None => Ok(None),
        }
    }
}

// The span that begins with a number, alone or followed by a hyphen and its last number.
fn span_after(first: Pid, rest: &[u8]) -> Option<Span>
    ensures { result ≡ span_after first rest.now }
{
    match rest {
        [] => span_of(first, first),
        [b'-', last @ ..] => span_of(first, parse_pid(last)?),
        _ => None,
    }
}

// The span of a text: one number, or the first and the last with a hyphen between them.
#[tactic(auto, unfolding(crate::specs::Founding::span_written))]
pub(crate) fn span_written(text: &[u8]) -> Option<Span>
    ensures { result ≡ span_written text.now }
{
    let [a, b, c, d, rest @ ..] = text else {
        return None;
    };
    span_after(parse_pid(&[*a, *b, *c, *d])?, rest)
}

impl FromToml for Span {
    ghost kind = { toml_span };

    fn read(_alloc: Global, value: &Value) -> Result<Option<Span>, NoMemory> {
        match value.as_str() {
            Some(text) => Ok(span_written(text.as_bytes())),
            None => Ok(None),
        }
    }
}

// The values of an array, if all are of the kind.
pub(crate) fn all_of_kind<T: FromToml>(
    alloc: Global,
    values: &[Value],
) -> Result<Option<Vec<T>>, NoMemory>
    ensures { IfOk result (λ found. option_map (λ list. list.items) found ≡ all_of_kind T.kind (items_view values.now)) }
{
    let mut list = Vec::new(alloc);
    for value in values {
        match T::read(alloc, value)? {
            Some(read) => list.push(read)?,
            None => return Ok(None),
        }
    }
    Ok(Some(list))
}
