//! Reads a founding from the object of a record's line.

ghost use Rattle.std.specs.Prelude.{◌≡◌};
ghost use Rattle.serde_json.specs.View.{view};
ghost use Rattle.registry_rules.specs.Gives.{Gives};
ghost use Rattle.registry_rules.specs.Limits.{most_curators, most_licences};
ghost use Rattle.registry_wire.specs.Reading.{slug_from, title_from};
ghost use Rattle.registry_wire.specs.Record.{is_before_all, is_ascending, texts_from, is_spread, spans_from, key_value, founding_in};

use crate::founding::spans_of;
use crate::json_value::{FromJson, all_from};
use crate::present::present;
use crate::{FoundingFault, WireRefusal};
use registry_rules::{Curators, Founding, Licences, Rejection};
use serde_json::Value;
use std::alloc::Global;
use usbnum_core::{NoMemory, Slug, Span, Spans, Text, TextRule, Title};

// Whether the text comes before the first of these, if there is one.
fn is_before_all<R: TextRule>(text: &Text<R>, others: &[Text<R>]) -> bool
    ensures { result ≡ is_before_all text.now others.now }
{
    match others {
        [first, ..] => text < first,
        [] => true,
    }
}

// Whether the texts ascend, without repeats.
fn is_ascending<R: TextRule>(texts: &[Text<R>]) -> bool
    ensures { result ≡ is_ascending texts.now }
{
    for (i, text) in texts.iter().enumerate() {
        if !is_before_all(text, &texts[i + 1..]) {
            return false;
        }
    }
    true
}

impl FromJson for Curators {
    ghost kind = { texts_from slug_from most_curators };

    fn read(alloc: Global, value: &Value) -> Result<Option<Curators>, NoMemory> {
        let Some(array) = value.as_array() else {
            return Ok(None);
        };
        let Some(slugs) = all_from::<Slug>(alloc, array)? else {
            return Ok(None);
        };
        if is_ascending(&slugs) {
            Ok(Curators::new(slugs))
        } else {
            Ok(None)
        }
    }
}

impl FromJson for Licences {
    ghost kind = { texts_from title_from most_licences };

    fn read(alloc: Global, value: &Value) -> Result<Option<Licences>, NoMemory> {
        let Some(array) = value.as_array() else {
            return Ok(None);
        };
        let Some(titles) = all_from::<Title>(alloc, array)? else {
            return Ok(None);
        };
        if is_ascending(&titles) {
            Ok(Licences::new(titles))
        } else {
            Ok(None)
        }
    }
}

// Whether the spans are maximal.
fn is_spread(spans: &[Span]) -> bool
    ensures { result ≡ is_spread 1 spans.now }
{
    let mut start: u32 = 1;
    for span in spans {
        if u32::from(span.first().get()) < start {
            return false;
        }
        start = u32::from(span.last().get()) + 2;
    }
    true
}

impl FromJson for Spans {
    ghost kind = { spans_from };

    fn read(alloc: Global, value: &Value) -> Result<Option<Spans>, NoMemory> {
        let Some(array) = value.as_array() else {
            return Ok(None);
        };
        let Some(spans) = all_from::<Span>(alloc, array)? else {
            return Ok(None);
        };
        if is_spread(&spans) {
            Ok(Some(spans_of(alloc, &spans)?))
        } else {
            Ok(None)
        }
    }
}

// The value of a key.
#[tactic(auto, unfolding(crate::specs::Record::key_value))]
fn key_at<T: FromJson>(
    alloc: Global,
    value: &Value,
    key: FoundingFault,
) -> Result<T, Rejection<WireRefusal>>
    ensures { Gives result (key_value T.kind key (view value.now)) }
{
    let Some(found) = value.get(key.name()) else {
        return present(WireRefusal::BadFounding(key), None);
    };
    present(WireRefusal::BadFounding(key), T::read(alloc, found)?)
}

// Reads a founding, whose lists are in order.
#[tactic(auto, unfolding(crate::specs::Record::founding_in))]
pub(crate) fn founding_at(alloc: Global, value: &Value) -> Result<Founding, Rejection<WireRefusal>>
    ensures { Gives result (founding_in (view value.now)) }
{
    Ok(Founding {
        vendor: key_at(alloc, value, FoundingFault::Vendor)?,
        name: key_at(alloc, value, FoundingFault::Name)?,
        curators: key_at(alloc, value, FoundingFault::Curators)?,
        licences: key_at(alloc, value, FoundingFault::Licences)?,
        fixed: key_at(alloc, value, FoundingFault::Fixed)?,
    })
}
