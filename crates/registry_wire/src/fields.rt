//! Reads one field of a request in JSON as a value of its kind.

ghost use Rattle.std.specs.Prelude.{◌≡◌, IfOk, option_copied, option_map};
ghost use Rattle.serde_json.specs.View.{view};
ghost use Rattle.registry_rules.specs.Gives.{Gives};
ghost use Rattle.registry_wire.specs.Reading.{wanted, field_in, text_in, given_in, optional_in, link_from, link_in, least_petition, petition_number, petition_in, span_in};

use crate::json_value::FromJson;
use crate::link::link_of;
use crate::present::present;
use crate::span::span_of;
use crate::{Field, WireRefusal};
use registry_rules::Rejection;
use serde_json::Value;
use std::alloc::Global;
use usbnum_core::{Link, NoMemory, Span};

// The greatest number of a petition that is read.
const GREATEST_PETITION: u64 = 4_294_967_295;

// Where an object is from.
#[derive(Clone, Copy, Debug, PartialEq, Eq)]
pub(crate) enum Origin {
    // A caller: a link is any URL that has a canonical form, and petitions count from 1.
    Caller,
    // A record, which has every order as it is kept: a link stands in its canonical form.
    Record,
}

// The value of a field, or the refusal that the field is bad.
pub(crate) fn wanted<T>(field: Field, found: Option<T>) -> Result<T, Rejection<WireRefusal>>
    ensures { Gives result (wanted field found) }
{
    present(WireRefusal::BadField(field), found)
}

// Reads the value of a field.
#[tactic(auto, unfolding(crate::specs::Reading::field_in))]
pub(crate) fn field_at<T: FromJson>(
    alloc: Global,
    value: &Value,
    field: Field,
) -> Result<T, Rejection<WireRefusal>>
    ensures { Gives result (field_in T.kind field (view value.now)) }
{
    let Some(found) = value.get(field.name()) else {
        return wanted(field, None);
    };
    wanted(field, T::read(alloc, found)?)
}

// The text at a field.
pub(crate) fn text_at(value: &Value, field: Field) -> Option<&str>
    ensures { option_copied result ≡ text_in field (view value.now) }
{
    match value.get(field.name()) {
        Some(found) => found.as_str(),
        None => None,
    }
}

// A caller's link in its canonical form, or the link of a record as it stands.
#[tactic(auto, unfolding(crate::specs::Kinds::kept_link))]
fn link_from(alloc: Global, origin: Origin, text: &str) -> Result<Option<Link>, NoMemory>
    ensures { IfOk result (λ found. found ≡ link_from origin text.now) }
{
    match origin {
        Origin::Caller => link_of(alloc, text),
        Origin::Record => Link::new(alloc, text.as_bytes()),
    }
}

#[tactic(auto, unfolding(crate::specs::Reading::link_in))]
pub(crate) fn link_at(
    alloc: Global,
    origin: Origin,
    value: &Value,
    field: Field,
) -> Result<Link, Rejection<WireRefusal>>
    ensures { Gives result (link_in origin field (view value.now)) }
{
    let Some(text) = text_at(value, field) else {
        return wanted(field, None);
    };
    wanted(field, link_from(alloc, origin, text)?)
}

// The value at a field, if there is one other than null.
fn given_at(value: &Value, field: Field) -> Option<&Value>
    ensures { option_map (λ found. view found.now) result ≡ given_in field (view value.now) }
{
    let found = value.get(field.name())?;
    if found.is_null() { None } else { Some(found) }
}

// Reads the value of a field that may be absent or null.
#[tactic(auto, unfolding(crate::specs::Reading::optional_in))]
pub(crate) fn optional_at<T: FromJson>(
    alloc: Global,
    value: &Value,
    field: Field,
) -> Result<Option<T>, Rejection<WireRefusal>>
    ensures { Gives result (optional_in T.kind field (view value.now)) }
{
    match given_at(value, field) {
        Some(found) => Ok(Some(wanted(field, T::read(alloc, found)?)?)),
        None => Ok(None),
    }
}

fn least_petition(origin: Origin) -> u64
    ensures { result ≡ least_petition origin }
{
    match origin {
        Origin::Caller => 1,
        Origin::Record => 0,
    }
}

// The number of a petition: 1 to 4,294,967,295, or in a record from 0 on.
fn petition_number(origin: Origin, number: u64) -> Option<u32>
    ensures { result ≡ petition_number origin number }
{
    if least_petition(origin) <= number && number <= GREATEST_PETITION {
        Some(number as u32)
    } else {
        None
    }
}

#[tactic(auto, unfolding(crate::specs::Reading::petition_in))]
pub(crate) fn petition_at(
    alloc: Global,
    origin: Origin,
    value: &Value,
) -> Result<u32, Rejection<WireRefusal>>
    ensures { Gives result (petition_in origin (view value.now)) }
{
    let number = field_at(alloc, value, Field::Petition)?;
    wanted(Field::Petition, petition_number(origin, number))
}

#[tactic(auto, unfolding(crate::specs::Reading::span_in))]
pub(crate) fn span_at(alloc: Global, value: &Value) -> Result<Span, Rejection<WireRefusal>>
    ensures { Gives result (span_in (view value.now)) }
{
    let first = field_at(alloc, value, Field::First)?;
    let last = field_at(alloc, value, Field::Last)?;
    wanted(Field::Last, span_of(first, last))
}
