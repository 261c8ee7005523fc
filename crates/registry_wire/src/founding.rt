//! Reads the founding of a registry from a TOML file.

ghost use Rattle.std.specs.Prelude.{◌≡◌, ◌≤◌, ℕ, length, IfOk, option_map};
ghost use Rattle.std.specs.List.{list_any};
ghost use Rattle.toml.specs.View.{view, table_view};
ghost use Rattle.registry_rules.specs.Gives.{Gives};
ghost use Rattle.registry_wire.specs.Refusals.{GivesSeen};
ghost use Rattle.usbnum_core.specs.Spans.{span_has, spans_have, IsSpread};
ghost use Rattle.registry_wire.specs.Founding.{value_in, one_in, some_in, fixed_in, listed_in, table_of, founding_listed, Founds, FoundsAs};
ghost use Rattle.registry_wire.specs.Listing.{seen};

use crate::present::present;
use crate::toml_value::{FromToml, all_of_kind};
use crate::{FoundingFault, WireRefusal};
use registry_rules::limits::{MOST_CURATORS, MOST_LICENCES};
use registry_rules::{Curators, Founding, Licences, Rejection};
use std::alloc::Global;
use toml::{Table, Value};
use usbnum_core::{NoMemory, Slug, Span, Spans, Title, Vid};

// The values of a founding file, as listed in the file.
#[derive(Debug, Drop)]
struct Listing {
    vendor: Vid,
    name: Title,
    curators: Vec<Slug>,
    licences: Vec<Title>,
    fixed: Vec<Span>,
}

// The value at a key.
fn value_at<'a>(table: &'a Table, key: FoundingFault) -> Option<&'a Value>
    ensures { option_map (λ found. view found.now) result ≡ value_in key (table_view table.now) }
{
    table.get(key.name())
}

#[tactic(auto, unfolding(crate::specs::Founding::one_in))]
fn one_at<T: FromToml>(
    alloc: Global,
    table: &Table,
    key: FoundingFault,
) -> Result<T, Rejection<WireRefusal>>
    ensures { Gives result (one_in T.kind key (table_view table.now)) }
{
    let Some(found) = value_at(table, key) else {
        return present(WireRefusal::BadFounding(key), None);
    };
    present(WireRefusal::BadFounding(key), T::read(alloc, found)?)
}

// An array of one to `most` items.
#[tactic(auto, unfolding(crate::specs::Founding::some_in))]
fn some_at<T: FromToml>(
    alloc: Global,
    table: &Table,
    key: FoundingFault,
    most: usize,
) -> Result<Vec<T>, Rejection<WireRefusal>>
    ensures reading { GivesSeen (λ list. list.items) result (some_in T.kind most key (table_view table.now)) }
    ensures counted { IfOk result (λ list. (1 ≤ length list.items) × (length list.items ≤ most)) }
{
    let Some(found) = value_at(table, key) else {
        return Err(Rejection::Refused(WireRefusal::BadFounding(key)));
    };
    let Some(array) = found.as_array() else {
        return Err(Rejection::Refused(WireRefusal::BadFounding(key)));
    };
    match all_of_kind(alloc, array)? {
        Some(list) => {
            if list.is_empty() || list.len() > most {
                return Err(Rejection::Refused(WireRefusal::BadFounding(key)));
            }
            Ok(list)
        }
        None => Err(Rejection::Refused(WireRefusal::BadFounding(key))),
    }
}

#[tactic(auto, unfolding(crate::specs::Founding::fixed_in))]
fn fixed_at(alloc: Global, table: &Table) -> Result<Vec<Span>, Rejection<WireRefusal>>
    ensures { GivesSeen (λ list. list.items) result (fixed_in (table_view table.now)) }
{
    let Some(found) = value_at(table, FoundingFault::Fixed) else {
        return Ok(Vec::new(alloc));
    };
    let Some(array) = found.as_array() else {
        return Err(Rejection::Refused(WireRefusal::BadFounding(FoundingFault::Fixed)));
    };
    match all_of_kind(alloc, array)? {
        Some(list) => Ok(list),
        None => Err(Rejection::Refused(WireRefusal::BadFounding(FoundingFault::Fixed))),
    }
}

#[tactic(auto, unfolding(crate::specs::Founding::table_of))]
fn table_of(alloc: Global, bytes: &[u8]) -> Result<Table, Rejection<WireRefusal>>
    ensures { GivesSeen table_view result (table_of bytes.now) }
{
    match toml::table_from_slice(alloc, bytes) {
        Ok(table) => Ok(table),
        Err(error) => {
            if error.is_memory() {
                Err(Rejection::NoMemory)
            } else {
                Err(Rejection::Refused(WireRefusal::BadFounding(FoundingFault::Toml)))
            }
        }
    }
}

#[tactic(auto, unfolding(crate::specs::Founding::listed_in))]
fn listing_at(alloc: Global, table: &Table) -> Result<Listing, Rejection<WireRefusal>>
    ensures reading { GivesSeen seen result (listed_in (table_view table.now)) }
    ensures curators { IfOk result (λ listing. (1 ≤ length listing.curators.items) × (length listing.curators.items ≤ MOST_CURATORS)) }
    ensures licences { IfOk result (λ listing. (1 ≤ length listing.licences.items) × (length listing.licences.items ≤ MOST_LICENCES)) }
{
    let vendor = one_at(alloc, table, FoundingFault::Vendor)?;
    let name = one_at(alloc, table, FoundingFault::Name)?;
    let curators = some_at(alloc, table, FoundingFault::Curators, MOST_CURATORS)?;
    let licences = some_at(alloc, table, FoundingFault::Licences, MOST_LICENCES)?;
    let fixed = fixed_at(alloc, table)?;
    Ok(Listing {
        vendor,
        name,
        curators,
        licences,
        fixed,
    })
}

#[tactic(auto, unfolding(crate::specs::Founding::founding_listed))]
fn read_listing(alloc: Global, bytes: &[u8]) -> Result<Listing, Rejection<WireRefusal>>
    ensures reading { GivesSeen seen result (founding_listed bytes.now) }
    ensures curators { IfOk result (λ listing. (1 ≤ length listing.curators.items) × (length listing.curators.items ≤ MOST_CURATORS)) }
    ensures licences { IfOk result (λ listing. (1 ≤ length listing.licences.items) × (length listing.licences.items ≤ MOST_LICENCES)) }
{
    let table = table_of(alloc, bytes)?;
    listing_at(alloc, &table)
}

// The numbers of all spans.
pub(crate) fn spans_of(alloc: Global, listed: &[Span]) -> Result<Spans, NoMemory>
    ensures numbers { IfOk result (λ spans. (n : ℕ) → spans_have spans n ≡ list_any (λ span. span_has span n) listed.now) }
    ensures spread { IfOk result (λ spans. IsSpread 1 spans) }
{
    let mut spans = Spans::new(alloc);
    for span in listed {
        spans.add(*span)?;
    }
    Ok(spans)
}

fn founding_of(alloc: Global, listing: Listing) -> Result<Founding, NoMemory>
    requires curators { (1 ≤ length listing.curators.items) × (length listing.curators.items ≤ MOST_CURATORS) }
    requires licences { (1 ≤ length listing.licences.items) × (length listing.licences.items ≤ MOST_LICENCES) }
    ensures { IfOk result (Founds (seen listing)) }
{
    let fixed = spans_of(alloc, &listing.fixed)?;
    let Some(curators) = Curators::new(listing.curators) else {
        unreachable!();
    };
    let Some(licences) = Licences::new(listing.licences) else {
        unreachable!();
    };
    Ok(Founding {
        vendor: listing.vendor,
        name: listing.name,
        curators,
        licences,
        fixed,
    })
}

/// Reads the founding of a registry from a founding file. This is TOML with `vendor` (four digits),
/// `name`, `curators` (one to `MOST_CURATORS`), `licences` (one to `MOST_LICENCES`) and optionally
/// `fixed`, an array of texts `NNNN` or `NNNN-NNNN`; other keys are ignored. Repeats count towards
/// the limits and are kept once. Returns a refusal if the bytes are not TOML, or for the first of
/// these keys that is missing or bad.
pub fn founding_from_toml(alloc: Global, bytes: &[u8]) -> Result<Founding, Rejection<WireRefusal>>
    ensures { FoundsAs result (founding_listed bytes.now) }
{
    let listing = read_listing(alloc, bytes)?;
    Ok(founding_of(alloc, listing)?)
}
