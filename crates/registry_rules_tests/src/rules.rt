//! What a founding has, and totals.

use crate::steps::FOUNDING;
use registry_rules::{Entry, Founding, PetitionCounts, Totals, Vendors};
use row_records::founding_of;
use row_texts::{RowFault, cut};
use std::alloc::Global;
use usbnum_core::{Number, Span, Spans, Vid};

fn counts_text(alloc: Global, founding: &Founding) -> Result<Vec<u8>, RowFault> {
    let (curators, licences) = (&founding.curators, &founding.licences);
    let (count, length, empty) = (
        curators.len(),
        curators.as_slice().len(),
        curators.is_empty(),
    );
    let (number, size, none) = (
        licences.len(),
        licences.as_slice().len(),
        licences.is_empty(),
    );
    Ok(format!(in alloc; "{count} {length} {empty} {number} {size} {none}")?.into_bytes())
}

fn has_curator(alloc: Global, founding: &Founding, text: &str) -> Result<bool, RowFault> {
    Ok(founding.curators.contains(&row_records::slug(alloc, text)?))
}

fn has_licence(alloc: Global, founding: &Founding, text: &str) -> Result<bool, RowFault> {
    Ok(
        founding
            .licences
            .contains(&row_records::title(alloc, text)?),
    )
}

fn members_text(alloc: Global, founding: &Founding) -> Result<Vec<u8>, RowFault> {
    let (ann, bob) = (
        has_curator(alloc, founding, "ann")?,
        has_curator(alloc, founding, "bob")?,
    );
    let (mit, bsd) = (
        has_licence(alloc, founding, "MIT")?,
        has_licence(alloc, founding, "BSD")?,
    );
    Ok(format!(in alloc; " {ann} {bob} {mit} {bsd} ")?.into_bytes())
}

fn vendors_text(alloc: Global, vendors: &Vendors, vid: Vid) -> Result<Vec<u8>, RowFault> {
    let (count, length, empty) = (vendors.len(), vendors.as_slice().len(), vendors.is_empty());
    match vendors.of(vid) {
        Some(vendor) => {
            let name = vendor.name.as_str();
            Ok(format!(in alloc; "{vid} {count} {length} {empty} {name}")?.into_bytes())
        }
        None => Err(RowFault::Wrong),
    }
}

fn totals_text(alloc: Global, founding: &Founding) -> Result<Vec<u8>, RowFault> {
    let totals = Totals::founded(alloc, founding)?;
    vendors_text(alloc, totals.vendors(), totals.founding().vendor)
}

fn founded_text(alloc: Global, founding: &Founding) -> Result<Vec<u8>, RowFault> {
    let mut text = counts_text(alloc, founding)?;
    text.extend_from_slice(&members_text(alloc, founding)?)?;
    text.extend_from_slice(&totals_text(alloc, founding)?)?;
    Ok(text)
}

fn copied(alloc: Global, bytes: &[u8]) -> Result<Founding, RowFault> {
    Ok(founding_of(alloc, bytes)?.clone()?)
}

/// Shows what the copy of a founding has: the counts of its curators and licences, whether `ann` and
/// `bob` are curators, whether MIT and BSD are licences, and its vendors.
pub(crate) fn founded(alloc: Global, bytes: &[u8]) -> Result<Vec<u8>, RowFault> {
    founded_text(alloc, &copied(alloc, bytes)?)
}

fn no_petitions(alloc: Global) -> Result<PetitionCounts, RowFault> {
    let mut counts = PetitionCounts::new(alloc);
    counts.add(&[])?;
    Ok(counts)
}

fn vendors_of(alloc: Global, text: &str) -> Result<Vendors, RowFault> {
    Ok(Vendors::new(row_records::vendors(alloc, text)?))
}

// The totals of these vendors, entries and spans of reserved numbers.
fn of_lists(
    alloc: Global,
    vendors: Vendors,
    entries: &[(Number, Entry)],
    spans: &[(Vid, Span)],
) -> Result<Totals, RowFault> {
    let founding = founding_of(alloc, FOUNDING)?;
    let counts = no_petitions(alloc)?;
    let totals = Totals::of_lists(alloc, founding, vendors, &[], counts, entries, spans)?;
    Ok(totals)
}

// The totals of these records and this span of reserved numbers of vendor 1209.
fn totals_of(
    alloc: Global,
    vendors: &str,
    numbers: &str,
    reserved: &str,
) -> Result<Totals, RowFault> {
    let spans = [(row_records::vid("1209")?, row_records::span(reserved)?)];
    let entries = row_records::numbers(alloc, numbers)?;
    of_lists(alloc, vendors_of(alloc, vendors)?, &entries, &spans)
}

fn has_reserved(reserved: &Spans) -> Result<bool, RowFault> {
    Ok(reserved.contains(row_records::pid("0020")?))
}

fn open_count(alloc: Global, totals: &Totals) -> Result<u32, RowFault> {
    Ok(totals.open_count(&row_records::slug(alloc, "acme")?))
}

fn counts_of(alloc: Global, totals: &Totals) -> Result<Vec<u8>, RowFault> {
    let vid = row_records::vid("1209")?;
    let has = has_reserved(totals.reserved(vid))?;
    let (least, orgs) = (totals.least(vid).map(|pid| pid.get()), totals.orgs());
    let open = open_count(alloc, totals)?;
    Ok(format!(in alloc; "{has} {least:?} {orgs} {open}")?.into_bytes())
}

/// Shows the totals of lists: whether 0020 is reserved, the least free number, the count of
/// organisations, and that of Acme's open petitions.
pub(crate) fn totals(alloc: Global, text: &str) -> Result<Vec<u8>, RowFault> {
    let (vendors, rest) = cut(text)?;
    let (numbers, reserved) = cut(rest)?;
    counts_of(alloc, &totals_of(alloc, vendors, numbers, reserved)?)
}
