//! Numbers, organisations, petitions and the head of the record, and the whole response for each.

use crate::responses::response_text;
use registry_http::{
    founding_response, head_response, number_response, org_response, petition_response,
};
use registry_rules::{Entry, Founding, Org, Petition, PetitionTimes, Terms, Vendor};
use row_records::{field, founding_of, maybe_vid, pid, slug, vid};
use row_texts::{RowFault, bytes_of, cut, number_of};
use std::alloc::Global;
use usbnum_core::{Digest, Pid, Time, Title, Vid};

fn terms_if(alloc: Global, text: &str) -> Result<Option<Terms>, RowFault> {
    match text {
        "terms" => Ok(Some(row_records::terms(alloc)?)),
        "-" => Ok(None),
        _ => Err(RowFault::BadRow),
    }
}

// Acme's entry: whether the number is held, whether there are terms, and the title.
fn entry(alloc: Global, text: &str) -> Result<Entry, RowFault> {
    let (state, rest) = field(text)?;
    let (terms, title) = field(rest)?;
    let held = row_records::is_held(state)?;
    let terms = terms_if(alloc, terms)?;
    let card = row_records::card(alloc, title, terms)?;
    Ok(Entry {
        org: slug(alloc, "acme")?,
        held,
        card,
    })
}

fn number_text(
    alloc: Global,
    vendor: Option<Vid>,
    code: Pid,
    reserved: bool,
    entry: Option<&Entry>,
) -> Result<Vec<u8>, RowFault> {
    let response = number_response(alloc, vendor, code, reserved, entry)?;
    response_text(alloc, &response)
}

/// Shows the response to a query for a number: the vendor, the number, whether it is reserved, and
/// its entry, or a hyphen in place of one.
pub(crate) fn number(alloc: Global, text: &str) -> Result<Vec<u8>, RowFault> {
    let (vendor, rest) = field(text)?;
    let (code, rest) = field(rest)?;
    let (reserved, rest) = field(rest)?;
    let (vendor, code, reserved) = (maybe_vid(vendor)?, pid(code)?, reserved == "reserved");
    if rest == "-" {
        number_text(alloc, vendor, code, reserved, None)
    } else {
        let entry = entry(alloc, rest)?;
        number_text(alloc, vendor, code, reserved, Some(&entry))
    }
}

fn org_text(alloc: Global, org: Option<&Org>) -> Result<Vec<u8>, RowFault> {
    response_text(alloc, &org_response(alloc, org)?)
}

/// Shows the response to a query for an organisation: its slug, keeper, site and title.
pub(crate) fn org(alloc: Global, text: &str) -> Result<Vec<u8>, RowFault> {
    let org = row_records::org(alloc, text)?;
    org_text(alloc, Some(&org))
}

/// Shows the response to a query for an organisation that is not there.
pub(crate) fn no_org(alloc: Global) -> Result<Vec<u8>, RowFault> {
    org_text(alloc, None)
}

// The times of a petition that has none.
fn untimed() -> PetitionTimes {
    PetitionTimes {
        opened: None,
        closed: None,
    }
}

fn petition_text(
    alloc: Global,
    id: u32,
    petition: Option<&Petition>,
    reason: Option<&Title>,
    times: &PetitionTimes,
) -> Result<Vec<u8>, RowFault> {
    let response = petition_response(alloc, vid("1209")?, id, petition, reason, times)?;
    response_text(alloc, &response)
}

/// Shows the response to a query for a petition to a registry of vendor 1209.
pub(crate) fn petition(alloc: Global, text: &str) -> Result<Vec<u8>, RowFault> {
    let (id, petition) = row_records::petition(alloc, text)?;
    petition_text(alloc, id, Some(&petition), None, &untimed())
}

/// Shows the same for a petition that was declined for a reason, which comes first.
pub(crate) fn declined(alloc: Global, text: &str) -> Result<Vec<u8>, RowFault> {
    let (reason, rest) = cut(text)?;
    let reason = row_records::title(alloc, reason)?;
    let (id, petition) = row_records::petition(alloc, rest)?;
    petition_text(alloc, id, Some(&petition), Some(&reason), &untimed())
}

/// Shows the same for a petition with the times at which it was opened and closed, which come first,
/// or a hyphen in place of one.
pub(crate) fn dated(alloc: Global, text: &str) -> Result<Vec<u8>, RowFault> {
    let (opened, rest) = cut(text)?;
    let (closed, rest) = cut(rest)?;
    let times = PetitionTimes {
        opened: time_if(alloc, opened)?,
        closed: time_if(alloc, closed)?,
    };
    let (id, petition) = row_records::petition(alloc, rest)?;
    petition_text(alloc, id, Some(&petition), None, &times)
}

/// Shows the response to a query for a petition that is not there.
pub(crate) fn no_petition(alloc: Global, text: &str) -> Result<Vec<u8>, RowFault> {
    petition_text(alloc, number_of(text)?, None, None, &untimed())
}

fn time_if(alloc: Global, text: &str) -> Result<Option<Time>, RowFault> {
    match text {
        "-" => Ok(None),
        _ => Ok(Some(Time::new(alloc, text.as_bytes())?.ok_or(RowFault::BadRow)?)),
    }
}

/// Shows the response to a query for the head of the record: how many requests were accepted, the
/// time of the last one, or a hyphen in place of one, and the digest.
pub(crate) fn head(alloc: Global, text: &str) -> Result<Vec<u8>, RowFault> {
    let (count, rest) = field(text)?;
    let (time, digest) = field(rest)?;
    let (count, time) = (number_of(count)?, time_if(alloc, time)?);
    let digest = Digest::new(alloc, digest.as_bytes())?.ok_or(RowFault::BadRow)?;
    response_text(alloc, &head_response(alloc, count, &digest, time.as_ref())?)
}

fn founding_text(
    alloc: Global,
    founding: &Founding,
    vendors: &[Vendor],
) -> Result<Vec<u8>, RowFault> {
    response_text(alloc, &founding_response(alloc, founding, vendors)?)
}

/// Shows the response to a query for the founding: the founding file, and the vendors of its
/// registry.
pub(crate) fn founding(alloc: Global, text: &str) -> Result<Vec<u8>, RowFault> {
    let (file, vendors) = cut(text)?;
    let founding = founding_of(alloc, &bytes_of(alloc, file)?)?;
    let vendors = row_records::vendors(alloc, vendors)?;
    founding_text(alloc, &founding, &vendors)
}
