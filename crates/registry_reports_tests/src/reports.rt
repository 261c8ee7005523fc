//! The list and the reports of the records of a row.

use byte_streams::Outlet;
use registry_reports::{
    census, holders, list_document, open_petitions, organisations, taken_numbers,
};
use registry_rules::{Entry, Org, Petition, Vendor};
use row_texts::{RowFault, cut};
use std::alloc::Global;
use usbids_text::{Document, WriteFault, write};
use usbnum_core::{Number, Spans, Vid};

fn written(alloc: Global, document: &Document) -> Result<Vec<u8>, RowFault> {
    let mut sink = Outlet::new(Vec::new(alloc));
    match write(document, None, &mut sink) {
        Ok(()) => Ok(sink.into_inner()),
        Err(WriteFault) => Err(RowFault::OutOfMemory),
    }
}

fn list_text(
    alloc: Global,
    vendors: &[Vendor],
    numbers: &[(Number, Entry)],
) -> Result<Vec<u8>, RowFault> {
    let document = list_document(alloc, vendors, numbers)?;
    written(alloc, &document)
}

/// Shows the list of the numbers of some vendors.
pub(crate) fn list(alloc: Global, text: &str) -> Result<Vec<u8>, RowFault> {
    let (vendors, numbers) = cut(text)?;
    let vendors = row_records::vendors(alloc, vendors)?;
    let numbers = row_records::numbers(alloc, numbers)?;
    list_text(alloc, &vendors, &numbers)
}

fn census_text(
    alloc: Global,
    reserved: &[(Vid, Spans)],
    numbers: &[(Number, Entry)],
) -> Result<Vec<u8>, RowFault> {
    Ok(census(alloc, reserved, numbers)?.into_bytes())
}

/// Shows the counts of the numbers of each vendor.
pub(crate) fn numbers(alloc: Global, text: &str) -> Result<Vec<u8>, RowFault> {
    let (vendors, numbers) = cut(text)?;
    let reserved = row_records::reserved(alloc, vendors)?;
    let numbers = row_records::numbers(alloc, numbers)?;
    census_text(alloc, &reserved, &numbers)
}

fn taken_text(
    alloc: Global,
    reserved: &[(Vid, Spans)],
    numbers: &[(Number, Entry)],
) -> Result<Vec<u8>, RowFault> {
    Ok(taken_numbers(alloc, reserved, numbers)?.into_bytes())
}

/// Shows the numbers of each vendor that are not free.
pub(crate) fn taken(alloc: Global, text: &str) -> Result<Vec<u8>, RowFault> {
    let (vendors, numbers) = cut(text)?;
    let reserved = row_records::reserved(alloc, vendors)?;
    let numbers = row_records::numbers(alloc, numbers)?;
    taken_text(alloc, &reserved, &numbers)
}

fn orgs_text(alloc: Global, orgs: &[Org]) -> Result<Vec<u8>, RowFault> {
    Ok(organisations(alloc, orgs)?.into_bytes())
}

/// Shows the organisations.
pub(crate) fn orgs(alloc: Global, text: &str) -> Result<Vec<u8>, RowFault> {
    let orgs = row_records::orgs(alloc, text)?;
    orgs_text(alloc, &orgs)
}

fn holders_text(alloc: Global, numbers: &[(Number, Entry)]) -> Result<Vec<u8>, RowFault> {
    Ok(holders(alloc, numbers)?.into_bytes())
}

/// Shows the counts of the numbers of each organisation.
pub(crate) fn owners(alloc: Global, text: &str) -> Result<Vec<u8>, RowFault> {
    let numbers = row_records::numbers(alloc, text)?;
    holders_text(alloc, &numbers)
}

fn petitions_text(alloc: Global, petitions: &[(u32, Petition)]) -> Result<Vec<u8>, RowFault> {
    let founding = row_records::vid("1209")?;
    Ok(open_petitions(alloc, founding, petitions)?.into_bytes())
}

/// Shows the open petitions to a registry of vendor 1209.
pub(crate) fn petitions(alloc: Global, text: &str) -> Result<Vec<u8>, RowFault> {
    let petitions = row_records::petitions(alloc, text)?;
    petitions_text(alloc, &petitions)
}
