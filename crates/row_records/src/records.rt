//! Makes records of the fields of a row.

use crate::values::{field, is_held, link, maybe_pid, pid, slug, title, vid};
use registry_rules::{Card, Entry, Org, Petition, PetitionState, Terms};
use row_texts::{RowFault, number_of};
use std::alloc::Global;
use usbnum_core::{Pid, Vid};

pub fn terms(alloc: Global) -> Result<Terms, RowFault> {
    Ok(Terms {
        licence: title(alloc, "MIT")?,
        site: link(alloc, "https://acme.example/b")?,
        source: link(alloc, "https://acme.example/s")?,
    })
}

pub fn card(alloc: Global, text: &str, terms: Option<Terms>) -> Result<Card, RowFault> {
    Ok(Card {
        title: title(alloc, text)?,
        terms,
    })
}

/// Reads an entry of a number: its owner, whether it is held, and its title.
pub fn entry(alloc: Global, text: &str) -> Result<Entry, RowFault> {
    let (org, rest) = field(text)?;
    let (state, name) = field(rest)?;
    let held = is_held(state)?;
    Ok(Entry {
        org: slug(alloc, org)?,
        held,
        card: card(alloc, name, None)?,
    })
}

fn state(text: &str) -> Result<PetitionState, RowFault> {
    match text {
        "open" => Ok(PetitionState::Open),
        "withdrawn" => Ok(PetitionState::Withdrawn),
        "declined" => Ok(PetitionState::Declined),
        _ => Ok(PetitionState::Granted(pid(text)?)),
    }
}

fn asked(
    alloc: Global,
    vid: Vid,
    want: Option<Pid>,
    state: PetitionState,
    text: &str,
) -> Result<Petition, RowFault> {
    let (org, name) = field(text)?;
    Ok(Petition {
        vid,
        org: slug(alloc, org)?,
        want,
        title: title(alloc, name)?,
        terms: terms(alloc)?,
        state,
    })
}

/// Reads a petition: its number, vendor, wanted number, state, organisation and title.
pub fn petition(alloc: Global, text: &str) -> Result<(u32, Petition), RowFault> {
    let (id, rest) = field(text)?;
    let (vendor, rest) = field(rest)?;
    let (want, rest) = field(rest)?;
    let (outcome, rest) = field(rest)?;
    let (id, vendor, want) = (number_of(id)?, vid(vendor)?, maybe_pid(want)?);
    let petition = asked(alloc, vendor, want, state(outcome)?, rest)?;
    Ok((id, petition))
}

/// Reads an organisation: its slug, keeper, site and title.
pub fn org(alloc: Global, text: &str) -> Result<Org, RowFault> {
    let (name, rest) = field(text)?;
    let (keeper, rest) = field(rest)?;
    let (site, display) = field(rest)?;
    Ok(Org {
        slug: slug(alloc, name)?,
        title: title(alloc, display)?,
        site: link(alloc, site)?,
        keeper: slug(alloc, keeper)?,
    })
}
