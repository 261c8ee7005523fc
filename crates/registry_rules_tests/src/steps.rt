//! Requests through the steps of the rules.

use registry_rules::{
    Deed, Facts, Founding, Holdings, Order, Org, Refusal, Request, Totals, Verdict, changes, judge,
    numbers_concerned, reply_text, request_bytes, settled, slug_concerned, vid_concerned,
};
use row_records::{founding_of, request_of};
use row_texts::{RowFault, cut, number_of, text_of};
use std::alloc::Global;
use usbnum_core::Vid;

// The founding of vendor 1209 with one curator, two licences and sixteen fixed numbers.
pub(crate) const FOUNDING: &[u8] =
    b"vendor = \"1209\"\nname = \"Shared products\"\ncurators = [\"ann\"]\nlicences = [\"MIT\", \"GPL-3.0-only\"]\nfixed = [\"0001-0010\"]\n";

fn founded(alloc: Global) -> Result<Totals, RowFault> {
    let founding = founding_of(alloc, FOUNDING)?;
    Ok(Totals::founded(alloc, &founding)?)
}

fn acme(alloc: Global) -> Result<Org, RowFault> {
    Ok(Org {
        slug: row_records::slug(alloc, "acme")?,
        title: row_records::title(alloc, "Acme Tools")?,
        site: row_records::link(alloc, "http://a.example/")?,
        keeper: row_records::slug(alloc, "ann")?,
    })
}

fn bolt(alloc: Global) -> Result<Org, RowFault> {
    Ok(Org {
        slug: row_records::slug(alloc, "bolt")?,
        title: row_records::title(alloc, "Bolt Works")?,
        site: row_records::link(alloc, "http://b.example/")?,
        keeper: row_records::slug(alloc, "bob")?,
    })
}

// The organisation that an order concerns: Ann's, which asks, or Bob's, who is no curator.
fn org_of(alloc: Global, order: &Order) -> Result<Option<Org>, RowFault> {
    match order {
        Order::Ask(_) => Ok(Some(acme(alloc)?)),
        Order::HandOver(_) | Order::CorrectOrg(_) => Ok(Some(bolt(alloc)?)),
        _ => Ok(None),
    }
}

fn accepted_text(alloc: Global, deed: &Deed) -> Result<Vec<u8>, RowFault> {
    text_of(alloc, reply_text(alloc, deed)?.as_str())
}

fn refused_text(alloc: Global, refusal: &Refusal) -> Result<Vec<u8>, RowFault> {
    let (number, name) = (refusal.number(), refusal.name());
    Ok(format!(in alloc; "{number} {name}")?.into_bytes())
}

// The reply, `kept`, or the refusal's number and name.
fn verdict_text(alloc: Global, verdict: Verdict) -> Result<Vec<u8>, RowFault> {
    match verdict {
        Verdict::New(deed) => accepted_text(alloc, &deed),
        Verdict::Refused(refusal) => refused_text(alloc, &refusal),
        Verdict::Kept(_) => text_of(alloc, "kept"),
    }
}

fn answer(alloc: Global, facts: &Facts<'_>, request: &Request) -> Result<Vec<u8>, RowFault> {
    verdict_text(alloc, judge(alloc, facts, request)?)
}

fn settled_text(alloc: Global, found: Option<Verdict>) -> Result<Vec<u8>, RowFault> {
    match found {
        Some(verdict) => verdict_text(alloc, verdict),
        None => text_of(alloc, "open"),
    }
}

fn settled_by_caller(
    alloc: Global,
    founding: &Founding,
    request: &Request,
) -> Result<Vec<u8>, RowFault> {
    settled_text(alloc, settled(alloc, None, founding, request)?)
}

/// Shows the verdict on a request under a new key that its caller alone decides, or `open`.
pub(crate) fn settled_alone(alloc: Global, line: &str) -> Result<Vec<u8>, RowFault> {
    let request = request_of(alloc, line)?;
    let founding = founding_of(alloc, FOUNDING)?;
    settled_by_caller(alloc, &founding, &request)
}

fn answer_at(
    alloc: Global,
    totals: &Totals,
    request: &Request,
    orgs: u32,
    petitions: u32,
) -> Result<Vec<u8>, RowFault> {
    let org = org_of(alloc, &request.order)?;
    let holdings = Holdings::new(Vec::new(alloc));
    let vid = vid_concerned(&request.order, totals.founding().vendor, None);
    let mut facts = totals.facts(request, vid, None, None, org, holdings);
    facts.orgs = orgs;
    facts.petitions = petitions;
    answer(alloc, &facts, request)
}

/// Judges a request by facts that claim so many organisations and so many petitions.
pub(crate) fn judged(alloc: Global, text: &str) -> Result<Vec<u8>, RowFault> {
    let (orgs, rest) = cut(text)?;
    let (petitions, line) = cut(rest)?;
    let (orgs, petitions) = (number_of(orgs)?, number_of(petitions)?);
    let request = request_of(alloc, line)?;
    let totals = founded(alloc)?;
    answer_at(alloc, &totals, &request, orgs, petitions)
}

// What an order concerns that names no petition.
fn concern_text(alloc: Global, order: &Order, vendor: Vid) -> Result<Vec<u8>, RowFault> {
    let holdings = Holdings::new(Vec::new(alloc));
    let vid = vid_concerned(order, vendor, None);
    let numbers = numbers_concerned(order, vid, None, None).is_some();
    let slug = match slug_concerned(order, vid, None, &holdings) {
        Some(slug) => slug.as_str(),
        None => "none",
    };
    Ok(format!(in alloc; "{numbers} {slug} ")?.into_bytes())
}

fn deed_of(alloc: Global, totals: &Totals, request: &Request) -> Result<Deed, RowFault> {
    let holdings = Holdings::new(Vec::new(alloc));
    let vid = vid_concerned(&request.order, totals.founding().vendor, None);
    let facts = totals.facts(request, vid, None, None, None, holdings);
    match judge(alloc, &facts, request)? {
        Verdict::New(deed) => Ok(deed),
        _ => Err(RowFault::Wrong),
    }
}

fn deed_text(alloc: Global, deed: &Deed) -> Result<Vec<u8>, RowFault> {
    let reply = reply_text(alloc, deed)?;
    let changes = changes(alloc, deed)?;
    let reply = reply.as_str();
    Ok(format!(in alloc; " {reply} {changes:?} ")?.into_bytes())
}

fn carried_text(alloc: Global, totals: &mut Totals, deed: &Deed) -> Result<Vec<u8>, RowFault> {
    totals.carry(deed)?;
    let (orgs, petitions) = (totals.orgs(), totals.petitions());
    Ok(format!(in alloc; "{orgs} {petitions}")?.into_bytes())
}

fn done_text(alloc: Global, totals: &mut Totals, deed: &Deed) -> Result<Vec<u8>, RowFault> {
    let mut text = deed_text(alloc, deed)?;
    text.extend_from_slice(&carried_text(alloc, totals, deed)?)?;
    Ok(text)
}

fn outcome(alloc: Global, totals: &mut Totals, request: &Request) -> Result<Vec<u8>, RowFault> {
    let deed = deed_of(alloc, totals, request)?;
    done_text(alloc, totals, &deed)
}

fn steps(alloc: Global, totals: &mut Totals, request: &Request) -> Result<Vec<u8>, RowFault> {
    let mut text = concern_text(alloc, &request.order, totals.founding().vendor)?;
    text.extend_from_slice(request_bytes(alloc, request)?.as_bytes())?;
    text.extend_from_slice(&outcome(alloc, totals, request)?)?;
    Ok(text)
}

/// Shows one request through all steps of the rules: whether it concerns numbers, the organisation
/// that it concerns, its canonical form, its reply, its changes, and the counts of organisations and
/// petitions after it.
pub(crate) fn gone(alloc: Global, line: &str) -> Result<Vec<u8>, RowFault> {
    let request = request_of(alloc, line)?;
    let mut totals = founded(alloc)?;
    steps(alloc, &mut totals, &request)
}
