//! Returns the responses to queries, with one function for each kind.

ghost use Rattle.std.specs.Prelude.{◌≡◌, None, IfOk, IfErr};
ghost use Rattle.usbids_text.specs.Writing.{written};
ghost use Rattle.registry_rules.specs.Number.{number};
ghost use Rattle.registry_rules.specs.Query.{is_reserved, org_of};
ghost use Rattle.registry_rules.specs.Records.{entry_of};
ghost use Rattle.registry_rules.specs.declared.verdict.Reply.TheVariants as replies;
ghost use Rattle.registry_rules.specs.declared.refusal.Refusal.TheVariants as rule_refusals;
ghost use Rattle.registry_http.specs.Responses.{reply_response, text_response};
ghost use Rattle.registry_http.specs.Resources.{number_response, org_response};
ghost use Rattle.registry_desk.specs.declared.fault.DeskFault.TheVariants as desk_faults;
ghost use Rattle.registry_desk.specs.Acting.{IsAsked, IsFoundingResponse, IsHeadResponse, IsHistoryResponse, IsListResponse, IsPetitionResponse, IsQueryResponse, IsReportResponse, first_founding_response, vendor_number_at};

use crate::fault::DeskFault;
use byte_streams::Outlet;
use registry_http::{
    Query, Response, founding_response, head_response, number_response, org_response,
    page_response, petition_response, reply_response, text_response,
};
use registry_reports::ReportKind;
use registry_rules::{Founding, Refusal, Reply};
use registry_store::Registry;
use registry_views::{document_of, record_page, report_of};
use registry_wire::founding_line;
use sqlite::Alter;
use std::alloc::Global;
use usbids_text::{Document, write};
use usbnum_core::{Number, Pid, Slug, Vid};

/// Looks up a number of a vendor. The response names `vendor`, if given.
fn ask_number<S: Alter>(
    alloc: Global,
    registry: &mut Registry<S>,
    vendor: Option<Vid>,
    vid: Vid,
    pid: Pid,
) -> Result<Response, DeskFault>
    ensures { IsAsked registry.old registry.new result (λ h response. response ≡ number_response vendor pid (is_reserved h (number vid pid)) (entry_of h (number vid pid))) }
{
    let reserved = registry.is_reserved(Number { vid, pid })?;
    let entry = registry.entry(Number { vid, pid })?;
    Ok(number_response(alloc, vendor, pid, reserved, entry.as_ref())?)
}

fn no_vendor(alloc: Global) -> Result<Response, DeskFault>
    ensures ok { IfOk result (λ response. response ≡ reply_response (replies.Refused rule_refusals.NoVendor)) }
    ensures err { IfErr result (λ fault. fault ≡ desk_faults.NoMemory) }
{
    Ok(reply_response(alloc, &Reply::Refused(Refusal::NoVendor))?)
}

/// Looks up a number of a vendor that the query names. Returns refusal 34 if the registry has no
/// such vendor.
fn ask_vendor_number<S: Alter>(
    alloc: Global,
    registry: &mut Registry<S>,
    vid: Vid,
    pid: Pid,
) -> Result<Response, DeskFault>
    ensures { IsAsked registry.old registry.new result (λ h response. response ≡ vendor_number_at h vid pid) }
{
    if registry.has_vendor(vid)? {
        ask_number(alloc, registry, Some(vid), vid, pid)
    } else {
        no_vendor(alloc)
    }
}

/// Looks up an organisation.
fn ask_org<S: Alter>(
    alloc: Global,
    registry: &mut Registry<S>,
    slug: &Slug,
) -> Result<Response, DeskFault>
    ensures { IsAsked registry.old registry.new result (λ h response. response ≡ org_response (org_of h slug.now)) }
{
    let org = registry.org(slug)?;
    Ok(org_response(alloc, org.as_ref())?)
}

/// Looks up a petition, why it was declined, and when it was opened and closed.
fn ask_petition<S: Alter>(
    alloc: Global,
    registry: &mut Registry<S>,
    id: u32,
) -> Result<Response, DeskFault>
    ensures { IsAsked registry.old registry.new result (λ h response. IsPetitionResponse h id response) }
{
    let founding = registry.founding().vendor;
    let petition = registry.petition(id)?;
    let reason = registry.reason(id)?;
    let times = registry.petition_times(id)?;
    Ok(petition_response(
        alloc,
        founding,
        id,
        petition.as_ref(),
        reason.as_ref(),
        &times,
    )?)
}

/// Returns the response with the text of the document, without a stamp.
fn list_response(alloc: Global, document: &Document) -> Result<Response, DeskFault>
    ensures ok { IfOk result (λ response. response ≡ text_response (written document.now None)) }
    ensures err { IfErr result (λ fault. fault ≡ desk_faults.NoMemory) }
{
    let mut output = Outlet::new(Vec::new(alloc));
    write(document, None, &mut output).map_err(|_| DeskFault::NoMemory)?;
    Ok(text_response(output.into_inner()))
}

/// Returns the response with the list of the held numbers.
fn ask_list<S: Alter>(alloc: Global, registry: &mut Registry<S>) -> Result<Response, DeskFault>
    ensures { IsAsked registry.old registry.new result (λ h response. IsListResponse h response) }
{
    let document = document_of(alloc, registry)?;
    list_response(alloc, &document)
}

/// Returns the response with a report.
fn ask_report<S: Alter>(
    alloc: Global,
    registry: &mut Registry<S>,
    kind: ReportKind,
) -> Result<Response, DeskFault>
    ensures { IsAsked registry.old registry.new result (λ h response. IsReportResponse h kind response) }
{
    let text = report_of(alloc, registry, kind)?;
    Ok(text_response(text.into_bytes()))
}

/// Returns the response with the founding, as it is now, and all vendors.
fn ask_founding<S: Alter>(alloc: Global, registry: &mut Registry<S>) -> Result<Response, DeskFault>
    ensures { IsAsked registry.old registry.new result (λ h response. IsFoundingResponse h response) }
{
    let vendors = registry.vendors()?;
    let founding = registry.founding();
    // Only for the proof: the licences ascend.
    let _ = founding.licences.as_slice();
    Ok(founding_response(alloc, founding, vendors.as_slice())?)
}

/// Returns the response with the line of a founding.
fn first_founding_response(alloc: Global, founding: &Founding) -> Result<Response, DeskFault>
    ensures ok { IfOk result (λ response. response ≡ first_founding_response founding.now) }
    ensures err { IfErr result (λ fault. fault ≡ desk_faults.NoMemory) }
{
    let mut line = founding_line(alloc, founding)?;
    line.push_str("\n")?;
    Ok(text_response(line.into_bytes()))
}

/// Returns the response with the first line of the record: the founding, with its first licences.
fn ask_first_founding<S: Alter>(
    alloc: Global,
    registry: &mut Registry<S>,
) -> Result<Response, DeskFault>
    ensures { IsAsked registry.old registry.new result (λ h response. response ≡ first_founding_response h.founding) }
{
    let founding = registry.first_founding()?;
    first_founding_response(alloc, &founding)
}

/// Returns the response with the head of the record.
fn ask_head<S: Alter>(alloc: Global, registry: &mut Registry<S>) -> Result<Response, DeskFault>
    ensures { IsAsked registry.old registry.new result (λ h response. IsHeadResponse h response) }
{
    let head = registry.head()?;
    Ok(head_response(alloc, head.count, &head.digest, head.time.as_ref())?)
}

/// Returns the response with a page of the record, after the first `n` accepted requests, and the
/// digest after these.
fn ask_history<S: Alter>(
    alloc: Global,
    registry: &mut Registry<S>,
    n: u64,
) -> Result<Response, DeskFault>
    ensures { IsAsked registry.old registry.new result (λ h response. IsHistoryResponse h n response) }
{
    let text = record_page(alloc, registry, n)?;
    let digest = registry.digest_after(n)?;
    Ok(page_response(text.into_bytes(), digest))
}

/// Returns the response to a query.
pub(crate) fn ask<S: Alter>(
    alloc: Global,
    registry: &mut Registry<S>,
    query: &Query,
) -> Result<Response, DeskFault>
    ensures { IsAsked registry.old registry.new result (λ h response. IsQueryResponse h query.now response) }
{
    match query {
        Query::Number { vendor, pid } => match vendor {
            None => {
                let vid = registry.founding().vendor;
                ask_number(alloc, registry, None, vid, *pid)
            }
            Some(vid) => ask_vendor_number(alloc, registry, *vid, *pid),
        },
        Query::List => ask_list(alloc, registry),
        Query::Org(slug) => ask_org(alloc, registry, slug),
        Query::Petition(id) => ask_petition(alloc, registry, *id),
        Query::Founding => ask_founding(alloc, registry),
        Query::FirstFounding => ask_first_founding(alloc, registry),
        Query::Head => ask_head(alloc, registry),
        Query::History(n) => ask_history(alloc, registry, *n),
        Query::Report(kind) => ask_report(alloc, registry, *kind),
    }
}
