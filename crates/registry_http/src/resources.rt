//! The responses to queries for a number, an organisation, a petition or the head of the record.

ghost use Rattle.std.specs.Prelude.{◌≡◌, false, codes, IfOk, OnOk, option_copied, option_map};
ghost use Rattle.serde_json.specs.View.{members_view};
ghost use Rattle.serde_json.specs.Written.{members_have_float};
ghost use Rattle.usbnum_core.specs.Number.{digits_of};
ghost use Rattle.registry_http.specs.Objects.{put_text, put_if};
ghost use Rattle.registry_http.specs.Resources.{found_response, put_terms, put_terms_if, held_text, put_entry, put_state, number_members, number_response, org_members, org_response, state_text, granted_of, other_vendor, put_asked, put_numbers, put_times, petition_members, petition_response, head_response};

use crate::json_object::{object_text, put_if, put_number, put_text};
use crate::response::{Response, json_response, reply_response};
use http::StatusCode;
use registry_rules::{Entry, Org, Petition, PetitionState, PetitionTimes, Refusal, Reply, Terms};
use serde_json::{Map, Value};
use std::alloc::Global;
use usbnum_core::{Digest, NoMemory, Pid, Time, Title, Vid};

fn put_pid(
    alloc: Global,
    members: &mut Map<String, Value>,
    key: &str,
    pid: Pid,
) -> Result<(), NoMemory>
    ensures value { OnOk result (members_view members.new.entries ≡ put_text key.now (digits_of pid) (members_view members.old.entries)) }
    ensures plain { OnOk result (members_have_float (members_view members.old.entries) ≡ false → members_have_float (members_view members.new.entries) ≡ false) }
{
    let digits = pid.to_string(alloc)?;
    put_text(alloc, members, key, digits.as_str())
}

fn put_pid_if(
    alloc: Global,
    members: &mut Map<String, Value>,
    key: &str,
    pid: Option<Pid>,
) -> Result<(), NoMemory>
    ensures value { OnOk result (members_view members.new.entries ≡ put_if key.now (option_map digits_of pid) (members_view members.old.entries)) }
    ensures plain { OnOk result (members_have_float (members_view members.old.entries) ≡ false → members_have_float (members_view members.new.entries) ≡ false) }
{
    match pid {
        Some(pid) => put_pid(alloc, members, key, pid),
        None => Ok(()),
    }
}

fn put_vid_if(
    alloc: Global,
    members: &mut Map<String, Value>,
    key: &str,
    vid: Option<Vid>,
) -> Result<(), NoMemory>
    ensures value { OnOk result (members_view members.new.entries ≡ put_if key.now (option_map digits_of vid) (members_view members.old.entries)) }
    ensures plain { OnOk result (members_have_float (members_view members.old.entries) ≡ false → members_have_float (members_view members.new.entries) ≡ false) }
{
    match vid {
        Some(vid) => {
            let digits = vid.to_string(alloc)?;
            put_text(alloc, members, key, digits.as_str())
        }
        None => Ok(()),
    }
}

fn put_terms(alloc: Global, members: &mut Map<String, Value>, terms: &Terms) -> Result<(), NoMemory>
    ensures value { OnOk result (members_view members.new.entries ≡ put_terms terms.now (members_view members.old.entries)) }
    ensures plain { OnOk result (members_have_float (members_view members.old.entries) ≡ false → members_have_float (members_view members.new.entries) ≡ false) }
{
    put_text(alloc, members, "source", terms.source.as_str())?;
    put_text(alloc, members, "site", terms.site.as_str())?;
    put_text(alloc, members, "licence", terms.licence.as_str())
}

fn put_terms_if(
    alloc: Global,
    members: &mut Map<String, Value>,
    terms: Option<&Terms>,
) -> Result<(), NoMemory>
    ensures value { OnOk result (members_view members.new.entries ≡ put_terms_if (option_copied terms.entry) (members_view members.old.entries)) }
    ensures plain { OnOk result (members_have_float (members_view members.old.entries) ≡ false → members_have_float (members_view members.new.entries) ≡ false) }
{
    match terms {
        Some(terms) => put_terms(alloc, members, terms),
        None => Ok(()),
    }
}

fn held_text(held: bool) -> &'static str
    ensures { result.now ≡ held_text held }
{
    if held { "held" } else { "returned" }
}

#[tactic(auto, unfolding(crate::specs::Resources::put_entry))]
fn put_entry(alloc: Global, members: &mut Map<String, Value>, entry: &Entry) -> Result<(), NoMemory>
    ensures value { OnOk result (members_view members.new.entries ≡ put_entry entry.now (members_view members.old.entries)) }
    ensures plain { OnOk result (members_have_float (members_view members.old.entries) ≡ false → members_have_float (members_view members.new.entries) ≡ false) }
{
    put_text(alloc, members, "state", held_text(entry.held))?;
    put_text(alloc, members, "title", entry.card.title.as_str())?;
    put_text(alloc, members, "org", entry.org.as_str())?;
    put_terms_if(alloc, members, entry.card.terms.as_ref())
}

fn put_state(
    alloc: Global,
    members: &mut Map<String, Value>,
    reserved: bool,
    entry: Option<&Entry>,
) -> Result<(), NoMemory>
    ensures value { OnOk result (members_view members.new.entries ≡ put_state reserved (option_copied entry.entry) (members_view members.old.entries)) }
    ensures plain { OnOk result (members_have_float (members_view members.old.entries) ≡ false → members_have_float (members_view members.new.entries) ≡ false) }
{
    if reserved {
        return put_text(alloc, members, "state", "reserved");
    }
    match entry {
        Some(entry) => put_entry(alloc, members, entry),
        None => put_text(alloc, members, "state", "free"),
    }
}

/// Makes a response of status 200 with an object.
#[tactic(auto, unfolding(crate::specs::Resources::found_response))]
pub(crate) fn found_response(
    alloc: Global,
    members: Map<String, Value>,
) -> Result<Response, NoMemory>
    requires { members_have_float (members_view members.entries) ≡ false }
    ensures { IfOk result (λ response. response ≡ found_response (members_view members.entries)) }
{
    let text = object_text(alloc, members)?;
    json_response(StatusCode::OK, None, text)
}

/// Makes the response to a query for a product ID: whether it is reserved, held, returned or free,
/// and its owner and card if it has an entry. It names the vendor if the query does.
#[tactic(auto, unfolding(crate::specs::Resources::number_response, crate::specs::Resources::number_members))]
pub fn number_response(
    alloc: Global,
    vendor: Option<Vid>,
    pid: Pid,
    reserved: bool,
    entry: Option<&Entry>,
) -> Result<Response, NoMemory>
    ensures { IfOk result (λ response. response ≡ number_response vendor pid reserved (option_copied entry.entry)) }
{
    let mut members = Map::new(alloc);
    put_vid_if(alloc, &mut members, "vendor", vendor)?;
    put_pid(alloc, &mut members, "number", pid)?;
    put_state(alloc, &mut members, reserved, entry)?;
    found_response(alloc, members)
}

#[tactic(auto, unfolding(crate::specs::Resources::org_members))]
fn found_org(alloc: Global, org: &Org) -> Result<Response, NoMemory>
    ensures { IfOk result (λ response. response ≡ found_response (org_members org.now)) }
{
    let mut members = Map::new(alloc);
    put_text(alloc, &mut members, "title", org.title.as_str())?;
    put_text(alloc, &mut members, "site", org.site.as_str())?;
    put_text(alloc, &mut members, "org", org.slug.as_str())?;
    put_text(alloc, &mut members, "keeper", org.keeper.as_str())?;
    found_response(alloc, members)
}

/// Makes the response to a query for an organisation, or refusal 4 if there is no such
/// organisation.
pub fn org_response(alloc: Global, org: Option<&Org>) -> Result<Response, NoMemory>
    ensures { IfOk result (λ response. response ≡ org_response (option_copied org.entry)) }
{
    match org {
        Some(org) => found_org(alloc, org),
        None => reply_response(alloc, &Reply::Refused(Refusal::NoOrg)),
    }
}

fn state_text(state: PetitionState) -> &'static str
    ensures { result.now ≡ state_text state }
{
    match state {
        PetitionState::Open => "open",
        PetitionState::Granted(_) => "granted",
        PetitionState::Declined => "declined",
        PetitionState::Withdrawn => "withdrawn",
    }
}

fn granted_of(state: PetitionState) -> Option<Pid>
    ensures { result ≡ granted_of state }
{
    match state {
        PetitionState::Granted(pid) => Some(pid),
        _ => None,
    }
}

fn other_vendor(founding: Vid, vid: Vid) -> Option<Vid>
    ensures { result ≡ other_vendor founding vid }
{
    if vid == founding { None } else { Some(vid) }
}

#[tactic(auto, unfolding(crate::specs::Resources::put_asked))]
fn put_asked(
    alloc: Global,
    members: &mut Map<String, Value>,
    id: u32,
    petition: &Petition,
) -> Result<(), NoMemory>
    ensures value { OnOk result (members_view members.new.entries ≡ put_asked id petition.now (members_view members.old.entries)) }
    ensures plain { OnOk result (members_have_float (members_view members.old.entries) ≡ false → members_have_float (members_view members.new.entries) ≡ false) }
{
    put_text(alloc, members, "title", petition.title.as_str())?;
    put_text(alloc, members, "state", state_text(petition.state))?;
    put_text(alloc, members, "org", petition.org.as_str())?;
    put_number(alloc, members, "id", id)?;
    put_terms(alloc, members, &petition.terms)
}

#[tactic(auto, unfolding(crate::specs::Resources::put_numbers))]
fn put_numbers(
    alloc: Global,
    members: &mut Map<String, Value>,
    founding: Vid,
    petition: &Petition,
) -> Result<(), NoMemory>
    ensures value { OnOk result (members_view members.new.entries ≡ put_numbers founding petition.now (members_view members.old.entries)) }
    ensures plain { OnOk result (members_have_float (members_view members.old.entries) ≡ false → members_have_float (members_view members.new.entries) ≡ false) }
{
    put_vid_if(
        alloc,
        members,
        "vendor",
        other_vendor(founding, petition.vid),
    )?;
    put_pid_if(alloc, members, "want", petition.want)?;
    put_pid_if(alloc, members, "granted", granted_of(petition.state))
}

fn put_reason_if(
    alloc: Global,
    members: &mut Map<String, Value>,
    reason: Option<&Title>,
) -> Result<(), NoMemory>
    ensures value { OnOk result (members_view members.new.entries ≡ put_if (codes "reason") (option_copied reason.entry) (members_view members.old.entries)) }
    ensures plain { OnOk result (members_have_float (members_view members.old.entries) ≡ false → members_have_float (members_view members.new.entries) ≡ false) }
{
    match reason {
        Some(reason) => put_text(alloc, members, "reason", reason.as_str()),
        None => Ok(()),
    }
}

fn put_time_if(
    alloc: Global,
    members: &mut Map<String, Value>,
    key: &str,
    time: Option<&Time>,
) -> Result<(), NoMemory>
    ensures value { OnOk result (members_view members.new.entries ≡ put_if key.now (option_copied time.entry) (members_view members.old.entries)) }
    ensures plain { OnOk result (members_have_float (members_view members.old.entries) ≡ false → members_have_float (members_view members.new.entries) ≡ false) }
{
    match time {
        Some(time) => put_text(alloc, members, key, time.as_str()),
        None => Ok(()),
    }
}

#[tactic(auto, unfolding(crate::specs::Resources::put_times))]
fn put_times(
    alloc: Global,
    members: &mut Map<String, Value>,
    times: &PetitionTimes,
) -> Result<(), NoMemory>
    ensures value { OnOk result (members_view members.new.entries ≡ put_times times.now (members_view members.old.entries)) }
    ensures plain { OnOk result (members_have_float (members_view members.old.entries) ≡ false → members_have_float (members_view members.new.entries) ≡ false) }
{
    put_time_if(alloc, members, "opened", times.opened.as_ref())?;
    put_time_if(alloc, members, "closed", times.closed.as_ref())
}

#[tactic(auto, unfolding(crate::specs::Resources::petition_members))]
fn found_petition(
    alloc: Global,
    founding: Vid,
    id: u32,
    petition: &Petition,
    reason: Option<&Title>,
    times: &PetitionTimes,
) -> Result<Response, NoMemory>
    ensures { IfOk result (λ response. response ≡ found_response (petition_members founding id petition.now (option_copied reason.entry) times.now)) }
{
    let mut members = Map::new(alloc);
    put_asked(alloc, &mut members, id, petition)?;
    put_numbers(alloc, &mut members, founding, petition)?;
    put_reason_if(alloc, &mut members, reason)?;
    put_times(alloc, &mut members, times)?;
    found_response(alloc, members)
}

/// Makes the response to a query for a petition to a registry with this founding vendor, with the
/// reason why it was declined, if one was given, and the times at which it was opened and closed; or
/// refusal 6 if there is no such petition.
pub fn petition_response(
    alloc: Global,
    founding: Vid,
    id: u32,
    petition: Option<&Petition>,
    reason: Option<&Title>,
    times: &PetitionTimes,
) -> Result<Response, NoMemory>
    ensures { IfOk result (λ response. response ≡ petition_response founding id (option_copied petition.entry) (option_copied reason.entry) times.now) }
{
    match petition {
        Some(petition) => found_petition(alloc, founding, id, petition, reason, times),
        None => reply_response(alloc, &Reply::Refused(Refusal::NoPetition)),
    }
}

/// Makes the response to a query for the head of the record: how many requests were accepted, the
/// digest, and the time of the last request, if it has one.
#[tactic(auto, unfolding(crate::specs::Resources::head_response))]
pub fn head_response(
    alloc: Global,
    requests: u32,
    digest: &Digest,
    time: Option<&Time>,
) -> Result<Response, NoMemory>
    ensures { IfOk result (λ response. response ≡ head_response requests digest.now (option_copied time.entry)) }
{
    let mut members = Map::new(alloc);
    put_number(alloc, &mut members, "requests", requests)?;
    put_text(alloc, &mut members, "digest", digest.as_str())?;
    put_time_if(alloc, &mut members, "time", time)?;
    found_response(alloc, members)
}
