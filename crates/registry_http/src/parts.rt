//! Reads the parts of a path with a known template as values.

ghost use Rattle.std.specs.Prelude.{◌≡◌, IfOk, option_copied};
ghost use Rattle.registry_wire.specs.Kinds.{slug_of};
ghost use Rattle.registry_http.specs.Routes.{starts_with_zero, petition_written, count_written, number_route, vendor_number_route, import_route, vendor_import_route, org_route, petition_route, history_route, report_route};

use crate::fields::length_of;
use crate::route::{Endpoint, Query, Route};
use registry_reports::report_named;
use std::alloc::Global;
use usbnum_core::{NoMemory, Slug, parse_pid, parse_vid};

/// One more than the greatest number of a petition, and than the greatest count of requests.
const COUNTS_END: u64 = 4_294_967_296;

/// Reads a part as a slug.
#[tactic(auto, unfolding(registry_wire::specs::Kinds::slug_of))]
pub(crate) fn slug_of(alloc: Global, text: &[u8]) -> Result<Option<Slug>, NoMemory>
    ensures { IfOk result (λ found. found ≡ slug_of text.now) }
{
    Slug::new(alloc, text)
}

fn starts_with_zero(text: &[u8]) -> bool
    ensures { result ≡ starts_with_zero text.now }
{
    matches!(text, [b'0', ..])
}

#[tactic(auto, unfolding(crate::specs::Routes::petition_written))]
fn petition_written(text: &[u8]) -> Option<u32>
    ensures { result ≡ petition_written text.now }
{
    if starts_with_zero(text) {
        return None;
    }
    match length_of(text) {
        Some(number) => {
            if number < COUNTS_END {
                Some(number as u32)
            } else {
                None
            }
        }
        None => None,
    }
}

#[tactic(auto, unfolding(crate::specs::Routes::count_written))]
fn count_written(text: &[u8]) -> Option<u32>
    ensures { result ≡ count_written text.now }
{
    if text == "0".as_bytes() {
        Some(0)
    } else {
        petition_written(text)
    }
}

#[tactic(auto, unfolding(crate::specs::Routes::number_route))]
pub(crate) fn number_route(pid: Option<&str>) -> Option<Route>
    ensures { result ≡ number_route (option_copied pid.entry) }
{
    let pid = parse_pid(pid?.as_bytes())?;
    Some(Route::Get(Query::Number { vendor: None, pid }))
}

#[tactic(auto, unfolding(crate::specs::Routes::vendor_number_route))]
pub(crate) fn vendor_number_route(vendor: Option<&str>, pid: Option<&str>) -> Option<Route>
    ensures { result ≡ vendor_number_route (option_copied vendor.entry) (option_copied pid.entry) }
{
    let vid = parse_vid(vendor?.as_bytes())?;
    let pid = parse_pid(pid?.as_bytes())?;
    Some(Route::Get(Query::Number {
        vendor: Some(vid),
        pid,
    }))
}

#[tactic(auto, unfolding(crate::specs::Routes::petition_route))]
pub(crate) fn petition_route(id: Option<&str>) -> Option<Route>
    ensures { result ≡ petition_route (option_copied id.entry) }
{
    let id = petition_written(id?.as_bytes())?;
    Some(Route::Get(Query::Petition(id)))
}

#[tactic(auto, unfolding(crate::specs::Routes::history_route))]
pub(crate) fn history_route(n: Option<&str>) -> Option<Route>
    ensures { result ≡ history_route (option_copied n.entry) }
{
    let n = count_written(n?.as_bytes())?;
    Some(Route::Get(Query::History(u64::from(n))))
}

#[tactic(auto, unfolding(crate::specs::Routes::report_route))]
pub(crate) fn report_route(name: Option<&str>) -> Option<Route>
    ensures { result ≡ report_route (option_copied name.entry) }
{
    let report = report_named(name?)?;
    Some(Route::Get(Query::Report(report)))
}

#[tactic(auto, unfolding(crate::specs::Routes::org_route))]
pub(crate) fn org_route(alloc: Global, org: Option<&str>) -> Result<Option<Route>, NoMemory>
    ensures { IfOk result (λ found. found ≡ org_route (option_copied org.entry)) }
{
    let Some(org) = org else {
        return Ok(None);
    };
    match slug_of(alloc, org.as_bytes())? {
        Some(org) => Ok(Some(Route::Get(Query::Org(org)))),
        None => Ok(None),
    }
}

#[tactic(auto, unfolding(crate::specs::Routes::import_route))]
pub(crate) fn import_route(alloc: Global, org: Option<&str>) -> Result<Option<Route>, NoMemory>
    ensures { IfOk result (λ found. found ≡ import_route (option_copied org.entry)) }
{
    let Some(org) = org else {
        return Ok(None);
    };
    match slug_of(alloc, org.as_bytes())? {
        Some(org) => Ok(Some(Route::Post(Endpoint::Imports { org, vendor: None }))),
        None => Ok(None),
    }
}

#[tactic(auto, unfolding(crate::specs::Routes::vendor_import_route))]
pub(crate) fn vendor_import_route(
    alloc: Global,
    org: Option<&str>,
    vendor: Option<&str>,
) -> Result<Option<Route>, NoMemory>
    ensures { IfOk result (λ found. found ≡ vendor_import_route (option_copied org.entry) (option_copied vendor.entry)) }
{
    let (Some(org), Some(vendor)) = (org, vendor) else {
        return Ok(None);
    };
    let Some(vid) = parse_vid(vendor.as_bytes()) else {
        return Ok(None);
    };
    match slug_of(alloc, org.as_bytes())? {
        Some(org) => Ok(Some(Route::Post(Endpoint::Imports {
            org,
            vendor: Some(vid),
        }))),
        None => Ok(None),
    }
}
