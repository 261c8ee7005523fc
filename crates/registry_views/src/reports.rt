//! The reports on a registry.

ghost use Rattle.std.specs.Prelude.{◌≡◌, false, IfErr, IfOk, string_bytes};
ghost use Rattle.registry_rules.specs.History.{History};
ghost use Rattle.registry_store.specs.Promise.{Represents, is_poisoned};
ghost use Rattle.registry_store.specs.Queries.{IsQuery};
ghost use Rattle.registry_views.specs.Reports.{AreReserved, IsCensus, IsHoldersReport, IsNumbersReport, IsOrganisationsReport, IsPetitionsReport, IsReport};

use registry_reports::{ReportKind, census, holders, open_petitions, organisations, taken_numbers};
use registry_rules::Vendor;
use registry_store::{Fault, Registry};
use sqlite::Alter;
use std::alloc::Global;
use usbnum_core::{Spans, Vid};

/// Returns each vendor with its reserved numbers.
fn reserved_of<S: Alter>(
    alloc: Global,
    registry: &Registry<S>,
    vendors: &[Vendor],
) -> Result<Vec<(Vid, Spans)>, Fault>
    ensures answered { (h : History) → Represents registry.now h → IfOk result (λ pairs. AreReserved h vendors.now pairs.items) }
    ensures kind { is_poisoned registry.now ≡ false → IfErr result (λ fault. fault ≡ Fault.NoMemory) }
{
    let mut pairs = Vec::new(alloc);
    for vendor in vendors {
        let spans = registry.reserved(vendor.vid)?;
        match pairs.push((vendor.vid, spans)) {
            Ok(()) => {}
            Err(_) => return Err(Fault::NoMemory),
        }
    }
    Ok(pairs)
}

fn census_of<S: Alter>(alloc: Global, registry: &mut Registry<S>) -> Result<String, Fault>
    ensures { IsQuery registry.old registry.new result (λ h text. IsCensus h (string_bytes text)) }
{
    let vendors = registry.vendors()?;
    let numbers = registry.numbers()?;
    let pairs = reserved_of(alloc, registry, vendors.as_slice())?;
    Ok(census(alloc, pairs.as_slice(), numbers.as_slice())?)
}

fn holders_of<S: Alter>(alloc: Global, registry: &mut Registry<S>) -> Result<String, Fault>
    ensures { IsQuery registry.old registry.new result (λ h text. IsHoldersReport h (string_bytes text)) }
{
    let numbers = registry.numbers()?;
    Ok(holders(alloc, numbers.as_slice())?)
}

fn petitions_of<S: Alter>(alloc: Global, registry: &mut Registry<S>) -> Result<String, Fault>
    ensures { IsQuery registry.old registry.new result (λ h text. IsPetitionsReport h (string_bytes text)) }
{
    let founding = registry.founding().vendor;
    let petitions = registry.open_petitions()?;
    Ok(open_petitions(alloc, founding, petitions.as_slice())?)
}

fn numbers_of<S: Alter>(alloc: Global, registry: &mut Registry<S>) -> Result<String, Fault>
    ensures { IsQuery registry.old registry.new result (λ h text. IsNumbersReport h (string_bytes text)) }
{
    let vendors = registry.vendors()?;
    let numbers = registry.numbers()?;
    let pairs = reserved_of(alloc, registry, vendors.as_slice())?;
    Ok(taken_numbers(alloc, pairs.as_slice(), numbers.as_slice())?)
}

fn organisations_of<S: Alter>(alloc: Global, registry: &mut Registry<S>) -> Result<String, Fault>
    ensures { IsQuery registry.old registry.new result (λ h text. IsOrganisationsReport h (string_bytes text)) }
{
    let orgs = registry.orgs()?;
    Ok(organisations(alloc, orgs.as_slice())?)
}

/// Returns the text of a report on the registry. Changes nothing.
///
/// # Errors
///
/// `Fault::NoMemory` if memory runs out, also for the text itself; the other faults are those of
/// the lists of the registry.
pub fn report_of<S: Alter>(
    alloc: Global,
    registry: &mut Registry<S>,
    kind: ReportKind,
) -> Result<String, Fault>
    ensures { IsQuery registry.old registry.new result (λ h text. IsReport kind h (string_bytes text)) }
{
    match kind {
        ReportKind::Census => census_of(alloc, registry),
        ReportKind::Holders => holders_of(alloc, registry),
        ReportKind::Petitions => petitions_of(alloc, registry),
        ReportKind::Numbers => numbers_of(alloc, registry),
        ReportKind::Organisations => organisations_of(alloc, registry),
    }
}
