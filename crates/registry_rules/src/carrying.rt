//! The effect of each kind of act on totals.

ghost use Rattle.std.specs.Prelude.{◌≡◌, ◌<◌, ◌+◌, ◌++◌, ◌∷◌, [], OnOk};
ghost use Rattle.registry_rules.specs.Limits.{greatest_count};
ghost use Rattle.registry_rules.specs.Carrying.{CarriesAsks, CarriesCloses, HasTaken, CarriesReserves, Releases, CarriesImports, Allows, Carries};

use crate::counting::{add_number, add_span, cut_span, one_less, one_more};
use crate::summing::add_items;
use crate::{Act, Items, Totals, Vendor};
use usbnum_core::{NoMemory, Pid, Slug, Span, Title, Vid};

/// Updates the totals with an act. After NoMemory their content is unspecified.
pub(crate) fn carry_act(totals: &mut Totals, act: &Act) -> Result<(), NoMemory>
    ensures { OnOk result (Carries totals.old totals.new act.now) }
{
    match act {
        Act::Enrolled(_) => {
            enrolled(totals);
            Ok(())
        }
        Act::Asked { id: _, petition } => asked(totals, &petition.org),
        Act::Granted {
            id: _,
            petition,
            name,
        } => {
            closed(totals, &petition.org)?;
            taken(totals, name.number.vid, name.number.pid)
        }
        Act::Declined {
            id: _,
            petition,
            reason: _,
        } => closed(totals, &petition.org),
        Act::Withdrawn { id: _, petition } => closed(totals, &petition.org),
        Act::Reserved { name } => reserved(totals, name.vid, &name.span),
        Act::Released { name } => released(totals, name.vid, &name.span),
        Act::Imported {
            vid,
            org: _,
            fresh,
            tally: _,
        } => imported(totals, *vid, fresh),
        Act::VendorAdded { vendor, name } => vendor_added(totals, *vendor, name),
        Act::LicenceAdded { licence } => licence_added(totals, licence),
        _ => Ok(()),
    }
}

fn enrolled(totals: &mut Totals)
    ensures { totals.old.orgs < greatest_count → totals.new ≡ record totals.old { orgs = totals.old.orgs + 1 } }
{
    totals.orgs = totals.orgs.saturating_add(1);
}

fn asked(totals: &mut Totals, org: &Slug) -> Result<(), NoMemory>
    ensures { OnOk result (CarriesAsks totals.old totals.new org.now) }
{
    totals.petitions = totals.petitions.saturating_add(1);
    one_more(&mut totals.still_open, org)
}

fn closed(totals: &mut Totals, org: &Slug) -> Result<(), NoMemory>
    ensures { OnOk result (CarriesCloses totals.old totals.new org.now) }
{
    one_less(&mut totals.still_open, org)
}

fn taken(totals: &mut Totals, vid: Vid, pid: Pid) -> Result<(), NoMemory>
    ensures { OnOk result (HasTaken totals.old totals.new vid pid) }
{
    add_number(totals.alloc, &mut totals.taken, vid, pid)
}

fn reserved(totals: &mut Totals, vid: Vid, span: &Span) -> Result<(), NoMemory>
    ensures { OnOk result (CarriesReserves totals.old totals.new vid span.now) }
{
    let alloc = totals.alloc;
    add_span(alloc, &mut totals.taken, vid, span)?;
    add_span(alloc, &mut totals.reserved, vid, span)
}

fn released(totals: &mut Totals, vid: Vid, span: &Span) -> Result<(), NoMemory>
    ensures { OnOk result (Releases totals.old totals.new vid span.now) }
{
    let alloc = totals.alloc;
    cut_span(alloc, &mut totals.taken, vid, span)?;
    cut_span(alloc, &mut totals.reserved, vid, span)
}

fn imported(totals: &mut Totals, vid: Vid, fresh: &Items) -> Result<(), NoMemory>
    ensures { OnOk result (CarriesImports totals.old totals.new vid fresh.now) }
{
    add_items(totals.alloc, &mut totals.taken, vid, fresh.as_slice())
}

fn vendor_added(totals: &mut Totals, vid: Vid, name: &Title) -> Result<(), NoMemory>
    ensures { OnOk result (totals.new ≡ record totals.old { vendors = totals.old.vendors ++ record { vid = vid; name = name.now } ∷ [] }) }
{
    let name = name.clone()?;
    totals.vendors.add(Vendor { vid, name })
}

fn licence_added(totals: &mut Totals, licence: &Title) -> Result<(), NoMemory>
    ensures { OnOk result (Allows totals.old totals.new licence.now) }
{
    totals.founding.licences.add(licence.clone()?)
}
