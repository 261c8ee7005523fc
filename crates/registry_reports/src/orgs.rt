//! The report on the organisations.
ghost use Rattle.std.specs.Prelude.{◌≡◌, ◌++◌, IfOk, OnOk};
ghost use Rattle.std.specs.String.{string_bytes};
ghost use Rattle.registry_reports.specs.Organisations.{org_line, org_lines};

use crate::columns::push_left;
use registry_rules::Org;
use std::alloc::Global;
use usbnum_core::NoMemory;

fn push_org(text: &mut String, org: &Org) -> Result<(), NoMemory>
    ensures { OnOk result (string_bytes text.new ≡ string_bytes text.old ++ org_line org.now) }
{
    push_left(text, 32, org.slug.as_str())?;
    text.push_str("  ")?;
    push_left(text, 32, org.keeper.as_str())?;
    text.push_str("  ")?;
    text.push_str(org.title.as_str())?;
    text.push_str("\n")?;
    Ok(())
}

/// Returns a line for each organisation, in the order of the list: its slug, its keeper and its
/// title.
pub fn organisations(alloc: Global, orgs: &[Org]) -> Result<String, NoMemory>
    ensures { IfOk result (λ text. string_bytes text ≡ org_lines orgs.now) }
{
    let mut text = String::new(alloc);
    for org in orgs {
        push_org(&mut text, org)?;
    }
    Ok(text)
}
