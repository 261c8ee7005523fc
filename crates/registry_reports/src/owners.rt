//! The report on the owners of numbers.
ghost use Rattle.std.specs.Prelude.{◌≡◌, ◌++◌, IfOk, OnOk};
ghost use Rattle.std.specs.Ordering.{nat_cmp};
ghost use Rattle.std.specs.Cmp.Lexicographic.{slice_cmp};
ghost use Rattle.std.specs.BTreeMap.{IsOrdered};
ghost use Rattle.std.specs.String.{string_bytes};
ghost use Rattle.registry_reports.specs.Holders.{holder_line, tally_lines, IsHolders};

use crate::columns::{push_left, push_right};
use crate::tallies::{Tally, tallied};
use registry_rules::Entry;
use std::alloc::Global;
use std::collections::BTreeMap;
use usbnum_core::{NoMemory, Number, Slug};

#[tactic(auto, unfolding(crate::specs::Holders::holder_line))]
fn push_holder(alloc: Global, text: &mut String, slug: &Slug, tally: &Tally) -> Result<(), NoMemory>
    ensures { OnOk result (string_bytes text.new ≡ string_bytes text.old ++ holder_line slug.now tally.now) }
{
    let Tally { held, returned } = *tally;
    let held = format!(in alloc; "{held}")?;
    let returned = format!(in alloc; "{returned}")?;
    push_left(text, 32, slug.as_str())?;
    push_right(text, 6, held.as_str())?;
    push_right(text, 6, returned.as_str())?;
    text.push_str("\n")?;
    Ok(())
}

fn lines_of(alloc: Global, tallies: &BTreeMap<Slug, Tally>) -> Result<String, NoMemory>
    ensures lines { IfOk result (λ text. string_bytes text ≡ tally_lines tallies.now.entries) }
    ensures ordered { IsOrdered (slice_cmp nat_cmp) tallies.now }
{
    let mut text = String::new(alloc);
    for (slug, tally) in tallies {
        push_holder(alloc, &mut text, slug, tally)?;
    }
    Ok(text)
}

/// Returns a line for each organisation that owns a number, in the order of slugs: the slug and the
/// counts of its held and returned numbers, over all vendors. A count of more than six digits is
/// not cut.
pub fn holders(alloc: Global, numbers: &[(Number, Entry)]) -> Result<String, NoMemory>
    ensures { IfOk result (λ text. IsHolders numbers.now (string_bytes text)) }
{
    let tallies = tallied(alloc, numbers)?;
    lines_of(alloc, &tallies)
}
