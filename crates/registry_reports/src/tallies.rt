//! Counts the held and the returned numbers of each organisation, in one pass over all numbers.
ghost use Rattle.std.specs.Prelude.{◌≡◌, ◌-◌, ◌^◌, ◌<◌, ℕ, List, IfOk, OnOk, Some, if◌then◌else◌};
ghost use Rattle.std.specs.Ordering.{nat_cmp};
ghost use Rattle.std.specs.Cmp.Lexicographic.{slice_cmp};
ghost use Rattle.std.specs.BTreeMap.{get};
ghost use Rattle.std.specs.Str.{bytes_eq};
ghost use Rattle.registry_reports.specs.Tallies.{tally_at, tallied, with_number};

use crate::counting::one_more;
use registry_rules::Entry;
use std::alloc::Global;
use std::collections::BTreeMap;
use usbnum_core::{NoMemory, Number, Slug};

/// The counts of an organisation's held and returned numbers.
#[derive(Clone, Copy)]
pub struct Tally {
    /// The number of held numbers.
    pub held: usize,
    /// The number of returned numbers.
    pub returned: usize,
}

/// Returns the organisation's tally so far.
fn tally_at(tallies: &BTreeMap<Slug, Tally>, org: &Slug) -> Tally
    ensures { result ≡ tally_at tallies.now org.now }
{
    let nothing = Tally {
        held: 0,
        returned: 0,
    };
    tallies.get(org).copied().unwrap_or(nothing)
}

/// Returns the tally with one more number.
fn with_number(tally: Tally, held: bool) -> Tally
    requires held { tally.held < 2 ^ 64 - 1 }
    requires returned { tally.returned < 2 ^ 64 - 1 }
    ensures { result ≡ with_number tally held }
{
    Tally {
        held: one_more(tally.held, held),
        returned: one_more(tally.returned, !held),
    }
}

fn set_tally(tallies: &mut BTreeMap<Slug, Tally>, org: &Slug, tally: Tally) -> Result<(), NoMemory>
    ensures { OnOk result ((slug : List ℕ) → get (slice_cmp nat_cmp) tallies.new slug ≡ (if bytes_eq org.now slug then Some tally else get (slice_cmp nat_cmp) tallies.old slug)) }
{
    tallies.insert(org.clone()?, tally)?;
    Ok(())
}

/// Counts one number for its organisation.
fn count_in(tallies: &mut BTreeMap<Slug, Tally>, pair: &(Number, Entry)) -> Result<(), NoMemory>
    requires held { (tally_at tallies.old pair.now.1.org).held < 2 ^ 64 - 1 }
    requires returned { (tally_at tallies.old pair.now.1.org).returned < 2 ^ 64 - 1 }
    ensures { OnOk result ((slug : List ℕ) → get (slice_cmp nat_cmp) tallies.new slug
        ≡ (if bytes_eq pair.now.1.org slug then Some (with_number (tally_at tallies.old pair.now.1.org) pair.now.1.held) else get (slice_cmp nat_cmp) tallies.old slug)) }
{
    let tally = tally_at(tallies, &pair.1.org);
    set_tally(tallies, &pair.1.org, with_number(tally, pair.1.held))
}

/// Returns the tallies of all organisations that own one of the numbers.
pub fn tallied(
    alloc: Global,
    numbers: &[(Number, Entry)],
) -> Result<BTreeMap<Slug, Tally>, NoMemory>
    ensures { IfOk result (λ tallies. (slug : List ℕ) → get (slice_cmp nat_cmp) tallies slug ≡ tallied numbers.now slug) }
{
    let mut tallies = BTreeMap::new(alloc);
    for pair in numbers {
        count_in(&mut tallies, pair)?;
    }
    Ok(tallies)
}
