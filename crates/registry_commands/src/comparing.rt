//! Compares the rows of a store with those that its record makes.

ghost use Rattle.std.specs.Prelude.{◌≡◌, ◌≢◌, ◌+◌, ◌-◌, ◌<◌, ◌^◌, cond, true, false, Ok, None, Some, IfErr, IfOk};
ghost use Rattle.std.specs.List.{count_by};
ghost use Rattle.registry_rules.specs.Accepted.{AreValid};
ghost use Rattle.registry_rules.specs.History.{History};
ghost use Rattle.registry_store.specs.Promise.{Represents, is_poisoned};
ghost use Rattle.registry_views.specs.Lists.{AreLists};
ghost use Rattle.registry_commands.specs.Checks.{difference_text, is_held_entry};

use crate::replaying::has_same_line;
use registry_rules::{Entry, Org, Petition, Vendor};
use registry_store::{Fault, Registry};
use registry_views::Lists;
use sqlite::Alter;
use std::alloc::Global;
use std::fmt;
use usbnum_core::{Digest, NoMemory, Number, Slug, Vid};

/// What is other in the rows of a store than in those that its record makes.
#[derive(Debug, Drop)]
pub enum Difference {
    /// The vendor with this vendor ID.
    Vendor(Vid),
    /// The organisation with this slug.
    Organisation(Slug),
    /// The petition with this number.
    Petition(u32),
    /// This number.
    Number(Number),
    /// The reserved numbers of this vendor.
    Reserved(Vid),
    /// The founding, or the licences that are allowed now.
    Founding,
    /// The digest of the record.
    Digest,
}

/// Writes the difference, as in `petition 12` or `number 1209:0011`.
impl fmt::Display for Difference {
    ghost output = { λ difference. Some (difference_text difference) };

    fn fmt<W: fmt::Write>(&self, f: &mut fmt::Formatter<W>) -> fmt::Result {
        match self {
            Difference::Vendor(vid) => write!(f, "vendor {vid}"),
            Difference::Organisation(slug) => write!(f, "organisation {slug}"),
            Difference::Petition(id) => write!(f, "petition {id}"),
            Difference::Number(number) => write!(f, "number {}:{}", number.vid, number.pid),
            Difference::Reserved(vid) => write!(f, "reserved numbers of vendor {vid}"),
            Difference::Founding => f.write_str("founding or licences"),
            Difference::Digest => f.write_str("digest of the record"),
        }
    }
}

/// Returns the first place at which two lists are not the same.
fn first_unlike<T: Eq>(a: &[T], b: &[T]) -> Option<usize> {
    let most = if a.len() < b.len() { b.len() } else { a.len() };
    for place in 0..most {
        if a.get(place) != b.get(place) {
            return Some(place);
        }
    }
    None
}

/// Returns the first place at which two lists are not the same, and none if they are.
fn place_of_other<T: Eq>(a: &[T], b: &[T]) -> Option<usize>
    ensures { a.now ≡ b.now → result ≡ None }
{
    if a == b { None } else { first_unlike(a, b) }
}

/// Returns the lesser one of two keys: the other list lacks it, or both have it.
fn lesser<K: Ord + Copy>(a: Option<K>, b: Option<K>) -> Option<K> {
    match (a, b) {
        (Some(a), Some(b)) => Some(if b < a { b } else { a }),
        (Some(a), None) => Some(a),
        (None, b) => b,
    }
}

/// Returns the vendor that is other in one of two lists.
fn other_vendor(a: &[Vendor], b: &[Vendor]) -> Option<Vid>
    ensures { a.now ≡ b.now → result ≡ None }
{
    let place = place_of_other(a, b)?;
    lesser(
        a.get(place).map(|vendor| vendor.vid),
        b.get(place).map(|vendor| vendor.vid),
    )
}

/// Returns the slug of the organisation that is other in one of two lists.
fn other_org<'a>(a: &'a [Org], b: &'a [Org]) -> Option<&'a Slug>
    ensures { a.now ≡ b.now → result ≡ None }
{
    let place = place_of_other(a, b)?;
    lesser(
        a.get(place).map(|org| &org.slug),
        b.get(place).map(|org| &org.slug),
    )
}

/// Returns the number of the petition that is other in one of two lists.
fn other_petition(a: &[(u32, Petition)], b: &[(u32, Petition)]) -> Option<u32>
    ensures { a.now ≡ b.now → result ≡ None }
{
    let place = place_of_other(a, b)?;
    lesser(
        a.get(place).map(|pair| pair.0),
        b.get(place).map(|pair| pair.0),
    )
}

/// Returns the number whose entry is other in one of two lists.
fn other_number(a: &[(Number, Entry)], b: &[(Number, Entry)]) -> Option<Number>
    ensures { a.now ≡ b.now → result ≡ None }
{
    let place = place_of_other(a, b)?;
    lesser(
        a.get(place).map(|pair| pair.0),
        b.get(place).map(|pair| pair.0),
    )
}

/// Returns the first row that is other in one of two registries, by their lists.
pub(crate) fn other_row(stored: &Lists, made: &Lists) -> Result<Option<Difference>, NoMemory>
    ensures { (h : History) → AreLists h stored.now → AreLists h made.now → IfOk result (λ other. other ≡ None) }
{
    if let Some(vid) = other_vendor(&stored.vendors, &made.vendors) {
        return Ok(Some(Difference::Vendor(vid)));
    }
    if let Some(slug) = other_org(&stored.orgs, &made.orgs) {
        return Ok(Some(Difference::Organisation(slug.clone()?)));
    }
    if let Some(id) = other_petition(&stored.petitions, &made.petitions) {
        return Ok(Some(Difference::Petition(id)));
    }
    if let Some(number) = other_number(&stored.numbers, &made.numbers) {
        return Ok(Some(Difference::Number(number)));
    }
    Ok(None)
}

/// Returns whether two registries have the same founding, with the licences of now.
fn has_same_founding<S: Alter, T: Alter>(
    alloc: Global,
    stored: &Registry<S>,
    made: &Registry<T>,
) -> Result<bool, NoMemory>
    ensures { (h : History) → Represents stored.now h → Represents made.now h → result ≢ Ok false }
{
    let a = stored.founding();
    let b = made.founding();
    // Only for the proof: the licences ascend.
    let _ = a.licences.as_slice();
    let _ = b.licences.as_slice();
    has_same_line(alloc, a, b)
}

/// Returns the first of the vendors whose reserved numbers are other in one of two registries.
fn other_reserved<S: Alter, T: Alter>(
    stored: &Registry<S>,
    made: &Registry<T>,
    vendors: &[Vendor],
) -> Result<Option<Vid>, Fault>
    ensures same { (h : History) → Represents stored.now h → Represents made.now h → IfOk result (λ other. other ≡ None) }
    ensures kind { is_poisoned stored.now ≡ false → is_poisoned made.now ≡ false → IfErr result (λ fault. fault ≡ Fault.NoMemory) }
{
    for vendor in vendors {
        let here = stored.reserved(vendor.vid)?;
        let there = made.reserved(vendor.vid)?;
        let is_same = here == there;
        if !is_same {
            return Ok(Some(vendor.vid));
        }
    }
    Ok(None)
}

/// Returns whether two digests are the same.
fn is_same(a: &Digest, b: &Digest) -> bool
    ensures { a.now ≡ b.now → result ≡ true }
{
    a.as_str() == b.as_str()
}

/// Returns whether the records of two registries have the same digest. It covers the times of their
/// requests too.
fn has_same_digest<S: Alter, T: Alter>(
    stored: &Registry<S>,
    made: &Registry<T>,
) -> Result<bool, Fault>
    ensures same { (h : History) → AreValid h.deeds → Represents stored.now h → Represents made.now h → result ≢ Ok false }
    ensures kind { is_poisoned stored.now ≡ false → is_poisoned made.now ≡ false → IfErr result (λ fault. fault ≡ Fault.NoMemory) }
{
    let here = stored.head()?;
    let there = made.head()?;
    Ok(is_same(&here.digest, &there.digest))
}

/// Returns what is other in what two registries keep in memory: the founding, with the licences of
/// now, the reserved numbers of one of these vendors, or the digest of the record.
pub(crate) fn other_totals<S: Alter, T: Alter>(
    alloc: Global,
    stored: &Registry<S>,
    made: &Registry<T>,
    vendors: &[Vendor],
) -> Result<Option<Difference>, Fault>
    ensures same { (h : History) → AreValid h.deeds → Represents stored.now h → Represents made.now h → IfOk result (λ other. other ≡ None) }
    ensures kind { is_poisoned stored.now ≡ false → is_poisoned made.now ≡ false → IfErr result (λ fault. fault ≡ Fault.NoMemory) }
{
    if !has_same_founding(alloc, stored, made)? {
        return Ok(Some(Difference::Founding));
    }
    if let Some(vid) = other_reserved(stored, made, vendors)? {
        return Ok(Some(Difference::Reserved(vid)));
    }
    if has_same_digest(stored, made)? {
        Ok(None)
    } else {
        Ok(Some(Difference::Digest))
    }
}

/// Returns the count, plus one if the number is held.
fn one_more(count: usize, is_held: bool) -> usize
    requires { count < 2 ^ 64 - 1 }
    ensures { result ≡ count + cond is_held 1 0 }
{
    if is_held { count + 1 } else { count }
}

/// Returns how many of the numbers are held.
pub(crate) fn count_held(numbers: &[(Number, Entry)]) -> usize
    ensures { result ≡ count_by is_held_entry numbers.now }
{
    let mut held = 0usize;
    for pair in numbers {
        held = one_more(held, pair.1.held);
    }
    held
}
