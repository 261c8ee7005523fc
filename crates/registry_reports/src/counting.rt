//! Counts the free, reserved, held and returned numbers of each vendor.
ghost use Rattle.std.specs.Prelude.{◌≡◌, ◌+◌, ◌-◌, ◌^◌, ◌<◌, ◌≤◌, cond, ◌&&◌, ◌++◌, codes, nat_eq, IfOk, OnOk};
ghost use Rattle.std.specs.List.{count_by};
ghost use Rattle.std.specs.Fmt.{decimal};
ghost use Rattle.std.specs.String.{string_bytes};
ghost use Rattle.usbnum_core.specs.Number.{IsId, digits_of};
ghost use Rattle.registry_reports.specs.Order.{Ascends};
ghost use Rattle.registry_reports.specs.Census.{held_in, returned_in, held_count, returned_count, reserved_count, free_count, census_line, census_text, census_of, census_lines};

use crate::columns::{push_left, push_right};
use registry_rules::Entry;
use std::alloc::Global;
use usbnum_core::{NoMemory, Number, Spans, Vid};

/// Returns whether the number is the vendor's, held and not reserved.
fn is_held(vid: Vid, spans: &Spans, pair: &(Number, Entry)) -> bool
    ensures value { result ≡ (nat_eq pair.now.0.vid vid && held_in spans.now pair.now) }
    ensures number { IsId pair.now.0.pid }
{
    // Only for the proof: a product ID is at least 1.
    let _ = pair.0.pid.get();
    pair.0.vid == vid && !spans.contains(pair.0.pid) && pair.1.held
}

/// Returns whether the number is the vendor's, returned and not reserved.
fn is_returned(vid: Vid, spans: &Spans, pair: &(Number, Entry)) -> bool
    ensures value { result ≡ (nat_eq pair.now.0.vid vid && returned_in spans.now pair.now) }
    ensures number { IsId pair.now.0.pid }
{
    // Only for the proof: a product ID is at least 1.
    let _ = pair.0.pid.get();
    pair.0.vid == vid && !spans.contains(pair.0.pid) && !pair.1.held
}

/// Returns the count, plus one if the test passed.
pub fn one_more(count: usize, test: bool) -> usize
    requires { count < 2 ^ 64 - 1 }
    ensures { result ≡ count + cond test 1 0 }
{
    if test { count + 1 } else { count }
}

/// Counts the vendor's held numbers.
fn count_held(vid: Vid, spans: &Spans, numbers: &[(Number, Entry)]) -> usize
    ensures { Ascends numbers.now → result ≡ held_count numbers.now spans.now vid }
{
    let mut count = 0usize;
    for pair in numbers {
        count = one_more(count, is_held(vid, spans, pair));
    }
    count
}

/// Counts the vendor's returned numbers.
fn count_returned(vid: Vid, spans: &Spans, numbers: &[(Number, Entry)]) -> usize
    ensures { Ascends numbers.now → result ≡ returned_count numbers.now spans.now vid }
{
    let mut count = 0usize;
    for pair in numbers {
        count = one_more(count, is_returned(vid, spans, pair));
    }
    count
}

#[tactic(auto, unfolding(crate::specs::Census::census_line))]
fn push_row(text: &mut String, label: &str, value: &str) -> Result<(), NoMemory>
    ensures { OnOk result (string_bytes text.new ≡ string_bytes text.old ++ census_line label.now value.now) }
{
    push_left(text, 10, label)?;
    push_right(text, 6, value)?;
    text.push_str("\n")?;
    Ok(())
}

fn push_count(alloc: Global, text: &mut String, label: &str, count: usize) -> Result<(), NoMemory>
    ensures { OnOk result (string_bytes text.new ≡ string_bytes text.old ++ census_line label.now (decimal count)) }
{
    let value = format!(in alloc; "{count}")?;
    push_row(text, label, value.as_str())
}

fn push_vendor(alloc: Global, text: &mut String, vid: Vid) -> Result<(), NoMemory>
    ensures { OnOk result (string_bytes text.new ≡ string_bytes text.old ++ census_line (codes "vendor") (digits_of vid)) }
{
    let value = format!(in alloc; "{vid}")?;
    push_row(text, "vendor", value.as_str())
}

/// Returns the number of all numbers that are in none of these counts.
fn free_of(reserved: u32, held: usize, returned: usize) -> usize
    ensures { reserved + held + returned ≤ 65535 → result + (reserved + held + returned) ≡ 65535 }
{
    65535usize
        .saturating_sub(reserved as usize)
        .saturating_sub(held)
        .saturating_sub(returned)
}

/// The counts of one vendor.
#[derive(Clone, Copy)]
struct Counts {
    free: usize,
    reserved: usize,
    held: usize,
    returned: usize,
}

fn counts_of(numbers: &[(Number, Entry)], vid: Vid, spans: &Spans) -> Counts
    ensures free { Ascends numbers.now → result.free ≡ free_count numbers.now spans.now vid }
    ensures reserved { result.reserved ≡ reserved_count spans.now }
    ensures held { Ascends numbers.now → result.held ≡ held_count numbers.now spans.now vid }
    ensures returned { Ascends numbers.now → result.returned ≡ returned_count numbers.now spans.now vid }
{
    let reserved = spans.count();
    let held = count_held(vid, spans, numbers);
    let returned = count_returned(vid, spans, numbers);
    Counts {
        free: free_of(reserved, held, returned),
        reserved: reserved as usize,
        held,
        returned,
    }
}

fn push_counts(alloc: Global, text: &mut String, vid: Vid, counts: &Counts) -> Result<(), NoMemory>
    ensures { OnOk result (string_bytes text.new ≡ string_bytes text.old ++ census_text vid counts.now.free counts.now.reserved counts.now.held counts.now.returned) }
{
    push_vendor(alloc, text, vid)?;
    push_count(alloc, text, "free", counts.free)?;
    push_count(alloc, text, "reserved", counts.reserved)?;
    push_count(alloc, text, "held", counts.held)?;
    push_count(alloc, text, "returned", counts.returned)?;
    push_row(text, "total", "65535")
}

fn push_census(
    alloc: Global,
    text: &mut String,
    numbers: &[(Number, Entry)],
    pair: &(Vid, Spans),
) -> Result<(), NoMemory>
    ensures { OnOk result (Ascends numbers.now → string_bytes text.new ≡ string_bytes text.old ++ census_of numbers.now pair.now) }
{
    let counts = counts_of(numbers, pair.0, &pair.1);
    push_counts(alloc, text, pair.0, &counts)
}

/// Returns six lines for each vendor: its ID, the counts of its free, reserved (with the fixed
/// ones), held and returned numbers, and the total. The counts are right if the numbers ascend, as
/// in the lists of a registry.
pub fn census(
    alloc: Global,
    vendors: &[(Vid, Spans)],
    numbers: &[(Number, Entry)],
) -> Result<String, NoMemory>
    ensures { IfOk result (λ text. Ascends numbers.now → string_bytes text ≡ census_lines numbers.now vendors.now) }
{
    let mut text = String::new(alloc);
    for pair in vendors {
        push_census(alloc, &mut text, numbers, pair)?;
    }
    Ok(text)
}
