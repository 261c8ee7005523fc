//! Queries on a list of maximal spans, and edits inside it.

ghost use Rattle.std.specs.Prelude.{◌≡◌, ◌↔◌, ◌+◌, ◌<◌, ◌≤◌, ◌∷◌, ◌++◌, length, take, drop, IsTrue, IsSome, OnOk, OnErr};
ghost use Rattle.std.specs.List.{AllWithin};
ghost use Rattle.std.specs.List.Sorted.{IsStrictlyIncreasing};
ghost use Rattle.usbnum_core.specs.Spans.{IsSpread};
ghost use Rattle.usbnum_core.specs.Parts.{IsReach, IsJoined, IsRestBefore, IsRestAfter, spliced, IsFirstFree};

use crate::{NoMemory, Pid, Span};

/// Returns how many of the parts end before the number.
pub fn ended_before(parts: &[Span], number: u32) -> usize
    requires { IsSpread 1 parts.now }
    ensures within { result ≤ length parts.now }
    ensures before { AllWithin (λ part. part.last < number) parts.now 0 result }
    ensures after { AllWithin (λ part. number ≤ part.last) parts.now result (length parts.now) }
{
    parts.partition_point(|part| u32::from(part.last().get()) < number)
}

// Returns how many of the parts begin at or before the number.
fn begun_by(parts: &[Span], number: u32) -> usize
    requires { IsSpread 1 parts.now }
    ensures within { result ≤ length parts.now }
    ensures before { AllWithin (λ part. part.first ≤ number) parts.now 0 result }
    ensures after { AllWithin (λ part. number < part.first) parts.now result (length parts.now) }
{
    parts.partition_point(|part| u32::from(part.first().get()) <= number)
}

/// Returns the range of the parts that end at `start` or later and begin at `end` or earlier: the
/// index of the first, and the index after the last.
pub fn reach(parts: &[Span], start: u32, end: u32) -> (usize, usize)
    requires { IsSpread 1 parts.now }
    ensures { IsReach parts.now start end result.0 result.1 }
{
    (ended_before(parts, start), begun_by(parts, end))
}

/// Returns the span from the least start to the greatest end.
pub fn join(low: Span, high: Span, span: Span) -> Span
    ensures { IsJoined low high span result }
{
    let first = low.first().min(span.first());
    let last = high.last().max(span.last());
    Span::between(first, last)
}

/// Replaces the spans from `low` on and before `high` by one span.
pub fn replace(parts: &mut Vec<Span>, low: usize, high: usize, span: Span)
    requires some { low < high }
    requires within { high ≤ length parts.old.items }
    ensures { parts.new.items ≡ take low parts.old.items ++ span ∷ drop high parts.old.items }
{
    parts[low] = span;
    parts.drain(low + 1..high);
}

// Replaces them by two spans. The list grows, and needs memory, only if they replace one span.
fn replace_by_two(
    parts: &mut Vec<Span>,
    low: usize,
    high: usize,
    left: Span,
    right: Span,
) -> Result<(), NoMemory>
    requires some { low < high }
    requires within { high ≤ length parts.old.items }
    ensures ok { OnOk result (parts.new.items ≡ take low parts.old.items ++ left ∷ right ∷ drop high parts.old.items) }
    ensures unchanged { OnErr result (parts.new.items ≡ parts.old.items) }
    ensures grows { OnErr result (low + 1 ≡ high) }
{
    if low + 1 == high {
        parts.insert(high, right)?;
        parts[low] = left;
    } else {
        replace(parts, low, high - 1, left);
        parts[low + 1] = right;
    }
    Ok(())
}

/// Replaces the spans from `low` on and before `high` by at most two spans.
pub fn splice(
    parts: &mut Vec<Span>,
    low: usize,
    high: usize,
    left: Option<Span>,
    right: Option<Span>,
) -> Result<(), NoMemory>
    requires some { low < high }
    requires within { high ≤ length parts.old.items }
    ensures ok { OnOk result (parts.new.items ≡ spliced parts.old.items low high left right) }
    ensures unchanged { OnErr result (parts.new.items ≡ parts.old.items) }
    ensures grows { OnErr result ((low + 1 ≡ high) × IsSome left × IsSome right) }
{
    match (left, right) {
        (Some(left), Some(right)) => replace_by_two(parts, low, high, left, right)?,
        (Some(span), None) | (None, Some(span)) => replace(parts, low, high, span),
        (None, None) => {
            parts.drain(low..high);
        }
    }
    Ok(())
}

/// Returns the rest of the part before the span.
pub fn rest_before(part: Span, span: Span) -> Option<Span>
    ensures { IsRestBefore part span result }
{
    if part.first() < span.first() {
        Some(Span::between(part.first(), span.first().before()))
    } else {
        None
    }
}

/// Returns the rest of the part after the span.
pub fn rest_after(part: Span, span: Span) -> Option<Span>
    ensures { IsRestAfter part span result }
{
    if span.last() < part.last() {
        Some(Span::between(span.last().after(), part.last()))
    } else {
        None
    }
}

/// Returns whether the whole span is inside the part.
pub fn is_within(span: Span, part: Span) -> bool
    ensures { IsTrue result ↔ ((part.first ≤ span.first) × (span.last ≤ part.last)) }
{
    part.first() <= span.first() && span.last() <= part.last()
}

/// Returns whether the part begins at the end of the span or earlier.
pub fn begins_by_end(part: Span, span: Span) -> bool
    ensures { IsTrue result ↔ (part.first ≤ span.last) }
{
    part.first() <= span.last()
}

/// Returns the least number from 1 on that is in no part and not in the list. Both ascend, so one
/// pass over each is enough.
pub fn first_free(parts: &[Span], numbers: &[Pid]) -> u32
    requires spread { IsSpread 1 parts.now }
    requires ascends { IsStrictlyIncreasing numbers.now }
    ensures { IsFirstFree parts.now numbers.now result }
{
    let mut free: u32 = 1;
    let mut part = 0;
    let mut place = 0;
    loop {
        if part < parts.len() && u32::from(parts[part].first().get()) <= free {
            free = free.max(u32::from(parts[part].last().get()) + 1);
            part += 1;
        } else if place < numbers.len() && u32::from(numbers[place].get()) <= free {
            free = free.max(u32::from(numbers[place].get()) + 1);
            place += 1;
        } else {
            return free;
        }
    }
}
