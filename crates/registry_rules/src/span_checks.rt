//! The checks of orders on spans, and their acts if they pass.

ghost use Rattle.std.specs.Prelude.{◌≡◌, ◌≤◌, ◌↔◌, ◌+◌, ℕ, ◌&&◌, not, true, false, find, IsTrue, MatchOption};
ghost use Rattle.usbnum_core.specs.Spans.{span_has, spans_have};
ghost use Rattle.registry_rules.specs.Gives.{Gives};
ghost use Rattle.registry_rules.specs.Number.{numbers_in};
ghost use Rattle.registry_rules.specs.OnFacts.{span_meets_fixed, span_is_reserved, least_owned_in, outcome_on};
ghost use Rattle.registry_rules.specs.declared.order.Order.TheVariants as orders;

use crate::checks::{check_curator, check_vendor, number_name, span_name};
use crate::{Act, Facts, Founding, Refusal, Rejection, Release, Reserve};
use usbnum_core::{Number, Pid, Slug, Span, Spans, Vid};

// Whether a number of the span is fixed.
fn meets_fixed(founding: &Founding, vid: Vid, span: &Span) -> bool
    ensures { result ≡ span_meets_fixed founding.now vid span.now }
{
    vid == founding.vendor && founding.fixed.meets(*span)
}

// Whether each number of the span is reserved.
fn is_reserved(reserved: &Spans, span: &Span) -> bool
    ensures { result ≡ span_is_reserved reserved.now span.now }
{
    reserved.covers(*span)
}

// The numbers that the two spans share.
fn common(part: &Span, span: &Span) -> Option<Span>
    ensures { MatchOption result
        ((n : ℕ) → span_has part.now n ≡ true → span_has span.now n ≡ false)
        (λ both. (n : ℕ) → span_has both n ≡ (span_has part.now n && span_has span.now n)) }
{
    let first = if part.first() < span.first() {
        span.first()
    } else {
        part.first()
    };
    let last = if part.last() < span.last() {
        part.last()
    } else {
        span.last()
    };
    Span::new(first, last)
}

// The number after the part, if the span has it.
fn next_in(part: &Span, span: &Span) -> Option<Pid>
    requires { part.now.first ≤ span.now.last }
    ensures { MatchOption result (span.now.last ≤ part.now.last) (λ next. (next ≡ part.now.last + 1) × (next ≤ span.now.last)) }
{
    if part.last() < span.last() {
        Pid::new(part.last().get() + 1)
    } else {
        None
    }
}

// Whether the part has the whole span.
fn has_all(part: &Span, span: &Span) -> bool
    ensures { IsTrue result ↔ ((part.now.first ≤ span.now.first) × (span.now.last ≤ part.now.last)) }
{
    part.first() <= span.first() && span.last() <= part.last()
}

// Whether the part of the set at this place has the whole span.
fn has_at(set: &Spans, place: usize, span: &Span) -> bool
    ensures { IsTrue result → (n : ℕ) → IsTrue (span_has span.now n) → IsTrue (spans_have set.now n) }
{
    let parts = set.parts();
    place < parts.len() && has_all(&parts[place], span)
}

// The least number of the span that is outside the set. The sets of totals have many parts, so it
// tries the part at `place`, which may be any, and then searches for one that has the whole span.
fn least_outside(set: &Spans, place: usize, span: &Span) -> Option<Pid>
    ensures { result ≡ find (λ pid. not (spans_have set.now pid)) (numbers_in span.now) }
{
    if has_at(set, place, span) {
        return None;
    }
    if set.covers(*span) {
        return None;
    }
    for part in set.parts() {
        if part.first() <= span.first() && span.first() <= part.last() {
            return next_in(part, span);
        }
    }
    Some(span.first())
}

// The least product ID of the span whose number is owned. Up to it the parts of both sets are the
// same, so that each is tried at the place after the last one.
fn least_owned(taken: &Spans, reserved: &Spans, span: &Span) -> Option<Pid>
    ensures { result ≡ least_owned_in taken.now reserved.now span.now }
{
    let mut place = reserved
        .parts()
        .partition_point(|part| part.last() < span.first());
    for part in taken.parts() {
        if let Some(both) = common(part, span) {
            if let Some(pid) = least_outside(reserved, place, &both) {
                return Some(pid);
            }
            place = place.saturating_add(1);
        }
    }
    None
}

#[tactic(auto, unfolding(crate::specs::OnFacts::outcome_on))]
pub(crate) fn reserve(
    facts: &Facts<'_>,
    caller: &Slug,
    it: &Reserve,
) -> Result<Act, Rejection<Refusal>>
    ensures { Gives result (outcome_on facts.now caller.now (orders.Reserve it.now)) }
{
    let vid = facts.vendor;
    check_curator(facts.founding, caller)?;
    check_vendor(facts, vid)?;
    if meets_fixed(facts.founding, vid, &it.span) {
        return Err(Rejection::Refused(Refusal::RangeFixed));
    }
    let name = span_name(facts.founding, vid, &it.span);
    if let Some(pid) = least_owned(facts.taken, facts.reserved, &it.span) {
        let name = number_name(facts.founding, &Number { vid, pid });
        return Err(Rejection::Refused(Refusal::RangeOwned(name)));
    }
    Ok(Act::Reserved { name })
}

#[tactic(auto, unfolding(crate::specs::OnFacts::outcome_on))]
pub(crate) fn release(
    facts: &Facts<'_>,
    caller: &Slug,
    it: &Release,
) -> Result<Act, Rejection<Refusal>>
    ensures { Gives result (outcome_on facts.now caller.now (orders.Release it.now)) }
{
    let vid = facts.vendor;
    check_curator(facts.founding, caller)?;
    check_vendor(facts, vid)?;
    if meets_fixed(facts.founding, vid, &it.span) {
        return Err(Rejection::Refused(Refusal::RangeFixed));
    }
    if !is_reserved(facts.reserved, &it.span) {
        return Err(Rejection::Refused(Refusal::RangeNotReserved));
    }
    let name = span_name(facts.founding, vid, &it.span);
    Ok(Act::Released { name })
}
