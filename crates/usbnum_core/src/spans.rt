//! Sets of product IDs, kept as spans.

ghost use Rattle.std.specs.Prelude.{◌≡◌, ◌↔◌, ◌≤◌, ℕ, [], ◌||◌, ◌&&◌, not, true, false, nat_eq, IsTrue, OnOk, OnErr, MatchOption};
ghost use Rattle.std.specs.List.Sorted.{IsStrictlyIncreasing};
ghost use Rattle.std.specs.Cmp.Lexicographic.{pointwise};
ghost use Rattle.std.specs.Cmp.Rules.{comparing};
ghost use Rattle.std.specs.Ordering.{on, eq_of_both};
ghost use Rattle.std.proofs.Common.{rules};
ghost use Rattle.usbnum_core.specs.Spans.{span_has, span_touches, spans_have, IsSpread, count_to, is_in_either, IsLeastOutside};

use crate::parts::{
    begins_by_end, ended_before, first_free, is_within, join, reach, replace, rest_after,
    rest_before, splice,
};
use crate::{NoMemory, Pid, Span};
use std::alloc::{AllocError, Global};
use std::marker::Model;

/// A set of product IDs, kept as its maximal spans.
///
/// A contract sees these spans as a list, in which `spans_have` looks for a number. Two sets of the
/// same numbers are equal. A set keeps its allocator.
///
/// # Examples
///
/// Here `rt` is the runtime that `main` gets.
///
/// ```
/// let first = Pid::new(0x2000).ok_or("no number")?;
/// let last = Pid::new(0x20ff).ok_or("no number")?;
/// let mut set = Spans::new(rt.alloc());
/// set.add(Span::new(first, last).ok_or("no span")?)?;
/// assert_eq!(rt; set.count(), 256);
/// set.cut(Span::new(last, last).ok_or("no span")?)?;
/// assert!(rt; set.contains(first) && !set.contains(last));
/// assert_eq!(rt; set.least_outside(&[]), Pid::new(1));
/// ```
#[derive(Debug, Drop)]
pub struct Spans {
    parts: Vec<Span>,
}

impl Model for Spans {
    ghost use Rattle.std.specs.Prelude.{List};
    ghost use Rattle.usbnum_core.specs.declared.number.Span.{Span};

    ghost Value = { List Span };

    ghost use Rattle.usbnum_core.specs.Spans.{IsSpread};

    ghost view = { λ a. a.parts.items };

    ghost invariant = { λ a. IsSpread 1 a.parts.items };
}

impl Spans {
    /// Makes an empty set. It needs no memory yet.
    pub fn new(alloc: Global) -> Spans
        ensures { result ≡ [] }
    {
        Spans {
            parts: Vec::new(alloc),
        }
    }

    /// Returns the maximal spans, ascending.
    pub fn parts(&self) -> &[Span]
        ensures parts { result.now ≡ self.now }
        ensures spread { IsSpread 1 result.now }
    {
        &self.parts
    }

    /// Returns whether the number is in the set.
    pub fn contains(&self, number: Pid) -> bool
        ensures { result ≡ spans_have self.now number }
    {
        self.meets(Span::between(number, number))
    }

    /// Returns whether all numbers of the span are in the set.
    pub fn covers(&self, span: Span) -> bool
        ensures { IsTrue result ↔ ((n : ℕ) → IsTrue (span_has span n) → IsTrue (spans_have self.now n)) }
    {
        let low = ended_before(&self.parts, u32::from(span.first().get()));
        low < self.parts.len() && is_within(span, self.parts[low])
    }

    /// Returns whether any number of the span is in the set.
    pub fn meets(&self, span: Span) -> bool
        ensures { IsTrue result ↔ ((n : ℕ) × IsTrue (span_has span n) × IsTrue (spans_have self.now n)) }
    {
        let low = ended_before(&self.parts, u32::from(span.first().get()));
        low < self.parts.len() && begins_by_end(self.parts[low], span)
    }

    /// Returns the count of numbers in the set.
    pub fn count(&self) -> u32
        ensures { result ≡ count_to (spans_have self.now) 65535 }
    {
        let mut total = 0;
        for part in &self.parts {
            total += u32::from(part.last().get() - part.first().get()) + 1;
        }
        total
    }

    /// Returns the least product ID that is neither in the set nor in the list, or None if there is
    /// none left. The list must ascend strictly.
    pub fn least_outside(&self, numbers: &[Pid]) -> Option<Pid>
        requires { IsStrictlyIncreasing numbers.now }
        ensures { MatchOption result ((n : ℕ) → 1 ≤ n → n ≤ 65535 → is_in_either self.now numbers.now n ≡ true) (λ least. IsLeastOutside self.now numbers.now least) }
    {
        Pid::new(u16::try_from(first_free(&self.parts, numbers)).ok()?)
    }

    /// Adds the numbers of the span. Needs memory only if no number of the span or next to it is in
    /// the set. After `NoMemory` the set is unchanged.
    pub fn add(&mut self, span: Span) -> Result<(), NoMemory>
        ensures union { OnOk result ((n : ℕ) → spans_have self.new n ≡ (spans_have self.old n || span_has span n)) }
        ensures spread { IsSpread 1 self.new }
        ensures unchanged { OnErr result (self.new ≡ self.old) }
        ensures lone { OnErr result ((n : ℕ) → IsTrue (span_touches span n) → spans_have self.old n ≡ false) }
    {
        let start = u32::from(span.first().get()) - 1;
        let end = u32::from(span.last().get()) + 1;
        let (low, high) = reach(&self.parts, start, end);
        if low < high {
            let joined = join(self.parts[low], self.parts[high - 1], span);
            replace(&mut self.parts, low, high, joined);
        } else {
            self.parts.insert(low, span)?;
        }
        Ok(())
    }

    /// Removes the numbers of the span. Needs memory only if all numbers of the span and next to it
    /// are in the set, so that a maximal span splits in two. After `NoMemory` the set is unchanged.
    pub fn cut(&mut self, span: Span) -> Result<(), NoMemory>
        ensures difference { OnOk result ((n : ℕ) → spans_have self.new n ≡ (spans_have self.old n && not (span_has span n))) }
        ensures spread { IsSpread 1 self.new }
        ensures unchanged { OnErr result (self.new ≡ self.old) }
        ensures inner { OnErr result ((n : ℕ) → IsTrue (span_touches span n) → spans_have self.old n ≡ true) }
    {
        let start = u32::from(span.first().get());
        let end = u32::from(span.last().get());
        let (low, high) = reach(&self.parts, start, end);
        if low < high {
            let left = rest_before(self.parts[low], span);
            let right = rest_after(self.parts[high - 1], span);
            splice(&mut self.parts, low, high, left, right)?;
        }
        Ok(())
    }
}

impl Clone for Spans {
    ghost is_clone = { λ value copy. copy ≡ value };

    fn clone(&self) -> Result<Spans, AllocError> {
        Ok(Spans {
            parts: self.parts.clone()?,
        })
    }
}

impl PartialEq for Spans {
    ghost eq = { pointwise (eq_of_both (on (λ part. part.first) nat_eq) (on (λ part. part.last) nat_eq)) };

    ghost laws = { Prim.search (comparing, rules) };

    /// Returns whether the two sets have the same numbers.
    fn eq(&self, other: &Spans) -> bool
        ensures value { result ≡ pointwise (eq_of_both (on (λ part. part.first) nat_eq) (on (λ part. part.last) nat_eq)) self.now other.now }
        ensures same_numbers { IsTrue result ↔ ((n : ℕ) → spans_have self.now n ≡ spans_have other.now n) }
    {
        self.parts == other.parts
    }
}

impl Eq for Spans {
    ghost laws = { Prim.search (comparing, rules) };
}
