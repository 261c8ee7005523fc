//! Sets of numbers, beside a flag for each number.

use crate::numbers::{pid_of, span_of};
use row_texts::{RowFault, number_of, text_of};
use std::alloc::Global;
use std::fmt::Write;
use usbnum_core::{NoMemory, Pid, Span, Spans};

fn a_span(text: &str) -> Result<Span, RowFault> {
    span_of(text)?.ok_or(RowFault::BadRow)
}

fn changed(set: &mut Spans, span: Span, adds: bool) -> Result<(), NoMemory> {
    if adds { set.add(span) } else { set.cut(span) }
}

// One call may fail, as one allocation is refused.
fn copy(set: &Spans) -> Result<Spans, NoMemory> {
    match set.clone() {
        Ok(copy) => Ok(copy),
        Err(_) => Ok(set.clone()?),
    }
}

// Adds or cuts a span. A call that runs out of memory must leave the set as it was, and the next
// one changes it.
fn change(set: &mut Spans, text: &str, adds: bool) -> Result<(), RowFault> {
    let before = copy(set)?;
    if changed(set, a_span(text)?, adds).is_ok() {
        return Ok(());
    }
    if *set == before {
        Ok(changed(set, a_span(text)?, adds)?)
    } else {
        Err(RowFault::Wrong)
    }
}

fn act(set: &mut Spans, others: &mut Vec<Pid>, word: &str) -> Result<(), RowFault> {
    if let Some(text) = word.strip_prefix('+') {
        return change(set, text, true);
    }
    if let Some(text) = word.strip_prefix('-') {
        return change(set, text, false);
    }
    Ok(others.push(pid_of(word)?)?)
}

fn is_cloned(set: &Spans) -> Result<bool, NoMemory> {
    Ok(set.clone()? == *set)
}

// The least number outside the set that is none of the others, which are none or two that ascend.
fn least(set: &Spans, others: &[Pid]) -> Result<Option<Pid>, RowFault> {
    match others {
        [] => Ok(set.least_outside(&[])),
        [first, second] if first.get() < second.get() => Ok(set.least_outside(&[*first, *second])),
        _ => Err(RowFault::BadRow),
    }
}

fn set_text(alloc: Global, set: &Spans, others: &[Pid]) -> Result<Vec<u8>, RowFault> {
    let same = is_cloned(set)?;
    let count = set.count();
    let least = least(set, others)?.map(|pid| pid.get());
    let mut text = format!(in alloc; "{same} {count} {least:?}")?;
    for part in set.parts() {
        write!(&mut text, " {part}")?;
    }
    Ok(text.into_bytes())
}

/// Adds the spans after `+` and cuts those after `-`, each of two numbers with a bar between them.
/// Shows whether the copy of the set is the same, the count of its numbers, the least number that
/// is outside it and not among the other words, and the spans.
pub(crate) fn set(alloc: Global, text: &str) -> Result<Vec<u8>, RowFault> {
    let mut set = Spans::new(alloc);
    let mut others = Vec::new(alloc);
    for word in text.split(' ') {
        act(&mut set, &mut others, word)?;
    }
    set_text(alloc, &set, &others)
}

// A pseudo-random generator: Knuth's multiplier and increment, modulo 2^64.
#[derive(Drop)]
struct MadeUp {
    state: u64,
}

impl MadeUp {
    fn next(&mut self) -> u16 {
        self.state = self
            .state
            .wrapping_mul(6_364_136_223_846_793_005)
            .wrapping_add(1_442_695_040_888_963_407);
        (self.state >> 48) as u16
    }

    // The ends of a span of at most 16, at most 256 or any number of product IDs.
    fn ends(&mut self) -> (u16, u16) {
        let first = self.next().max(1);
        let mask = match self.next() % 8 {
            0 => u16::MAX,
            1..=3 => 255,
            _ => 15,
        };
        let more = self.next() & mask;
        (first, first.saturating_add(more))
    }
}

fn span_between(ends: (u16, u16)) -> Result<Span, RowFault> {
    let (first, last) = ends;
    let first = Pid::new(first).ok_or(RowFault::BadRow)?;
    let last = Pid::new(last).ok_or(RowFault::BadRow)?;
    Span::new(first, last).ok_or(RowFault::BadRow)
}

// Compares the results for a span, and the least number outside, with the flags.
fn agrees(set: &Spans, flags: &[bool], ends: (u16, u16)) -> Result<bool, RowFault> {
    let Some(inside) = flags.get(ends.0 as usize..=ends.1 as usize) else {
        return Err(RowFault::BadRow);
    };
    let all = inside.iter().all(|flag| *flag);
    let any = inside.iter().any(|flag| *flag);
    let least = flags.iter().skip(1).position(|flag| !*flag);
    let outside = set.least_outside(&[]).map(|pid| pid.get() as usize - 1);
    Ok(
        set.covers(span_between(ends)?) == all
            && set.meets(span_between(ends)?) == any
            && outside == least,
    )
}

// Compares each number with its flag.
fn has_each(set: &Spans, flags: &[bool]) -> bool {
    let mut number = 0u16;
    for flag in flags.iter().take(65_536) {
        if Pid::new(number).is_some_and(|pid| set.contains(pid)) != *flag {
            return false;
        }
        number = number.wrapping_add(1);
    }
    true
}

// Compares each number, their count and the count of the spans.
fn agrees_wholly(set: &Spans, flags: &[bool]) -> bool {
    let count = flags.iter().filter(|flag| **flag).count();
    let after = flags.iter().skip(1);
    let runs = flags
        .iter()
        .zip(after)
        .filter(|(before, here)| !**before && **here)
        .count();
    has_each(set, flags) && set.count() as usize == count && set.parts().len() == runs
}

fn flag_all(flags: &mut [bool], ends: (u16, u16), adds: bool) {
    if let Some(inside) = flags.get_mut(ends.0 as usize..=ends.1 as usize) {
        for flag in inside {
            *flag = adds;
        }
    }
}

// One more change, and whether the set and the flags agree after it.
fn agrees_after(
    set: &mut Spans,
    flags: &mut [bool],
    made_up: &mut MadeUp,
) -> Result<bool, RowFault> {
    let ends = made_up.ends();
    let adds = made_up.next() % 2 == 0;
    changed(set, span_between(ends)?, adds)?;
    flag_all(flags, ends, adds);
    agrees(set, flags, made_up.ends())
}

// Whether the set and the flags agree after each of so many changes.
fn agrees_always(set: &mut Spans, flags: &mut [bool], rounds: u32) -> Result<bool, RowFault> {
    let mut made_up = MadeUp { state: 1_209 };
    for round in 0..rounds {
        if !agrees_after(set, flags, &mut made_up)? {
            return Ok(false);
        }
        if round % 250 == 0 && !agrees_wholly(set, flags) {
            return Ok(false);
        }
    }
    Ok(true)
}

/// Shows whether a set agrees with a flag for each number, after each of so many random changes.
pub(crate) fn flags(alloc: Global, text: &str) -> Result<Vec<u8>, RowFault> {
    let rounds = number_of(text)?;
    let mut flags = vec![in alloc; false; 65_536]?;
    let mut set = Spans::new(alloc);
    if agrees_always(&mut set, &mut flags, rounds)? {
        text_of(alloc, "agrees")
    } else {
        Err(RowFault::Wrong)
    }
}
