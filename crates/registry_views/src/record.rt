//! A page of the record of a registry.

ghost use Rattle.std.specs.Prelude.{◌≡◌, ◌+◌, ◌<◌, ◌≤◌, ◌⊎◌, ◌++◌, ◌∷◌, [], true, false, ℕ, List, length, IfOk, MatchOption, string_bytes};
ghost use Rattle.std.specs.Bool.{MatchBool};
ghost use Rattle.registry_rules.specs.Accepted.{AreValid};
ghost use Rattle.registry_reports.specs.Pages.{HasLines, MayFollow};
ghost use Rattle.registry_wire.specs.Record.{accepted_line};
ghost use Rattle.registry_store.specs.Queries.{IsQuery};
ghost use Rattle.registry_views.specs.Records.{AreNext, IsBegun, IsPageText, IsRecordPage, lines_after};

use registry_reports::Page;
use registry_rules::Accepted;
use registry_store::{Fault, Registry};
use registry_wire::accepted_line;
use sqlite::Alter;
use std::alloc::Global;
use usbnum_core::NoMemory;

/// Appends the line of an accepted request to a page, and returns whether it did.
fn put_line(alloc: Global, page: &mut Page, accepted: &Accepted) -> Result<bool, NoMemory>
    ensures { IfOk result (λ pushed. (lines : List (List ℕ)) → HasLines page.old lines →
        MatchBool pushed (HasLines page.new (lines ++ accepted_line accepted.now ∷ []) × MayFollow lines (accepted_line accepted.now)) (HasLines page.new lines × ¬ MayFollow lines (accepted_line accepted.now))) }
{
    let line = accepted_line(alloc, accepted)?;
    page.push(line.as_str())
}

/// Appends the lines of accepted requests to a page until one does not fit. Returns whether all
/// did.
fn put_lines(alloc: Global, page: &mut Page, accepted: &[Accepted]) -> Result<bool, NoMemory>
    ensures { IfOk result (λ all. (lines : List (List ℕ)) (most : ℕ) → IsBegun lines page.old → AreNext most lines page.old accepted.now →
        MatchBool all (IsBegun lines page.new × (page.new.count ≡ page.old.count + length accepted.now)) (IsPageText lines (string_bytes page.new.text))) }
{
    for one in accepted {
        if !put_line(alloc, page, one)? {
            return Ok(false);
        }
    }
    Ok(true)
}

/// Returns the place after `most` requests, or None if there were fewer or not all of their lines
/// fit. A place that no number has is refused as out of memory.
fn next_place(all: bool, read: usize, most: u32, place: u64) -> Result<Option<u64>, NoMemory>
    ensures { IfOk result (λ next. MatchOption next ((all ≡ false) ⊎ (read < most)) (λ n. (all ≡ true) × (most ≤ read) × (n ≡ place + most))) }
{
    if !all || read < most as usize {
        return Ok(None);
    }
    match place.checked_add(u64::from(most)) {
        Some(next) => Ok(Some(next)),
        None => Err(NoMemory),
    }
}

/// Reads the next `most` accepted requests, after the first `place`, and appends their lines to a
/// page. Returns the place after them, or None if the page is complete.
fn read_more<S: Alter>(
    alloc: Global,
    registry: &mut Registry<S>,
    page: &mut Page,
    place: u64,
    most: u32,
) -> Result<Option<u64>, Fault>
    ensures { IsQuery registry.old registry.new result (λ h next. AreValid h.deeds → (after : ℕ) → place ≡ after + page.old.count → IsBegun (lines_after h after) page.old →
        MatchOption next (IsPageText (lines_after h after) (string_bytes page.new.text)) (λ n. IsBegun (lines_after h after) page.new × (page.new.count ≡ page.old.count + most) × (n ≡ place + most))) }
{
    let accepted = registry.accepted_after(place, most)?;
    let all = put_lines(alloc, page, accepted.as_slice())?;
    Ok(next_place(all, accepted.len(), most, place)?)
}

/// Returns the text of a page of the record: a line for each accepted request after the first
/// `after`, oldest first, as many as a page takes. Changes nothing.
///
/// An accepted import may be as long as a page or longer, and the request that no longer fits is
/// read too. So this is written to read as few requests at once as [`Page::wanted`] says, and none
/// once the page is full: beside what it returns it reads at most four. No clause counts them.
///
/// # Errors
///
/// `Fault::NoMemory` if memory runs out, also for the text itself; the other faults are those of
/// `Registry::accepted_after`.
pub fn record_page<S: Alter>(
    alloc: Global,
    registry: &mut Registry<S>,
    after: u64,
) -> Result<String, Fault>
    ensures { IsQuery registry.old registry.new result (λ h text. IsRecordPage h after (string_bytes text)) }
{
    let mut page = Page::new(alloc);
    let mut place = after;
    // Each time but the last adds a line, and a page has at most 1,000 of them.
    for _ in 0..1001usize {
        let most = page.wanted();
        if most == 0 {
            return Ok(page.into_text());
        }
        match read_more(alloc, registry, &mut page, place, most)? {
            Some(next) => place = next,
            None => return Ok(page.into_text()),
        }
    }
    Ok(page.into_text())
}
