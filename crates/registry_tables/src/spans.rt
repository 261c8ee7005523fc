//! The numbers that orders reserved, stored as maximal spans.

ghost use Rattle.std.specs.Prelude.{◌≡◌, ◌≢◌, ◌+◌, ◌≤◌, MatchOption, Err, filter};
ghost use Rattle.sqlite_keyed.specs.Lists.{sort_by};
ghost use Rattle.registry_schema.specs.Steps.{WritesTables};
ghost use Rattle.registry_rows.specs.Rows.{meets, by_beginning};
ghost use Rattle.registry_rows.specs.Steps.{ReadsWithin};
ghost use Rattle.registry_rows.specs.Tables.{Holds};
ghost use Rattle.registry_tables.specs.Calls.{WritesTablesOpen};
ghost use Rattle.registry_tables.specs.Changed.{Makes};
ghost use Rattle.registry_tables.specs.Reserved.{Reaches, PutsPart};

use crate::TableFault;
use registry_rows::{cut_spans, find_spans, put_span};
use registry_rules::Change;
use sqlite::{Alter, Transaction};
use std::alloc::Global;
use usbnum_core::{Pid, Span, Vid};

// Returns the vendor's spans that have any of the numbers from the low to the high one. Rows that
// are not spans are a fault of the store: they were sound when it was opened.
fn spans_meeting<S: Alter>(
    alloc: Global,
    tx: &mut Transaction<'_, S>,
    vid: Vid,
    low: u32,
    high: u32,
) -> Result<Vec<(Vid, Span)>, TableFault>
    ensures reads { ReadsWithin S.Store tx.old.conn tx.new.conn result Holds (λ t found. found.items ≡ sort_by by_beginning (filter (meets vid low high) t.spans)) }
    ensures kind { result ≢ Err TableFault.Foreign }
{
    match find_spans(alloc, tx, vid, low, high) {
        Ok(found) => Ok(found),
        Err(TableFault::NoMemory) => Err(TableFault::NoMemory),
        Err(_) => Err(TableFault::Store),
    }
}

// Returns the least and the greatest number of the span and of the spans found.
fn reach(found: &[(Vid, Span)], span: &Span) -> (Pid, Pid)
    ensures { Reaches span.now found.now result.0 result.1 }
{
    let mut least = span.first();
    let mut greatest = span.last();
    for (_, other) in found {
        least = least.min(other.first());
        greatest = greatest.max(other.last());
    }
    (least, greatest)
}

// Returns the numbers from the least one on that are before the first, if any.
fn before(least: Pid, first: Pid) -> Option<Span>
    ensures { MatchOption result (first ≤ least) (λ part. (part.first ≡ least) × (part.last + 1 ≡ first)) }
{
    let end = Pid::new(first.get() - 1)?;
    Span::new(least, end)
}

// Returns the numbers after the last one, up to the greatest, if any.
fn after(last: Pid, greatest: Pid) -> Option<Span>
    ensures { MatchOption result (greatest ≤ last) (λ part. (part.first ≡ last + 1) × (part.last ≡ greatest)) }
{
    let start = Pid::new(last.get().checked_add(1)?)?;
    Span::new(start, greatest)
}

// Inserts the part, if any, which is apart from all spans.
fn put_part<S: Alter>(
    tx: &mut Transaction<'_, S>,
    vid: Vid,
    part: Option<Span>,
) -> Result<(), TableFault>
    ensures writes { WritesTablesOpen S.Store tx.old.conn tx.new.conn result (PutsPart vid part) }
{
    match part {
        Some(span) => put_span(tx, vid, span),
        None => Ok(()),
    }
}

/// Reserves the numbers of the span: merges it with the vendor's spans that overlap or touch it.
pub(crate) fn reserve_span<S: Alter>(
    alloc: Global,
    tx: &mut Transaction<'_, S>,
    vid: Vid,
    span: &Span,
) -> Result<(), TableFault>
    ensures writes { WritesTables S.Store tx.old.conn tx.new.conn result (Makes (Change.ReserveSpan vid span.now)) }
{
    let low = u32::from(span.first().get()) - 1;
    let high = u32::from(span.last().get()) + 1;
    let found = spans_meeting(alloc, tx, vid, low, high)?;
    let (least, greatest) = reach(&found, span);
    cut_spans(tx, vid, low, high)?;
    put_part(tx, vid, Span::new(least, greatest))
}

/// Releases the numbers of the span: cuts it out of the vendor's spans that overlap it.
pub(crate) fn release_span<S: Alter>(
    alloc: Global,
    tx: &mut Transaction<'_, S>,
    vid: Vid,
    span: &Span,
) -> Result<(), TableFault>
    ensures writes { WritesTables S.Store tx.old.conn tx.new.conn result (Makes (Change.ReleaseSpan vid span.now)) }
{
    let low = u32::from(span.first().get());
    let high = u32::from(span.last().get());
    let found = spans_meeting(alloc, tx, vid, low, high)?;
    let (least, greatest) = reach(&found, span);
    cut_spans(tx, vid, low, high)?;
    put_part(tx, vid, before(least, span.first()))?;
    put_part(tx, vid, after(span.last(), greatest))
}
