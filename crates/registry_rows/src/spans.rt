//! The numbers that orders reserved, as spans.

ghost use Rattle.std.specs.Prelude.{◌≡◌, ◌≢◌, [], ◌∷◌, ◌++◌, map, filter, IfOk};
ghost use Rattle.sqlite_keyed.specs.Lists.{delete_where, sort_by};
ghost use Rattle.registry_rows.specs.Rows.{IsVendorSpan, whole, span_row, begins_at, meets, by_beginning};
ghost use Rattle.registry_rows.specs.Columns.{HasColumns};
ghost use Rattle.registry_rows.specs.Steps.{Changes, Decodes, ReadsWithin, ReadsRows, WritesWithin};
ghost use Rattle.registry_rows.specs.Tables.{Holds};

use crate::columns::{span_at, vid_at};
use crate::decode::{FromRow, all_from};
use registry_schema::TableFault;
use sqlite::{Alter, Row, Transaction, params};
use std::alloc::Global;
use usbnum_core::{Span, Vid};

fn span_from(row: &Row) -> Result<Span, TableFault>
    ensures decodes { (s : _) → IsVendorSpan s → row.now ≡ span_row s → Decodes result s.1 }
    ensures shown { IfOk result (λ span. HasColumns row.now 1 (whole span.first ∷ whole span.last ∷ [])) }
    ensures fault { result ≢ Err TableFault.Store }
{
    span_at(row, 1)
}

impl FromRow for (Vid, Span) {
    ghost use Rattle.registry_rows.specs.Rows.{IsVendorSpan, span_row};

    ghost is_valid = { IsVendorSpan };

    ghost columns = { span_row };

    fn from_row(_alloc: Global, row: &Row) -> Result<(Vid, Span), TableFault> {
        Ok((vid_at(row, 0)?, span_from(row)?))
    }
}

/// Inserts the span, or replaces the vendor's span with the same first number.
pub fn put_span<S: Alter>(
    tx: &mut Transaction<'_, S>,
    vid: Vid,
    span: Span,
) -> Result<(), TableFault>
    ensures writes { WritesWithin S.Store tx.old.conn tx.new.conn result (Changes (λ t. record t { spans = delete_where (λ other. begins_at vid span.first other) t.spans ++ (vid, span) ∷ [] })) }
{
    tx.execute(
        "INSERT OR REPLACE INTO spans3 (vid, lo, hi) VALUES (?1, ?2, ?3)",
        params![
            u32::from(vid.get()),
            u32::from(span.first().get()),
            u32::from(span.last().get())
        ],
    )?;
    Ok(())
}

/// Deletes the vendor's spans that have any of the numbers from the low to the high one.
pub fn cut_spans<S: Alter>(
    tx: &mut Transaction<'_, S>,
    vid: Vid,
    low: u32,
    high: u32,
) -> Result<(), TableFault>
    ensures writes { WritesWithin S.Store tx.old.conn tx.new.conn result (Changes (λ t. record t { spans = delete_where (meets vid low high) t.spans })) }
{
    tx.execute(
        "DELETE FROM spans3 WHERE vid = ?1 AND hi >= ?2 AND lo <= ?3",
        params![u32::from(vid.get()), low, high],
    )?;
    Ok(())
}

fn meeting_rows<S: Alter>(
    tx: &mut Transaction<'_, S>,
    vid: Vid,
    low: u32,
    high: u32,
) -> Result<Vec<Row>, TableFault>
    ensures reads { ReadsRows S.Store tx.old.conn tx.new.conn result Holds (λ t. map span_row (sort_by by_beginning (filter (meets vid low high) t.spans))) }
{
    Ok(tx.query_all(
        "SELECT vid, lo, hi FROM spans3 WHERE vid = ?1 AND hi >= ?2 AND lo <= ?3 ORDER BY vid, lo, rowid",
        params![u32::from(vid.get()), low, high],
    )?)
}

/// Returns the vendor's spans that have any of the numbers from the low to the high one, ascending.
pub fn find_spans<S: Alter>(
    alloc: Global,
    tx: &mut Transaction<'_, S>,
    vid: Vid,
    low: u32,
    high: u32,
) -> Result<Vec<(Vid, Span)>, TableFault>
    ensures reads { ReadsWithin S.Store tx.old.conn tx.new.conn result Holds (λ t all. all.items ≡ sort_by by_beginning (filter (meets vid low high) t.spans)) }
{
    let rows = meeting_rows(tx, vid, low, high)?;
    all_from(alloc, &rows)
}

fn all_rows<S: Alter>(tx: &mut Transaction<'_, S>) -> Result<Vec<Row>, TableFault>
    ensures reads { ReadsRows S.Store tx.old.conn tx.new.conn result Holds (λ t. map span_row (sort_by by_beginning t.spans)) }
{
    Ok(tx.query_all(
        "SELECT vid, lo, hi FROM spans3 ORDER BY vid, lo, rowid",
        &[],
    )?)
}

/// Returns all spans, in order of vendor and then first number. Those of a history are maximal.
pub fn list_spans<S: Alter>(
    alloc: Global,
    tx: &mut Transaction<'_, S>,
) -> Result<Vec<(Vid, Span)>, TableFault>
    ensures reads { ReadsWithin S.Store tx.old.conn tx.new.conn result Holds (λ t all. all.items ≡ sort_by by_beginning t.spans) }
{
    let rows = all_rows(tx)?;
    all_from(alloc, &rows)
}
