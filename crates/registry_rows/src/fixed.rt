//! The fixed numbers of the founding vendor, which are reserved for good.

ghost use Rattle.std.specs.Prelude.{◌≡◌, map};
ghost use Rattle.sqlite_keyed.specs.Keyed.{insert_by};
ghost use Rattle.registry_rows.specs.Rows.{fixed_key, fixed_shown};
ghost use Rattle.registry_rows.specs.Steps.{Changes, ReadsWithin, ReadsRows, WritesWithin};
ghost use Rattle.registry_rows.specs.Tables.{Holds};

use crate::columns::span_at;
use crate::decode::{FromRow, all_from};
use registry_schema::TableFault;
use sqlite::{Alter, Row, Transaction, params};
use std::alloc::Global;
use usbnum_core::Span;

impl FromRow for Span {
    ghost use Rattle.registry_rows.specs.Rows.{IsSpan, fixed_shown};

    ghost is_valid = { IsSpan };

    ghost columns = { fixed_shown };

    fn from_row(_alloc: Global, row: &Row) -> Result<Span, TableFault> {
        span_at(row, 0)
    }
}

/// Inserts the span, or replaces the one with the same first number.
pub fn put_fixed<S: Alter>(tx: &mut Transaction<'_, S>, span: Span) -> Result<(), TableFault>
    ensures writes { WritesWithin S.Store tx.old.conn tx.new.conn result (Changes (λ t. record t { fixed = insert_by fixed_key t.fixed span })) }
{
    tx.execute(
        "INSERT OR REPLACE INTO fixed (lo, hi) VALUES (?1, ?2)",
        params![u32::from(span.first().get()), u32::from(span.last().get())],
    )?;
    Ok(())
}

fn all_rows<S: Alter>(tx: &mut Transaction<'_, S>) -> Result<Vec<Row>, TableFault>
    ensures reads { ReadsRows S.Store tx.old.conn tx.new.conn result Holds (λ t. map fixed_shown t.fixed) }
{
    Ok(tx.query_all("SELECT lo, hi FROM fixed ORDER BY lo", &[])?)
}

/// Returns all spans of fixed numbers, in the order of the table. Those of a history are maximal and
/// ascending.
pub fn list_fixed<S: Alter>(
    alloc: Global,
    tx: &mut Transaction<'_, S>,
) -> Result<Vec<Span>, TableFault>
    ensures reads { ReadsWithin S.Store tx.old.conn tx.new.conn result Holds (λ t all. all.items ≡ t.fixed) }
{
    let rows = all_rows(tx)?;
    all_from(alloc, &rows)
}
