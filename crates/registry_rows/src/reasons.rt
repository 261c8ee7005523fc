//! The reasons for which petitions were declined.

ghost use Rattle.std.specs.Prelude.{◌≡◌, map, filter, find};
ghost use Rattle.sqlite_keyed.specs.Keyed.{insert_by};
ghost use Rattle.registry_rows.specs.Rows.{reason_key, reason_shown, is_reason_of};
ghost use Rattle.registry_rows.specs.Steps.{Changes, ReadsWithin, ReadsRows, WritesWithin};
ghost use Rattle.registry_rows.specs.Tables.{Holds};

use crate::columns::{number_at, text_at};
use crate::decode::{FromRow, first_from};
use registry_schema::TableFault;
use sqlite::{Alter, Row, Transaction, params};
use std::alloc::Global;
use usbnum_core::Title;

impl FromRow for (u32, Title) {
    ghost use Rattle.registry_rows.specs.Rows.{IsReason, reason_shown};

    ghost is_valid = { IsReason };

    ghost columns = { reason_shown };

    fn from_row(alloc: Global, row: &Row) -> Result<(u32, Title), TableFault> {
        Ok((number_at(row, 0)?, text_at(alloc, row, 1)?))
    }
}

/// Inserts the reason of a petition, if it has none.
pub fn put_reason<S: Alter>(
    tx: &mut Transaction<'_, S>,
    petition: u32,
    reason: &Title,
) -> Result<(), TableFault>
    ensures writes { WritesWithin S.Store tx.old.conn tx.new.conn result (Changes (λ t. record t { reasons = insert_by reason_key t.reasons (petition, reason.now) })) }
{
    tx.execute(
        "INSERT INTO reasons4 (petition, reason) VALUES (?1, ?2)",
        params![petition, reason.as_str()],
    )?;
    Ok(())
}

fn reason_rows<S: Alter>(tx: &mut Transaction<'_, S>, petition: u32) -> Result<Vec<Row>, TableFault>
    ensures reads { ReadsRows S.Store tx.old.conn tx.new.conn result Holds (λ t. map reason_shown (filter (is_reason_of petition) t.reasons)) }
{
    Ok(tx.query_all(
        "SELECT petition, reason FROM reasons4 WHERE petition = ?1 ORDER BY petition",
        params![petition],
    )?)
}

/// Returns the reason of the petition, with the petition's number, if it has one.
pub fn find_reason<S: Alter>(
    alloc: Global,
    tx: &mut Transaction<'_, S>,
    petition: u32,
) -> Result<Option<(u32, Title)>, TableFault>
    ensures reads { ReadsWithin S.Store tx.old.conn tx.new.conn result Holds (λ t found. found ≡ find (is_reason_of petition) t.reasons) }
{
    let rows = reason_rows(tx, petition)?;
    first_from(alloc, &rows)
}
