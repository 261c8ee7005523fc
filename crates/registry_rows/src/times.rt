//! The times at which petitions were opened and closed.

ghost use Rattle.std.specs.Prelude.{◌≡◌, map, filter, find};
ghost use Rattle.sqlite_keyed.specs.Keyed.{insert_by};
ghost use Rattle.registry_rows.specs.Rows.{time_key, time_shown, is_time_of};
ghost use Rattle.registry_rows.specs.Steps.{Changes, ReadsWithin, ReadsRows, WritesWithin};
ghost use Rattle.registry_rows.specs.Tables.{Holds};

use crate::columns::{number_at, text_at};
use crate::decode::{FromRow, first_from};
use registry_schema::TableFault;
use sqlite::{Alter, Row, Transaction, params};
use std::alloc::Global;
use usbnum_core::Time;

impl FromRow for (u32, Time) {
    ghost use Rattle.registry_rows.specs.Rows.{IsTimeRow, time_shown};

    ghost is_valid = { IsTimeRow };

    ghost columns = { time_shown };

    fn from_row(alloc: Global, row: &Row) -> Result<(u32, Time), TableFault> {
        Ok((number_at(row, 0)?, text_at(alloc, row, 1)?))
    }
}

/// Inserts the time at which a petition was opened, if it has none.
pub fn put_opened<S: Alter>(
    tx: &mut Transaction<'_, S>,
    petition: u32,
    time: &Time,
) -> Result<(), TableFault>
    ensures writes { WritesWithin S.Store tx.old.conn tx.new.conn result (Changes (λ t. record t { opened = insert_by time_key t.opened (petition, time.now) })) }
{
    tx.execute(
        "INSERT INTO opened5 (petition, time) VALUES (?1, ?2)",
        params![petition, time.as_str()],
    )?;
    Ok(())
}

fn opened_rows<S: Alter>(tx: &mut Transaction<'_, S>, petition: u32) -> Result<Vec<Row>, TableFault>
    ensures reads { ReadsRows S.Store tx.old.conn tx.new.conn result Holds (λ t. map time_shown (filter (is_time_of petition) t.opened)) }
{
    Ok(tx.query_all(
        "SELECT petition, time FROM opened5 WHERE petition = ?1 ORDER BY petition",
        params![petition],
    )?)
}

/// Returns the time at which the petition was opened, with the petition's number, if it has one.
pub fn find_opened<S: Alter>(
    alloc: Global,
    tx: &mut Transaction<'_, S>,
    petition: u32,
) -> Result<Option<(u32, Time)>, TableFault>
    ensures reads { ReadsWithin S.Store tx.old.conn tx.new.conn result Holds (λ t found. found ≡ find (is_time_of petition) t.opened) }
{
    let rows = opened_rows(tx, petition)?;
    first_from(alloc, &rows)
}

/// Inserts the time at which a petition was granted, declined or withdrawn, if it has none.
pub fn put_closed<S: Alter>(
    tx: &mut Transaction<'_, S>,
    petition: u32,
    time: &Time,
) -> Result<(), TableFault>
    ensures writes { WritesWithin S.Store tx.old.conn tx.new.conn result (Changes (λ t. record t { closed = insert_by time_key t.closed (petition, time.now) })) }
{
    tx.execute(
        "INSERT INTO closed5 (petition, time) VALUES (?1, ?2)",
        params![petition, time.as_str()],
    )?;
    Ok(())
}

fn closed_rows<S: Alter>(tx: &mut Transaction<'_, S>, petition: u32) -> Result<Vec<Row>, TableFault>
    ensures reads { ReadsRows S.Store tx.old.conn tx.new.conn result Holds (λ t. map time_shown (filter (is_time_of petition) t.closed)) }
{
    Ok(tx.query_all(
        "SELECT petition, time FROM closed5 WHERE petition = ?1 ORDER BY petition",
        params![petition],
    )?)
}

/// Returns the time at which the petition was granted, declined or withdrawn, with the petition's number, if it has one.
pub fn find_closed<S: Alter>(
    alloc: Global,
    tx: &mut Transaction<'_, S>,
    petition: u32,
) -> Result<Option<(u32, Time)>, TableFault>
    ensures reads { ReadsWithin S.Store tx.old.conn tx.new.conn result Holds (λ t found. found ≡ find (is_time_of petition) t.closed) }
{
    let rows = closed_rows(tx, petition)?;
    first_from(alloc, &rows)
}
