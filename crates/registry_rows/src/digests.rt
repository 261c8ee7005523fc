//! The digests of the record, and the times of its requests.

ghost use Rattle.std.specs.Prelude.{◌≡◌, ◌≢◌, map, filter, find, take, reverse, IfOk, IfSome};
ghost use Rattle.std.specs.Option.{option_copied};
ghost use Rattle.usbnum_core.specs.Text.{IsTime};
ghost use Rattle.sqlite_keyed.specs.Keyed.{insert_by};
ghost use Rattle.registry_rows.specs.Rows.{IsDigestRow, digest_key, digest_columns, digest_shown, is_digest_after, is_digest_at};
ghost use Rattle.registry_rows.specs.Columns.{HasColumns};
ghost use Rattle.registry_rows.specs.Steps.{Changes, Decodes, ReadsWithin, ReadsRows, WritesWithin};
ghost use Rattle.registry_rows.specs.Tables.{Holds};

use crate::columns::{number_at, text_at, text_or_null_at};
use crate::decode::{FromRow, all_from, first_from};
use registry_schema::TableFault;
use sqlite::{Alter, Row, Transaction, params};
use std::alloc::Global;
use usbnum_core::{Digest, Time};

/// What is kept of a line of the record beside its request and its reply.
#[derive(Debug, Drop)]
pub struct DigestRow {
    /// The time of the request, if it has one. The founding has none.
    pub time: Option<Time>,
    /// The digest of the record up to this line.
    pub digest: Digest,
}

fn digest_from(alloc: Global, row: &Row) -> Result<DigestRow, TableFault>
    ensures decodes { (d : _) → IsDigestRow d → row.now ≡ digest_shown d → Decodes result d.1 }
    ensures shown { IfOk result (λ digest. HasColumns row.now 1 (digest_columns digest)) }
    ensures fault { result ≢ Err TableFault.Store }
{
    Ok(DigestRow {
        time: text_or_null_at(alloc, row, 1)?,
        digest: text_at(alloc, row, 2)?,
    })
}

impl FromRow for (u32, DigestRow) {
    ghost use Rattle.registry_rows.specs.Rows.{IsDigestRow, digest_shown};

    ghost is_valid = { IsDigestRow };

    ghost columns = { digest_shown };

    fn from_row(alloc: Global, row: &Row) -> Result<(u32, DigestRow), TableFault> {
        Ok((number_at(row, 0)?, digest_from(alloc, row)?))
    }
}

fn or_null(time: &Option<Time>) -> Option<&str>
    ensures value { option_copied result ≡ time.now }
    ensures valid { IfSome time.now IsTime }
{
    match time {
        Some(time) => Some(time.as_str()),
        None => None,
    }
}

/// Inserts a digest with the time of its request, where there is none with this ID.
pub fn put_digest<S: Alter>(
    tx: &mut Transaction<'_, S>,
    id: u32,
    time: &Option<Time>,
    digest: &Digest,
) -> Result<(), TableFault>
    ensures writes { WritesWithin S.Store tx.old.conn tx.new.conn result (Changes (λ t. record t { digests = insert_by digest_key t.digests (id, record { time = time.now; digest = digest.now }) })) }
{
    tx.execute(
        "INSERT INTO digests4 (id, time, digest) VALUES (?1, ?2, ?3)",
        params![id, or_null(time), digest.as_str()],
    )?;
    Ok(())
}

fn last_rows<S: Alter>(tx: &mut Transaction<'_, S>) -> Result<Vec<Row>, TableFault>
    ensures reads { ReadsRows S.Store tx.old.conn tx.new.conn result Holds (λ t. map digest_shown (take 1 (reverse t.digests))) }
{
    Ok(tx.query_all(
        "SELECT id, time, digest FROM digests4 ORDER BY id DESC LIMIT 1",
        &[],
    )?)
}

/// Returns the digest with the greatest ID, if there is one, as a list of one.
pub fn last_digest<S: Alter>(
    alloc: Global,
    tx: &mut Transaction<'_, S>,
) -> Result<Vec<(u32, DigestRow)>, TableFault>
    ensures reads { ReadsWithin S.Store tx.old.conn tx.new.conn result Holds (λ t all. all.items ≡ take 1 (reverse t.digests)) }
{
    let rows = last_rows(tx)?;
    all_from(alloc, &rows)
}

fn rows_after<S: Alter>(
    tx: &mut Transaction<'_, S>,
    after: u32,
    most: u32,
) -> Result<Vec<Row>, TableFault>
    ensures reads { ReadsRows S.Store tx.old.conn tx.new.conn result Holds (λ t. map digest_shown (take most (filter (is_digest_after after) t.digests))) }
{
    Ok(tx.query_all(
        "SELECT id, time, digest FROM digests4 WHERE id > ?1 ORDER BY id LIMIT ?2",
        params![after, most],
    )?)
}

fn rows_at<S: Alter>(tx: &mut Transaction<'_, S>, id: u32) -> Result<Vec<Row>, TableFault>
    ensures reads { ReadsRows S.Store tx.old.conn tx.new.conn result Holds (λ t. map digest_shown (filter (is_digest_at id) t.digests)) }
{
    Ok(tx.query_all(
        "SELECT id, time, digest FROM digests4 WHERE id = ?1 ORDER BY id",
        params![id],
    )?)
}

/// Returns the digest with this ID, if there is one.
pub fn find_digest<S: Alter>(
    alloc: Global,
    tx: &mut Transaction<'_, S>,
    id: u32,
) -> Result<Option<(u32, DigestRow)>, TableFault>
    ensures reads { ReadsWithin S.Store tx.old.conn tx.new.conn result Holds (λ t found. found ≡ find (is_digest_at id) t.digests) }
{
    let rows = rows_at(tx, id)?;
    first_from(alloc, &rows)
}

/// Returns at most `most` digests with an ID greater than `after`, in order of ID. The store
/// reads only these rows.
pub fn digests_after<S: Alter>(
    alloc: Global,
    tx: &mut Transaction<'_, S>,
    after: u32,
    most: u32,
) -> Result<Vec<(u32, DigestRow)>, TableFault>
    ensures reads { ReadsWithin S.Store tx.old.conn tx.new.conn result Holds (λ t all. all.items ≡ take most (filter (is_digest_after after) t.digests)) }
{
    let rows = rows_after(tx, after, most)?;
    all_from(alloc, &rows)
}
