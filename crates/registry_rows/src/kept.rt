//! The kept replies.

ghost use Rattle.std.specs.Prelude.{◌≡◌, [], ◌∷◌, ◌++◌, map, filter, find, take};
ghost use Rattle.sqlite_keyed.specs.Keyed.{next_key};
ghost use Rattle.sqlite_keyed.specs.Lists.{delete_where};
ghost use Rattle.registry_rows.specs.Rows.{kept_row, is_kept_under, has_reply_within};
ghost use Rattle.registry_rows.specs.Steps.{Changes, ReadsWithin, ReadsRows, WritesWithin};
ghost use Rattle.registry_rows.specs.Tables.{Holds, replies, replies_after};

use crate::columns::{canonical_form_at, reply_at, text_at};
use crate::decode::{FromRow, all_from, first_from};
use registry_rules::{CanonicalForm, KeptReply, ReplyText};
use registry_schema::TableFault;
use sqlite::{Alter, Row, Transaction, params};
use std::alloc::Global;
use usbnum_core::{Key, Slug};

/// The kept reply of an accepted request, under its caller and key.
#[derive(Debug, Drop)]
pub struct KeptRow {
    /// The caller of the request.
    pub caller: Slug,
    /// The key of the request.
    pub key: Key,
    /// The canonical form of the order, and the reply.
    pub kept: KeptReply,
}

impl FromRow for KeptRow {
    ghost use Rattle.registry_rows.specs.Rows.{IsKept, kept_row};

    ghost is_valid = { IsKept };

    ghost columns = { kept_row };

    fn from_row(alloc: Global, row: &Row) -> Result<KeptRow, TableFault> {
        Ok(KeptRow {
            caller: text_at(alloc, row, 0)?,
            key: text_at(alloc, row, 1)?,
            kept: KeptReply {
                order: canonical_form_at(alloc, row, 2)?,
                reply: reply_at(alloc, row, 3)?,
            },
        })
    }
}

/// Keeps the canonical form and the reply under the caller and key, for which there is no row yet.
/// The row's rowid is one above the greatest of all rows.
pub fn put_kept<S: Alter>(
    tx: &mut Transaction<'_, S>,
    caller: &Slug,
    key: &Key,
    order: &CanonicalForm,
    reply: &ReplyText,
) -> Result<(), TableFault>
    ensures writes { WritesWithin S.Store tx.old.conn tx.new.conn result (Changes (λ t. record t { kept = delete_where (λ other. is_kept_under caller.now key.now other.1) t.kept ++ (next_key (λ other. other.0) t.kept, record { caller = caller.now; key = key.now; kept = record { order = order.now; reply = reply.now } }) ∷ [] })) }
{
    tx.execute(
        "INSERT INTO kept (caller, request_key, request, reply) VALUES (?1, ?2, ?3, ?4)",
        params![
            caller.as_str(),
            key.as_str(),
            order.as_bytes(),
            reply.as_str()
        ],
    )?;
    Ok(())
}

fn kept_rows<S: Alter>(
    tx: &mut Transaction<'_, S>,
    caller: &Slug,
    key: &Key,
) -> Result<Vec<Row>, TableFault>
    ensures reads { ReadsRows S.Store tx.old.conn tx.new.conn result Holds (λ t. map kept_row (filter (is_kept_under caller.now key.now) (replies t))) }
{
    Ok(tx.query_all(
        "SELECT caller, request_key, request, reply FROM kept WHERE caller = ?1 AND request_key = ?2 ORDER BY rowid",
        params![caller.as_str(), key.as_str()],
    )?)
}

/// Returns what is kept under the caller and key, if anything.
pub fn find_kept<S: Alter>(
    alloc: Global,
    tx: &mut Transaction<'_, S>,
    caller: &Slug,
    key: &Key,
) -> Result<Option<KeptRow>, TableFault>
    ensures reads { ReadsWithin S.Store tx.old.conn tx.new.conn result Holds (λ t found. found ≡ find (is_kept_under caller.now key.now) (replies t)) }
{
    let rows = kept_rows(tx, caller, key)?;
    first_from(alloc, &rows)
}

fn rows_after<S: Alter>(
    tx: &mut Transaction<'_, S>,
    after: u32,
    most: u32,
) -> Result<Vec<Row>, TableFault>
    ensures reads { ReadsRows S.Store tx.old.conn tx.new.conn result Holds (λ t. map kept_row (take most (replies_after after t))) }
{
    Ok(tx.query_all(
        "SELECT caller, request_key, request, reply FROM kept WHERE rowid > ?1 ORDER BY rowid LIMIT ?2",
        params![after, most],
    )?)
}

/// Returns at most `most` of what is kept with a rowid greater than `after`, in order of insertion.
/// The store reads only these rows.
pub fn kept_after<S: Alter>(
    alloc: Global,
    tx: &mut Transaction<'_, S>,
    after: u32,
    most: u32,
) -> Result<Vec<KeptRow>, TableFault>
    ensures reads { ReadsWithin S.Store tx.old.conn tx.new.conn result Holds (λ t all. all.items ≡ take most (replies_after after t)) }
{
    let rows = rows_after(tx, after, most)?;
    all_from(alloc, &rows)
}

fn rows_with_replies<S: Alter>(
    tx: &mut Transaction<'_, S>,
    low: &str,
    high: &str,
) -> Result<Vec<Row>, TableFault>
    ensures reads { ReadsRows S.Store tx.old.conn tx.new.conn result Holds (λ t. map kept_row (filter (has_reply_within low.now high.now) (replies t))) }
{
    Ok(tx.query_all(
        "SELECT caller, request_key, request, reply FROM kept WHERE reply BETWEEN ?1 AND ?2 ORDER BY rowid",
        params![low, high],
    )?)
}

/// Returns what is kept with a reply from the low text to the high one, in order of insertion. The
/// store reads every row.
pub fn kept_with_replies<S: Alter>(
    alloc: Global,
    tx: &mut Transaction<'_, S>,
    low: &str,
    high: &str,
) -> Result<Vec<KeptRow>, TableFault>
    ensures reads { ReadsWithin S.Store tx.old.conn tx.new.conn result Holds (λ t all. all.items ≡ filter (has_reply_within low.now high.now) (replies t)) }
{
    let rows = rows_with_replies(tx, low, high)?;
    all_from(alloc, &rows)
}
