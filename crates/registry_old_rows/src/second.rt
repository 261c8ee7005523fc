//! The tables of the second schema, in which a store from the first still has its rows of
//! `reserved`.

ghost use Rattle.std.specs.Prelude.{◌≡◌, [], ℕ, map};
ghost use Rattle.sqlite_keyed.specs.Keyed.{insert_by};
ghost use Rattle.usbnum_core.specs.Number.{IsId};
ghost use Rattle.registry_rows.specs.Rows.{meta_key, meta_shown};
ghost use Rattle.registry_old_rows.specs.Old.{number_shown, old_span_key};
ghost use Rattle.registry_old_rows.specs.Steps.{Rewrites, IsHeld};
ghost use Rattle.registry_rows.specs.Steps.{WritesWithin, ReadsWithin, ReadsRows};

use registry_rows::{FromRow, Meta, all_from, pid_at};
use registry_schema::TableFault;
use sqlite::{Alter, Row, Transaction, params};
use std::alloc::Global;
use usbnum_core::{Pid, Span, Title, Vid};

fn meta_rows<S: Alter>(tx: &mut Transaction<'_, S>) -> Result<Vec<Row>, TableFault>
    ensures reads { ReadsRows S.Store tx.old.conn tx.new.conn result IsHeld (λ x. map meta_shown x.tables.metas) }
{
    Ok(tx.query_all("SELECT version, vendor, name FROM meta ORDER BY id", &[])?)
}

/// Returns the rows of `meta`. A sound store has one.
pub fn list_old_metas<S: Alter>(
    alloc: Global,
    tx: &mut Transaction<'_, S>,
) -> Result<Vec<Meta>, TableFault>
    ensures reads { ReadsWithin S.Store tx.old.conn tx.new.conn result IsHeld (λ x all. all.items ≡ x.tables.metas) }
{
    let rows = meta_rows(tx)?;
    all_from(alloc, &rows)
}

/// Writes the row of `meta`, in place of the one before.
pub fn put_old_meta<S: Alter>(
    tx: &mut Transaction<'_, S>,
    version: u32,
    vendor: Vid,
    name: &Title,
) -> Result<(), TableFault>
    ensures writes { WritesWithin S.Store tx.old.conn tx.new.conn result (λ old new. (vid : ℕ) → Rewrites vid (λ t. record t { metas = insert_by meta_key t.metas (record { version = version; vendor = vendor; name = name.now }) }) (λ numbers. numbers) old new) }
{
    tx.execute(
        "INSERT OR REPLACE INTO meta (id, version, vendor, name) VALUES (1, ?1, ?2, ?3)",
        params![version, u32::from(vendor.get()), name.as_str()],
    )?;
    Ok(())
}

/// A row of the table `reserved`.
#[derive(Clone, Copy, Debug, Drop)]
pub struct Reserved {
    /// The product ID.
    pub pid: Pid,
}

impl FromRow for Reserved {
    ghost use Rattle.usbnum_core.specs.Number.{IsId};
    ghost use Rattle.registry_old_rows.specs.Old.{number_shown};

    ghost is_valid = { λ one. IsId one.pid };

    ghost columns = { λ one. number_shown one.pid };

    fn from_row(_alloc: Global, row: &Row) -> Result<Reserved, TableFault> {
        Ok(Reserved {
            pid: pid_at(row, 0)?,
        })
    }
}

fn reserved_rows<S: Alter>(tx: &mut Transaction<'_, S>) -> Result<Vec<Row>, TableFault>
    ensures reads { ReadsRows S.Store tx.old.conn tx.new.conn result IsHeld (λ x. map number_shown x.numbers) }
{
    Ok(tx.query_all("SELECT pid FROM reserved ORDER BY pid", &[])?)
}

/// Returns the reserved numbers, one for each row.
pub fn list_reserved<S: Alter>(
    alloc: Global,
    tx: &mut Transaction<'_, S>,
) -> Result<Vec<Reserved>, TableFault>
    ensures reads { ReadsWithin S.Store tx.old.conn tx.new.conn result IsHeld (λ x all. map (λ one. one.pid) all.items ≡ x.numbers) }
{
    let rows = reserved_rows(tx)?;
    all_from(alloc, &rows)
}

/// Empties the table `reserved`.
pub fn empty_reserved<S: Alter>(tx: &mut Transaction<'_, S>) -> Result<(), TableFault>
    ensures writes { WritesWithin S.Store tx.old.conn tx.new.conn result (λ old new. (vid : ℕ) → Rewrites vid (λ t. t) (λ numbers. []) old new) }
{
    tx.execute("DELETE FROM reserved", &[])?;
    Ok(())
}

/// Inserts a span of reserved numbers.
pub fn put_old_span<S: Alter>(tx: &mut Transaction<'_, S>, span: Span) -> Result<(), TableFault>
    ensures writes { WritesWithin S.Store tx.old.conn tx.new.conn result (λ old new. (vid : ℕ) → IsId vid → Rewrites vid (λ t. record t { spans = insert_by old_span_key t.spans (vid, span) }) (λ numbers. numbers) old new) }
{
    tx.execute(
        "INSERT OR REPLACE INTO spans (lo, hi) VALUES (?1, ?2)",
        params![u32::from(span.first().get()), u32::from(span.last().get())],
    )?;
    Ok(())
}
