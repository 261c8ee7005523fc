//! The curators and the allowed licences.

ghost use Rattle.std.specs.Prelude.{◌≡◌, [], ◌∷◌, ◌++◌, map};
ghost use Rattle.sqlite_keyed.specs.Lists.{delete_where, sort_by};
ghost use Rattle.registry_rows.specs.Rows.{name_row, is_named, by_bytes};
ghost use Rattle.registry_rows.specs.Steps.{Changes, ReadsWithin, ReadsRows, WritesWithin};
ghost use Rattle.registry_rows.specs.Tables.{Holds};

use crate::columns::text_at;
use crate::decode::{FromRow, all_from};
use registry_schema::TableFault;
use sqlite::{Alter, Row, Transaction, params};
use std::alloc::Global;
use usbnum_core::{Slug, Title};

impl FromRow for Slug {
    ghost use Rattle.registry_rows.specs.Rows.{name_row};
    ghost use Rattle.usbnum_core.specs.Text.{IsSlug};

    ghost is_valid = { IsSlug };

    ghost columns = { name_row };

    fn from_row(alloc: Global, row: &Row) -> Result<Slug, TableFault> {
        text_at(alloc, row, 0)
    }
}

impl FromRow for Title {
    ghost use Rattle.registry_rows.specs.Rows.{name_row};
    ghost use Rattle.usbnum_core.specs.Text.{IsTitle};

    ghost is_valid = { IsTitle };

    ghost columns = { name_row };

    fn from_row(alloc: Global, row: &Row) -> Result<Title, TableFault> {
        text_at(alloc, row, 0)
    }
}

/// Inserts the curator, or replaces its row.
pub fn put_curator<S: Alter>(tx: &mut Transaction<'_, S>, name: &Slug) -> Result<(), TableFault>
    ensures writes { WritesWithin S.Store tx.old.conn tx.new.conn result (Changes (λ t. record t { curators = delete_where (λ other. is_named other name.now) t.curators ++ name.now ∷ [] })) }
{
    tx.execute(
        "INSERT OR REPLACE INTO curators (name) VALUES (?1)",
        params![name.as_str()],
    )?;
    Ok(())
}

fn curator_rows<S: Alter>(tx: &mut Transaction<'_, S>) -> Result<Vec<Row>, TableFault>
    ensures reads { ReadsRows S.Store tx.old.conn tx.new.conn result Holds (λ t. map name_row (sort_by by_bytes t.curators)) }
{
    Ok(tx.query_all("SELECT name FROM curators ORDER BY name, rowid", &[])?)
}

/// Returns all curators, in order of their bytes.
pub fn list_curators<S: Alter>(
    alloc: Global,
    tx: &mut Transaction<'_, S>,
) -> Result<Vec<Slug>, TableFault>
    ensures reads { ReadsWithin S.Store tx.old.conn tx.new.conn result Holds (λ t all. all.items ≡ sort_by by_bytes t.curators) }
{
    let rows = curator_rows(tx)?;
    all_from(alloc, &rows)
}

/// Inserts the licence, or replaces its row.
pub fn put_licence<S: Alter>(tx: &mut Transaction<'_, S>, name: &Title) -> Result<(), TableFault>
    ensures writes { WritesWithin S.Store tx.old.conn tx.new.conn result (Changes (λ t. record t { licences = delete_where (λ other. is_named other name.now) t.licences ++ name.now ∷ [] })) }
{
    tx.execute(
        "INSERT OR REPLACE INTO licences (name) VALUES (?1)",
        params![name.as_str()],
    )?;
    Ok(())
}

fn licence_rows<S: Alter>(tx: &mut Transaction<'_, S>) -> Result<Vec<Row>, TableFault>
    ensures reads { ReadsRows S.Store tx.old.conn tx.new.conn result Holds (λ t. map name_row (sort_by by_bytes t.licences)) }
{
    Ok(tx.query_all("SELECT name FROM licences ORDER BY name, rowid", &[])?)
}

/// Returns all allowed licences, in order of their bytes.
pub fn list_licences<S: Alter>(
    alloc: Global,
    tx: &mut Transaction<'_, S>,
) -> Result<Vec<Title>, TableFault>
    ensures reads { ReadsWithin S.Store tx.old.conn tx.new.conn result Holds (λ t all. all.items ≡ sort_by by_bytes t.licences) }
{
    let rows = licence_rows(tx)?;
    all_from(alloc, &rows)
}
