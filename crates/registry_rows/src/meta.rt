//! The row of the table `meta`.

ghost use Rattle.std.specs.Prelude.{◌≡◌, map};
ghost use Rattle.sqlite_keyed.specs.Keyed.{insert_by};
ghost use Rattle.registry_rows.specs.Rows.{meta_key, meta_shown};
ghost use Rattle.registry_rows.specs.Steps.{Changes, ReadsWithin, ReadsRows, WritesWithin};
ghost use Rattle.registry_rows.specs.Tables.{Holds};

use crate::columns::{number_at, text_at, vid_at};
use crate::decode::{FromRow, all_from};
use registry_schema::TableFault;
use sqlite::{Alter, Row, Transaction, params};
use std::alloc::Global;
use usbnum_core::{Title, Vid};

/// The row of the table `meta`: the schema version, and the vendor that the store was founded for.
#[derive(Debug, Drop)]
pub struct Meta {
    /// The schema version.
    pub version: u32,
    /// The vendor that the store was founded for.
    pub vendor: Vid,
    /// The vendor's name.
    pub name: Title,
}

impl FromRow for Meta {
    ghost use Rattle.registry_rows.specs.Rows.{IsMeta, meta_shown};

    ghost is_valid = { IsMeta };

    ghost columns = { meta_shown };

    fn from_row(alloc: Global, row: &Row) -> Result<Meta, TableFault> {
        Ok(Meta {
            version: number_at(row, 0)?,
            vendor: vid_at(row, 1)?,
            name: text_at(alloc, row, 2)?,
        })
    }
}

/// Writes the row of `meta`, in place of the one before.
pub fn put_meta<S: Alter>(
    tx: &mut Transaction<'_, S>,
    version: u32,
    vendor: Vid,
    name: &Title,
) -> Result<(), TableFault>
    ensures writes { WritesWithin S.Store tx.old.conn tx.new.conn result (Changes (λ t. record t { metas = insert_by meta_key t.metas (record { version = version; vendor = vendor; name = name.now }) })) }
{
    tx.execute(
        "INSERT OR REPLACE INTO meta (id, version, vendor, name) VALUES (1, ?1, ?2, ?3)",
        params![version, u32::from(vendor.get()), name.as_str()],
    )?;
    Ok(())
}

fn all_rows<S: Alter>(tx: &mut Transaction<'_, S>) -> Result<Vec<Row>, TableFault>
    ensures reads { ReadsRows S.Store tx.old.conn tx.new.conn result Holds (λ t. map meta_shown t.metas) }
{
    Ok(tx.query_all("SELECT version, vendor, name FROM meta ORDER BY id", &[])?)
}

/// Returns the rows of `meta`. A sound store has one.
pub fn list_metas<S: Alter>(
    alloc: Global,
    tx: &mut Transaction<'_, S>,
) -> Result<Vec<Meta>, TableFault>
    ensures reads { ReadsWithin S.Store tx.old.conn tx.new.conn result Holds (λ t all. all.items ≡ t.metas) }
{
    let rows = all_rows(tx)?;
    all_from(alloc, &rows)
}
