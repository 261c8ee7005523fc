//! The vendors.

ghost use Rattle.std.specs.Prelude.{◌≡◌, map};
ghost use Rattle.sqlite_keyed.specs.Keyed.{insert_by};
ghost use Rattle.registry_rows.specs.Rows.{vendor_key, vendor_shown};
ghost use Rattle.registry_rows.specs.Steps.{Changes, ReadsWithin, ReadsRows, WritesWithin};
ghost use Rattle.registry_rows.specs.Tables.{Holds};

use crate::columns::{text_at, vid_at};
use crate::decode::{FromRow, all_from};
use registry_rules::Vendor;
use registry_schema::TableFault;
use sqlite::{Alter, Row, Transaction, params};
use std::alloc::Global;
use usbnum_core::{Title, Vid};

impl FromRow for Vendor {
    ghost use Rattle.registry_rows.specs.Rows.{IsVendor, vendor_shown};

    ghost is_valid = { IsVendor };

    ghost columns = { vendor_shown };

    fn from_row(alloc: Global, row: &Row) -> Result<Vendor, TableFault> {
        Ok(Vendor {
            vid: vid_at(row, 0)?,
            name: text_at(alloc, row, 1)?,
        })
    }
}

/// Inserts the vendor, or replaces the one with its vendor ID.
pub fn put_vendor<S: Alter>(
    tx: &mut Transaction<'_, S>,
    vid: Vid,
    name: &Title,
) -> Result<(), TableFault>
    ensures writes { WritesWithin S.Store tx.old.conn tx.new.conn result (Changes (λ t. record t { vendors = insert_by vendor_key t.vendors (record { vid = vid; name = name.now }) })) }
{
    tx.execute(
        "INSERT OR REPLACE INTO vendors (vid, name) VALUES (?1, ?2)",
        params![u32::from(vid.get()), name.as_str()],
    )?;
    Ok(())
}

fn all_rows<S: Alter>(tx: &mut Transaction<'_, S>) -> Result<Vec<Row>, TableFault>
    ensures reads { ReadsRows S.Store tx.old.conn tx.new.conn result Holds (λ t. map vendor_shown t.vendors) }
{
    Ok(tx.query_all("SELECT vid, name FROM vendors ORDER BY vid", &[])?)
}

/// Returns all vendors, in order of vendor ID.
pub fn list_vendors<S: Alter>(
    alloc: Global,
    tx: &mut Transaction<'_, S>,
) -> Result<Vec<Vendor>, TableFault>
    ensures reads { ReadsWithin S.Store tx.old.conn tx.new.conn result Holds (λ t all. all.items ≡ t.vendors) }
{
    let rows = all_rows(tx)?;
    all_from(alloc, &rows)
}
