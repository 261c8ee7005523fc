//! The tables that the later schemas add to a store, which may have rows.

ghost use Rattle.std.specs.Prelude.{[], ◌∷◌};
ghost use Rattle.registry_schema.specs.Schema.{schema_1, schema_2, past_vendors, past_spans3, past_entries3, schema_3, past_digests4, schema_4, past_opened5, spans_table, vendors_table, spans3_table, entries3_table, petitions3_table, digests4_table, reasons4_table, opened5_table, closed5_table};
ghost use Rattle.registry_schema.specs.Steps.{WritesTables};
ghost use Rattle.table_laws.specs.Making.{AddsTo};

use crate::TableFault;
use sqlite::{Alter, Transaction};

/// Creates the table that the second schema adds.
pub fn add_second<S: Alter>(tx: &mut Transaction<'_, S>) -> Result<(), TableFault>
    ensures writes { WritesTables S.Store tx.old.conn tx.new.conn result (AddsTo schema_1 (spans_table ∷ [])) }
{
    tx.execute(
        "CREATE TABLE spans (lo INTEGER PRIMARY KEY, hi INTEGER NOT NULL) STRICT",
        &[],
    )?;
    Ok(())
}

fn create_vendors<S: Alter>(tx: &mut Transaction<'_, S>) -> Result<(), TableFault>
    ensures writes { WritesTables S.Store tx.old.conn tx.new.conn result (AddsTo schema_2 (vendors_table ∷ [])) }
{
    tx.execute(
        "CREATE TABLE vendors (vid INTEGER PRIMARY KEY, name TEXT NOT NULL) STRICT",
        &[],
    )?;
    Ok(())
}

fn create_spans3<S: Alter>(tx: &mut Transaction<'_, S>) -> Result<(), TableFault>
    ensures writes { WritesTables S.Store tx.old.conn tx.new.conn result (AddsTo past_vendors (spans3_table ∷ [])) }
{
    tx.execute(
        "CREATE TABLE spans3 (vid INTEGER NOT NULL, lo INTEGER NOT NULL, hi INTEGER NOT NULL, PRIMARY KEY (vid, lo)) STRICT",
        &[],
    )?;
    Ok(())
}

fn create_entries3<S: Alter>(tx: &mut Transaction<'_, S>) -> Result<(), TableFault>
    ensures writes { WritesTables S.Store tx.old.conn tx.new.conn result (AddsTo past_spans3 (entries3_table ∷ [])) }
{
    tx.execute(
        "CREATE TABLE entries3 (vid INTEGER NOT NULL, pid INTEGER NOT NULL, org TEXT NOT NULL, held INTEGER NOT NULL, title TEXT NOT NULL, licence TEXT, site TEXT, source TEXT, PRIMARY KEY (vid, pid)) STRICT",
        &[],
    )?;
    Ok(())
}

fn create_petitions3<S: Alter>(tx: &mut Transaction<'_, S>) -> Result<(), TableFault>
    ensures writes { WritesTables S.Store tx.old.conn tx.new.conn result (AddsTo past_entries3 (petitions3_table ∷ [])) }
{
    tx.execute(
        "CREATE TABLE petitions3 (id INTEGER PRIMARY KEY, vid INTEGER NOT NULL, org TEXT NOT NULL, want INTEGER, title TEXT NOT NULL, licence TEXT NOT NULL, site TEXT NOT NULL, source TEXT NOT NULL, state INTEGER NOT NULL, pid INTEGER) STRICT",
        &[],
    )?;
    Ok(())
}

/// Creates the tables that the third schema adds.
pub fn add_third<S: Alter>(tx: &mut Transaction<'_, S>) -> Result<(), TableFault>
    ensures writes { WritesTables S.Store tx.old.conn tx.new.conn result (AddsTo schema_2 (vendors_table ∷ spans3_table ∷ entries3_table ∷ petitions3_table ∷ [])) }
{
    create_vendors(tx)?;
    create_spans3(tx)?;
    create_entries3(tx)?;
    create_petitions3(tx)?;
    Ok(())
}

fn create_digests4<S: Alter>(tx: &mut Transaction<'_, S>) -> Result<(), TableFault>
    ensures writes { WritesTables S.Store tx.old.conn tx.new.conn result (AddsTo schema_3 (digests4_table ∷ [])) }
{
    tx.execute(
        "CREATE TABLE digests4 (id INTEGER PRIMARY KEY, time TEXT, digest TEXT NOT NULL) STRICT",
        &[],
    )?;
    Ok(())
}

fn create_reasons4<S: Alter>(tx: &mut Transaction<'_, S>) -> Result<(), TableFault>
    ensures writes { WritesTables S.Store tx.old.conn tx.new.conn result (AddsTo past_digests4 (reasons4_table ∷ [])) }
{
    tx.execute(
        "CREATE TABLE reasons4 (petition INTEGER PRIMARY KEY, reason TEXT NOT NULL) STRICT",
        &[],
    )?;
    Ok(())
}

/// Creates the tables that the fourth schema adds.
pub fn add_fourth<S: Alter>(tx: &mut Transaction<'_, S>) -> Result<(), TableFault>
    ensures writes { WritesTables S.Store tx.old.conn tx.new.conn result (AddsTo schema_3 (digests4_table ∷ reasons4_table ∷ [])) }
{
    create_digests4(tx)?;
    create_reasons4(tx)?;
    Ok(())
}

fn create_opened5<S: Alter>(tx: &mut Transaction<'_, S>) -> Result<(), TableFault>
    ensures writes { WritesTables S.Store tx.old.conn tx.new.conn result (AddsTo schema_4 (opened5_table ∷ [])) }
{
    tx.execute(
        "CREATE TABLE opened5 (petition INTEGER PRIMARY KEY, time TEXT NOT NULL) STRICT",
        &[],
    )?;
    Ok(())
}

fn create_closed5<S: Alter>(tx: &mut Transaction<'_, S>) -> Result<(), TableFault>
    ensures writes { WritesTables S.Store tx.old.conn tx.new.conn result (AddsTo past_opened5 (closed5_table ∷ [])) }
{
    tx.execute(
        "CREATE TABLE closed5 (petition INTEGER PRIMARY KEY, time TEXT NOT NULL) STRICT",
        &[],
    )?;
    Ok(())
}

/// Creates the tables that the fifth schema adds.
pub fn add_fifth<S: Alter>(tx: &mut Transaction<'_, S>) -> Result<(), TableFault>
    ensures writes { WritesTables S.Store tx.old.conn tx.new.conn result (AddsTo schema_4 (opened5_table ∷ closed5_table ∷ [])) }
{
    create_opened5(tx)?;
    create_closed5(tx)?;
    Ok(())
}

/// Creates the tables that the fourth and the fifth schema add, for a store of the third.
pub fn add_fourth_and_fifth<S: Alter>(tx: &mut Transaction<'_, S>) -> Result<(), TableFault>
    ensures writes { WritesTables S.Store tx.old.conn tx.new.conn result (AddsTo schema_3 (digests4_table ∷ reasons4_table ∷ opened5_table ∷ closed5_table ∷ [])) }
{
    add_fourth(tx)?;
    add_fifth(tx)?;
    Ok(())
}

/// Creates the tables that the third, the fourth and the fifth schema add, for a store of the second.
pub fn add_third_to_fifth<S: Alter>(tx: &mut Transaction<'_, S>) -> Result<(), TableFault>
    ensures writes { WritesTables S.Store tx.old.conn tx.new.conn result (AddsTo schema_2 (vendors_table ∷ spans3_table ∷ entries3_table ∷ petitions3_table ∷ digests4_table ∷ reasons4_table ∷ opened5_table ∷ closed5_table ∷ [])) }
{
    add_third(tx)?;
    add_fourth_and_fifth(tx)?;
    Ok(())
}
