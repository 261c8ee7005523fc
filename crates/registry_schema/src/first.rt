//! The tables of the first schema.

ghost use Rattle.table_laws.specs.Making.{no_schema, Adds};
ghost use Rattle.registry_schema.specs.Schema.{past_meta, past_curators, past_licences, past_fixed, past_orgs, past_petitions, past_entries, past_reserved, schema_1};
ghost use Rattle.registry_schema.specs.Steps.{WritesTables};

use crate::TableFault;
use sqlite::{Alter, Transaction};

fn create_meta<S: Alter>(tx: &mut Transaction<'_, S>) -> Result<(), TableFault>
    ensures writes { WritesTables S.Store tx.old.conn tx.new.conn result (Adds no_schema past_meta) }
{
    tx.execute(
        "CREATE TABLE meta (id INTEGER PRIMARY KEY, version INTEGER NOT NULL, vendor INTEGER NOT NULL, name TEXT NOT NULL) STRICT",
        &[],
    )?;
    Ok(())
}

fn create_curators<S: Alter>(tx: &mut Transaction<'_, S>) -> Result<(), TableFault>
    ensures writes { WritesTables S.Store tx.old.conn tx.new.conn result (Adds past_meta past_curators) }
{
    tx.execute(
        "CREATE TABLE curators (name TEXT PRIMARY KEY NOT NULL) STRICT",
        &[],
    )?;
    Ok(())
}

fn create_licences<S: Alter>(tx: &mut Transaction<'_, S>) -> Result<(), TableFault>
    ensures writes { WritesTables S.Store tx.old.conn tx.new.conn result (Adds past_curators past_licences) }
{
    tx.execute(
        "CREATE TABLE licences (name TEXT PRIMARY KEY NOT NULL) STRICT",
        &[],
    )?;
    Ok(())
}

fn create_fixed<S: Alter>(tx: &mut Transaction<'_, S>) -> Result<(), TableFault>
    ensures writes { WritesTables S.Store tx.old.conn tx.new.conn result (Adds past_licences past_fixed) }
{
    tx.execute(
        "CREATE TABLE fixed (lo INTEGER PRIMARY KEY, hi INTEGER NOT NULL) STRICT",
        &[],
    )?;
    Ok(())
}

fn create_orgs<S: Alter>(tx: &mut Transaction<'_, S>) -> Result<(), TableFault>
    ensures writes { WritesTables S.Store tx.old.conn tx.new.conn result (Adds past_fixed past_orgs) }
{
    tx.execute(
        "CREATE TABLE orgs (slug TEXT PRIMARY KEY NOT NULL, title TEXT NOT NULL, site TEXT NOT NULL, keeper TEXT NOT NULL) STRICT",
        &[],
    )?;
    Ok(())
}

fn create_petitions<S: Alter>(tx: &mut Transaction<'_, S>) -> Result<(), TableFault>
    ensures writes { WritesTables S.Store tx.old.conn tx.new.conn result (Adds past_orgs past_petitions) }
{
    tx.execute(
        "CREATE TABLE petitions (id INTEGER PRIMARY KEY, org TEXT NOT NULL, want INTEGER, title TEXT NOT NULL, licence TEXT NOT NULL, site TEXT NOT NULL, source TEXT NOT NULL, state INTEGER NOT NULL, pid INTEGER) STRICT",
        &[],
    )?;
    Ok(())
}

fn create_entries<S: Alter>(tx: &mut Transaction<'_, S>) -> Result<(), TableFault>
    ensures writes { WritesTables S.Store tx.old.conn tx.new.conn result (Adds past_petitions past_entries) }
{
    tx.execute(
        "CREATE TABLE entries (pid INTEGER PRIMARY KEY, org TEXT NOT NULL, held INTEGER NOT NULL, title TEXT NOT NULL, licence TEXT, site TEXT, source TEXT) STRICT",
        &[],
    )?;
    Ok(())
}

fn create_reserved<S: Alter>(tx: &mut Transaction<'_, S>) -> Result<(), TableFault>
    ensures writes { WritesTables S.Store tx.old.conn tx.new.conn result (Adds past_entries past_reserved) }
{
    tx.execute(
        "CREATE TABLE reserved (pid INTEGER PRIMARY KEY) STRICT",
        &[],
    )?;
    Ok(())
}

fn create_kept<S: Alter>(tx: &mut Transaction<'_, S>) -> Result<(), TableFault>
    ensures writes { WritesTables S.Store tx.old.conn tx.new.conn result (Adds past_reserved schema_1) }
{
    tx.execute(
        "CREATE TABLE kept (caller TEXT NOT NULL, request_key TEXT NOT NULL, request BLOB NOT NULL, reply TEXT NOT NULL, PRIMARY KEY (caller, request_key)) STRICT",
        &[],
    )?;
    Ok(())
}

/// Creates the tables of the first schema in a database that has none.
pub fn create_first<S: Alter>(tx: &mut Transaction<'_, S>) -> Result<(), TableFault>
    ensures writes { WritesTables S.Store tx.old.conn tx.new.conn result (Adds no_schema schema_1) }
{
    create_meta(tx)?;
    create_curators(tx)?;
    create_licences(tx)?;
    create_fixed(tx)?;
    create_orgs(tx)?;
    create_petitions(tx)?;
    create_entries(tx)?;
    create_reserved(tx)?;
    create_kept(tx)
}
