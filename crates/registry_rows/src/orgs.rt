//! The organisations.

ghost use Rattle.std.specs.Prelude.{◌≡◌, [], ◌∷◌, ◌++◌, map, filter, find};
ghost use Rattle.sqlite_keyed.specs.Lists.{delete_where, sort_by};
ghost use Rattle.registry_rows.specs.Rows.{org_row, is_called, by_slug};
ghost use Rattle.registry_rows.specs.Steps.{Changes, Inserts, ReadsWithin, ReadsRows, WritesWithin};
ghost use Rattle.registry_rows.specs.Tables.{Holds};

use crate::columns::text_at;
use crate::decode::{FromRow, all_from, first_from};
use crate::inserting::inserted;
use registry_rules::Org;
use registry_schema::TableFault;
use sqlite::{Alter, Row, Transaction, params};
use std::alloc::Global;
use usbnum_core::Slug;

impl FromRow for Org {
    ghost use Rattle.registry_rows.specs.Rows.{IsOrg, org_row};

    ghost is_valid = { IsOrg };

    ghost columns = { org_row };

    fn from_row(alloc: Global, row: &Row) -> Result<Org, TableFault> {
        Ok(Org {
            slug: text_at(alloc, row, 0)?,
            title: text_at(alloc, row, 1)?,
            site: text_at(alloc, row, 2)?,
            keeper: text_at(alloc, row, 3)?,
        })
    }
}

// Inserts the organisation, or tells that there is one with its slug.
fn add_org<S: Alter>(tx: &mut Transaction<'_, S>, org: &Org) -> Result<bool, TableFault>
    ensures writes { Inserts S.Store tx.old.conn tx.new.conn result (Changes (λ t. record t { orgs = delete_where (λ other. is_called org.now.slug other) t.orgs ++ org.now ∷ [] })) }
{
    inserted(tx.execute(
        "INSERT INTO orgs (slug, title, site, keeper) VALUES (?1, ?2, ?3, ?4)",
        params![
            org.slug.as_str(),
            org.title.as_str(),
            org.site.as_str(),
            org.keeper.as_str()
        ],
    ))
}

// Inserts the organisation in place of the one with its slug.
fn replace_org<S: Alter>(tx: &mut Transaction<'_, S>, org: &Org) -> Result<(), TableFault>
    ensures writes { WritesWithin S.Store tx.old.conn tx.new.conn result (Changes (λ t. record t { orgs = delete_where (λ other. is_called org.now.slug other) t.orgs ++ org.now ∷ [] })) }
{
    tx.execute(
        "INSERT OR REPLACE INTO orgs (slug, title, site, keeper) VALUES (?1, ?2, ?3, ?4)",
        params![
            org.slug.as_str(),
            org.title.as_str(),
            org.site.as_str(),
            org.keeper.as_str()
        ],
    )?;
    Ok(())
}

/// Inserts the organisation, or replaces the one with its slug.
pub fn put_org<S: Alter>(tx: &mut Transaction<'_, S>, org: &Org) -> Result<(), TableFault>
    ensures writes { WritesWithin S.Store tx.old.conn tx.new.conn result (Changes (λ t. record t { orgs = delete_where (λ other. is_called org.now.slug other) t.orgs ++ org.now ∷ [] })) }
{
    if add_org(tx, org)? {
        return Ok(());
    }
    replace_org(tx, org)
}

fn org_rows<S: Alter>(tx: &mut Transaction<'_, S>, slug: &Slug) -> Result<Vec<Row>, TableFault>
    ensures reads { ReadsRows S.Store tx.old.conn tx.new.conn result Holds (λ t. map org_row (filter (is_called slug.now) t.orgs)) }
{
    Ok(tx.query_all(
        "SELECT slug, title, site, keeper FROM orgs WHERE slug = ?1 ORDER BY rowid",
        params![slug.as_str()],
    )?)
}

/// Returns the organisation with this slug, if any.
pub fn find_org<S: Alter>(
    alloc: Global,
    tx: &mut Transaction<'_, S>,
    slug: &Slug,
) -> Result<Option<Org>, TableFault>
    ensures reads { ReadsWithin S.Store tx.old.conn tx.new.conn result Holds (λ t found. found ≡ find (is_called slug.now) t.orgs) }
{
    let rows = org_rows(tx, slug)?;
    first_from(alloc, &rows)
}

fn all_rows<S: Alter>(tx: &mut Transaction<'_, S>) -> Result<Vec<Row>, TableFault>
    ensures reads { ReadsRows S.Store tx.old.conn tx.new.conn result Holds (λ t. map org_row (sort_by by_slug t.orgs)) }
{
    Ok(tx.query_all(
        "SELECT slug, title, site, keeper FROM orgs ORDER BY slug, rowid",
        &[],
    )?)
}

/// Returns all organisations, in order of slug.
pub fn list_orgs<S: Alter>(
    alloc: Global,
    tx: &mut Transaction<'_, S>,
) -> Result<Vec<Org>, TableFault>
    ensures reads { ReadsWithin S.Store tx.old.conn tx.new.conn result Holds (λ t all. all.items ≡ sort_by by_slug t.orgs) }
{
    let rows = all_rows(tx)?;
    all_from(alloc, &rows)
}
