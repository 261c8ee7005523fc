//! The numbers that have an owner.

ghost use Rattle.std.specs.Prelude.{◌≡◌, ◌≢◌, [], ◌∷◌, ◌++◌, map, filter, find, IfOk, IfSome};
ghost use Rattle.std.specs.Option.{option_map, option_copied};
ghost use Rattle.usbnum_core.specs.Text.{IsTitle, IsLink};
ghost use Rattle.sqlite_keyed.specs.Lists.{update_where, delete_where, sort_by};
ghost use Rattle.registry_rules.specs.Records.{with_held, with_card};
ghost use Rattle.registry_rows.specs.Rows.{IsEntry, whole, entry_row, is_of, is_between, by_number};
ghost use Rattle.registry_rows.specs.Columns.{HasColumns, terms_columns, entry_columns};
ghost use Rattle.sqlite.specs.declared.types.Value.TheVariants.{Text};
ghost use Rattle.registry_rows.specs.Steps.{Changes, Decodes, Inserts, ReadsWithin, ReadsRows, WritesWithin};
ghost use Rattle.registry_rows.specs.Tables.{Holds};

use crate::columns::{flag_at, pid_at, text_at, text_or_null_at, vid_at};
use crate::decode::{FromRow, all_from, first_from};
use crate::inserting::inserted;
use registry_rules::{Card, Entry, Terms};
use registry_schema::TableFault;
use sqlite::{Alter, Row, Transaction, params};
use std::alloc::Global;
use usbnum_core::{Number, Pid, Vid};

fn terms_from(alloc: Global, row: &Row) -> Result<Option<Terms>, TableFault>
    ensures decodes { (e : _) → IsEntry e → row.now ≡ entry_row e → Decodes result e.1.card.terms }
    ensures shown { IfOk result (λ terms. HasColumns row.now 5 (terms_columns terms)) }
    ensures fault { result ≢ Err TableFault.Store }
{
    let licence = text_or_null_at(alloc, row, 5)?;
    let site = text_or_null_at(alloc, row, 6)?;
    let source = text_or_null_at(alloc, row, 7)?;
    match (licence, site, source) {
        (Some(licence), Some(site), Some(source)) => Ok(Some(Terms {
            licence,
            site,
            source,
        })),
        (None, None, None) => Ok(None),
        _ => Err(TableFault::Foreign),
    }
}

fn card_from(alloc: Global, row: &Row) -> Result<Card, TableFault>
    ensures decodes { (e : _) → IsEntry e → row.now ≡ entry_row e → Decodes result e.1.card }
    ensures shown { IfOk result (λ card. HasColumns row.now 4 (Text card.title ∷ terms_columns card.terms)) }
    ensures fault { result ≢ Err TableFault.Store }
{
    Ok(Card {
        title: text_at(alloc, row, 4)?,
        terms: terms_from(alloc, row)?,
    })
}

fn entry_from(alloc: Global, row: &Row) -> Result<Entry, TableFault>
    ensures decodes { (e : _) → IsEntry e → row.now ≡ entry_row e → Decodes result e.1 }
    ensures shown { IfOk result (λ entry. HasColumns row.now 2 (entry_columns entry)) }
    ensures fault { result ≢ Err TableFault.Store }
{
    Ok(Entry {
        org: text_at(alloc, row, 2)?,
        held: flag_at(row, 3)?,
        card: card_from(alloc, row)?,
    })
}

fn number_from(row: &Row) -> Result<Number, TableFault>
    ensures decodes { (e : _) → IsEntry e → row.now ≡ entry_row e → Decodes result e.0 }
    ensures shown { IfOk result (λ number. HasColumns row.now 0 (whole number.vid ∷ whole number.pid ∷ [])) }
    ensures fault { result ≢ Err TableFault.Store }
{
    Ok(Number {
        vid: vid_at(row, 0)?,
        pid: pid_at(row, 1)?,
    })
}

impl FromRow for (Number, Entry) {
    ghost use Rattle.registry_rows.specs.Rows.{IsEntry, entry_row};

    ghost is_valid = { IsEntry };

    ghost columns = { entry_row };

    fn from_row(alloc: Global, row: &Row) -> Result<(Number, Entry), TableFault> {
        Ok((number_from(row)?, entry_from(alloc, row)?))
    }
}

fn licence_of(card: &Card) -> Option<&str>
    ensures value { option_copied result ≡ option_map (λ terms. terms.licence) card.now.terms }
    ensures valid { IfSome card.now.terms (λ terms. IsTitle terms.licence) }
{
    match &card.terms {
        Some(terms) => Some(terms.licence.as_str()),
        None => None,
    }
}

fn site_of(card: &Card) -> Option<&str>
    ensures value { option_copied result ≡ option_map (λ terms. terms.site) card.now.terms }
    ensures valid { IfSome card.now.terms (λ terms. IsLink terms.site) }
{
    match &card.terms {
        Some(terms) => Some(terms.site.as_str()),
        None => None,
    }
}

fn source_of(card: &Card) -> Option<&str>
    ensures value { option_copied result ≡ option_map (λ terms. terms.source) card.now.terms }
    ensures valid { IfSome card.now.terms (λ terms. IsLink terms.source) }
{
    match &card.terms {
        Some(terms) => Some(terms.source.as_str()),
        None => None,
    }
}

// Inserts the entry, or tells that there is one with its number.
fn add_entry<S: Alter>(
    tx: &mut Transaction<'_, S>,
    number: &Number,
    entry: &Entry,
) -> Result<bool, TableFault>
    ensures writes { Inserts S.Store tx.old.conn tx.new.conn result (Changes (λ t. record t { entries = delete_where (λ other. is_of number.now other) t.entries ++ (number.now, entry.now) ∷ [] })) }
{
    inserted(tx.execute(
        "INSERT INTO entries3 (vid, pid, org, held, title, licence, site, source) VALUES (?1, ?2, ?3, ?4, ?5, ?6, ?7, ?8)",
        params![
            u32::from(number.vid.get()),
            u32::from(number.pid.get()),
            entry.org.as_str(),
            entry.held,
            entry.card.title.as_str(),
            licence_of(&entry.card),
            site_of(&entry.card),
            source_of(&entry.card)
        ],
    ))
}

// Inserts the entry in place of the one with its number.
fn replace_entry<S: Alter>(
    tx: &mut Transaction<'_, S>,
    number: &Number,
    entry: &Entry,
) -> Result<(), TableFault>
    ensures writes { WritesWithin S.Store tx.old.conn tx.new.conn result (Changes (λ t. record t { entries = delete_where (λ other. is_of number.now other) t.entries ++ (number.now, entry.now) ∷ [] })) }
{
    tx.execute(
        "INSERT OR REPLACE INTO entries3 (vid, pid, org, held, title, licence, site, source) VALUES (?1, ?2, ?3, ?4, ?5, ?6, ?7, ?8)",
        params![
            u32::from(number.vid.get()),
            u32::from(number.pid.get()),
            entry.org.as_str(),
            entry.held,
            entry.card.title.as_str(),
            licence_of(&entry.card),
            site_of(&entry.card),
            source_of(&entry.card)
        ],
    )?;
    Ok(())
}

/// Inserts the entry, or replaces the one of its number.
pub fn put_entry<S: Alter>(
    tx: &mut Transaction<'_, S>,
    number: Number,
    entry: &Entry,
) -> Result<(), TableFault>
    ensures writes { WritesWithin S.Store tx.old.conn tx.new.conn result (Changes (λ t. record t { entries = delete_where (λ other. is_of number other) t.entries ++ (number, entry.now) ∷ [] })) }
{
    if add_entry(tx, &number, entry)? {
        return Ok(());
    }
    replace_entry(tx, &number, entry)
}

/// Sets whether the number is held, if it has an entry.
pub fn set_held<S: Alter>(
    tx: &mut Transaction<'_, S>,
    number: Number,
    held: bool,
) -> Result<(), TableFault>
    ensures writes { WritesWithin S.Store tx.old.conn tx.new.conn result (Changes (λ t. record t { entries = update_where (is_of number) (λ e. (e.0, with_held held e.1)) t.entries })) }
{
    tx.execute(
        "UPDATE entries3 SET held = ?1 WHERE vid = ?2 AND pid = ?3",
        params![
            held,
            u32::from(number.vid.get()),
            u32::from(number.pid.get())
        ],
    )?;
    Ok(())
}

/// Sets the card of the number, if it has an entry.
pub fn set_card<S: Alter>(
    tx: &mut Transaction<'_, S>,
    number: Number,
    card: &Card,
) -> Result<(), TableFault>
    ensures writes { WritesWithin S.Store tx.old.conn tx.new.conn result (Changes (λ t. record t { entries = update_where (is_of number) (λ e. (e.0, with_card card.now e.1)) t.entries })) }
{
    tx.execute(
        "UPDATE entries3 SET title = ?1, licence = ?2, site = ?3, source = ?4 WHERE vid = ?5 AND pid = ?6",
        params![
            card.title.as_str(),
            licence_of(card),
            site_of(card),
            source_of(card),
            u32::from(number.vid.get()),
            u32::from(number.pid.get())
        ],
    )?;
    Ok(())
}

fn entry_rows<S: Alter>(tx: &mut Transaction<'_, S>, number: Number) -> Result<Vec<Row>, TableFault>
    ensures reads { ReadsRows S.Store tx.old.conn tx.new.conn result Holds (λ t. map entry_row (filter (is_of number) t.entries)) }
{
    Ok(tx.query_all(
        "SELECT vid, pid, org, held, title, licence, site, source FROM entries3 WHERE vid = ?1 AND pid = ?2 ORDER BY rowid",
        params![u32::from(number.vid.get()), u32::from(number.pid.get())],
    )?)
}

/// Returns the number with its entry, if it has one.
pub fn find_entry<S: Alter>(
    alloc: Global,
    tx: &mut Transaction<'_, S>,
    number: Number,
) -> Result<Option<(Number, Entry)>, TableFault>
    ensures reads { ReadsWithin S.Store tx.old.conn tx.new.conn result Holds (λ t found. found ≡ find (is_of number) t.entries) }
{
    let rows = entry_rows(tx, number)?;
    first_from(alloc, &rows)
}

fn rows_between<S: Alter>(
    tx: &mut Transaction<'_, S>,
    vid: Vid,
    low: Pid,
    high: Pid,
) -> Result<Vec<Row>, TableFault>
    ensures reads { ReadsRows S.Store tx.old.conn tx.new.conn result Holds (λ t. map entry_row (sort_by by_number (filter (is_between vid low high) t.entries))) }
{
    Ok(tx.query_all(
        "SELECT vid, pid, org, held, title, licence, site, source FROM entries3 WHERE vid = ?1 AND pid BETWEEN ?2 AND ?3 ORDER BY vid, pid, rowid",
        params![
            u32::from(vid.get()),
            u32::from(low.get()),
            u32::from(high.get())
        ],
    )?)
}

/// Returns the vendor's entries from the low number to the high one, ascending.
pub fn find_entries<S: Alter>(
    alloc: Global,
    tx: &mut Transaction<'_, S>,
    vid: Vid,
    low: Pid,
    high: Pid,
) -> Result<Vec<(Number, Entry)>, TableFault>
    ensures reads { ReadsWithin S.Store tx.old.conn tx.new.conn result Holds (λ t all. all.items ≡ sort_by by_number (filter (is_between vid low high) t.entries)) }
{
    let rows = rows_between(tx, vid, low, high)?;
    all_from(alloc, &rows)
}

fn all_rows<S: Alter>(tx: &mut Transaction<'_, S>) -> Result<Vec<Row>, TableFault>
    ensures reads { ReadsRows S.Store tx.old.conn tx.new.conn result Holds (λ t. map entry_row (sort_by by_number t.entries)) }
{
    Ok(tx.query_all(
        "SELECT vid, pid, org, held, title, licence, site, source FROM entries3 ORDER BY vid, pid, rowid",
        &[],
    )?)
}

/// Returns all entries, in order of vendor and then product.
pub fn list_entries<S: Alter>(
    alloc: Global,
    tx: &mut Transaction<'_, S>,
) -> Result<Vec<(Number, Entry)>, TableFault>
    ensures reads { ReadsWithin S.Store tx.old.conn tx.new.conn result Holds (λ t all. all.items ≡ sort_by by_number t.entries) }
{
    let rows = all_rows(tx)?;
    all_from(alloc, &rows)
}
