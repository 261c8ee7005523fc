//! The step from the second schema to the newest.

ghost use Rattle.std.specs.Prelude.{◌≡◌, false, IsTrue, OnOk, Err};
ghost use Rattle.sqlite.specs.State.{HasCleanDisk, Survives};
ghost use Rattle.sqlite.specs.Held.{state};
ghost use Rattle.table_laws.specs.Inside.{CommitsNothing};
ghost use Rattle.registry_schema.specs.Steps.{WritesTables};
ghost use Rattle.registry_rules.specs.History.{History};
ghost use Rattle.registry_tables.specs.Known.{SaysVersion};
ghost use Rattle.registry_tables.specs.Rows.{Rows};
ghost use Rattle.registry_tables.specs.Raising.{MovesAll, Raises, CommitsStep, IsMadeBy};

use crate::beginning::begin;
use crate::committing::commit;
use crate::digests::fill_digests;
use crate::marked::old_meta;
use registry_old_rows::{
    copy_entries, copy_petitions, copy_spans, empty_entries, empty_petitions, empty_spans,
};
use registry_rows::{put_meta, put_vendor};
use registry_schema::{TableFault, add_third_to_fifth};
use sqlite::{Alter, Connection, Transaction};
use std::alloc::Global;
use usbnum_core::Vid;

// Moves the rows of the second schema's tables to those of the third, with this vendor.
fn move_rows<S: Alter>(tx: &mut Transaction<'_, S>, vid: Vid) -> Result<(), TableFault>
    ensures writes { WritesTables S.Store tx.old.conn tx.new.conn result (MovesAll vid) }
{
    copy_spans(tx, vid)?;
    copy_entries(tx, vid)?;
    copy_petitions(tx, vid)?;
    empty_spans(tx)?;
    empty_entries(tx)?;
    empty_petitions(tx)?;
    Ok(())
}

// Creates the tables of the later schemas, with the founding vendor in each row, and the digests.
fn raise_third<S: Alter>(alloc: Global, tx: &mut Transaction<'_, S>) -> Result<(), TableFault>
    ensures same_reference { tx.new.conn.ghost_name ≡ tx.old.conn.ghost_name }
    ensures raised { HasCleanDisk (state S.Store tx.new.conn.now) → IsTrue (state S.Store tx.old.conn.now).in_transaction → Raises 2 (state S.Store tx.old.conn.now) (state S.Store tx.new.conn.now) result }
    ensures named { HasCleanDisk (state S.Store tx.new.conn.now) → IsTrue (state S.Store tx.old.conn.now).in_transaction → OnOk result (SaysVersion 2 (state S.Store tx.old.conn.now).now) }
    ensures survives { CommitsNothing (state S.Store tx.old.conn.now) (state S.Store tx.new.conn.now) }
{
    let meta = old_meta(alloc, tx, 2)?;
    add_third_to_fifth(tx)?;
    move_rows(tx, meta.vendor)?;
    put_vendor(tx, meta.vendor, &meta.name)?;
    put_meta(tx, 5, meta.vendor, &meta.name)?;
    fill_digests(alloc, tx, meta.vendor, &meta.name)
}

/// Takes the step in one transaction with one commit.
pub(crate) fn second_to_newest<S: Alter>(
    alloc: Global,
    conn: &mut Connection<S>,
) -> Result<(), TableFault>
    requires { conn.old.in_transaction ≡ false }
    ensures idle { conn.new.in_transaction ≡ false }
    ensures made { HasCleanDisk (state S.Store conn.new) → OnOk result (IsMadeBy (CommitsStep 2 (state S.Store conn.old)) (state S.Store conn.new)) }
    ensures named { HasCleanDisk (state S.Store conn.new) → OnOk result (SaysVersion 2 (state S.Store conn.old).now) }
    ensures foreign { HasCleanDisk (state S.Store conn.new) → result ≡ Err TableFault.Foreign → IsTrue (state S.Store conn.old).is_open × ((h : History) → ¬ Rows 2 (state S.Store conn.old).now.trees h) }
    ensures survives { Survives (state S.Store conn.old) (state S.Store conn.new) (CommitsStep 2 (state S.Store conn.old)) }
{
    let mut tx = begin(conn);
    raise_third(alloc, &mut tx)?;
    commit(tx)
}
