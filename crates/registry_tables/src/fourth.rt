//! The step from the third schema to the newest.

ghost use Rattle.std.specs.Prelude.{◌≡◌, false, IsTrue, OnOk, Err};
ghost use Rattle.sqlite.specs.State.{HasCleanDisk, Survives};
ghost use Rattle.sqlite.specs.Held.{state};
ghost use Rattle.table_laws.specs.Inside.{CommitsNothing};
ghost use Rattle.registry_rules.specs.History.{History};
ghost use Rattle.registry_tables.specs.Known.{SaysThird};
ghost use Rattle.registry_tables.specs.Rows.{Rows};
ghost use Rattle.registry_tables.specs.Raising.{Raises, CommitsStep, IsMadeBy};

use crate::beginning::begin;
use crate::committing::commit;
use crate::digests::fill_digests;
use crate::marked::newest_meta;
use registry_rows::put_meta;
use registry_schema::{TableFault, add_fourth_and_fifth};
use sqlite::{Alter, Connection, Transaction};
use std::alloc::Global;

// Creates the tables of the later schemas, and fills the digests. No request has a time.
fn raise_fourth<S: Alter>(alloc: Global, tx: &mut Transaction<'_, S>) -> Result<(), TableFault>
    ensures same_reference { tx.new.conn.ghost_name ≡ tx.old.conn.ghost_name }
    ensures raised { HasCleanDisk (state S.Store tx.new.conn.now) → IsTrue (state S.Store tx.old.conn.now).in_transaction → Raises 3 (state S.Store tx.old.conn.now) (state S.Store tx.new.conn.now) result }
    ensures named { HasCleanDisk (state S.Store tx.new.conn.now) → IsTrue (state S.Store tx.old.conn.now).in_transaction → OnOk result (SaysThird (state S.Store tx.old.conn.now).now) }
    ensures survives { CommitsNothing (state S.Store tx.old.conn.now) (state S.Store tx.new.conn.now) }
{
    add_fourth_and_fifth(tx)?;
    let meta = newest_meta(alloc, tx, 3)?;
    put_meta(tx, 5, meta.vendor, &meta.name)?;
    fill_digests(alloc, tx, meta.vendor, &meta.name)
}

/// Takes the step in one transaction with one commit.
pub(crate) fn third_to_newest<S: Alter>(
    alloc: Global,
    conn: &mut Connection<S>,
) -> Result<(), TableFault>
    requires { conn.old.in_transaction ≡ false }
    ensures idle { conn.new.in_transaction ≡ false }
    ensures made { HasCleanDisk (state S.Store conn.new) → OnOk result (IsMadeBy (CommitsStep 3 (state S.Store conn.old)) (state S.Store conn.new)) }
    ensures named { HasCleanDisk (state S.Store conn.new) → OnOk result (SaysThird (state S.Store conn.old).now) }
    ensures foreign { HasCleanDisk (state S.Store conn.new) → result ≡ Err TableFault.Foreign → IsTrue (state S.Store conn.old).is_open × ((h : History) → ¬ Rows 3 (state S.Store conn.old).now.trees h) }
    ensures survives { Survives (state S.Store conn.old) (state S.Store conn.new) (CommitsStep 3 (state S.Store conn.old)) }
{
    let mut tx = begin(conn);
    raise_fourth(alloc, &mut tx)?;
    commit(tx)
}
