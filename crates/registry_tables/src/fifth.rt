//! The step from the fourth schema to the newest.

ghost use Rattle.std.specs.Prelude.{◌≡◌, false, IsTrue, OnOk, Err};
ghost use Rattle.sqlite.specs.State.{HasCleanDisk, Survives};
ghost use Rattle.sqlite.specs.Held.{state};
ghost use Rattle.table_laws.specs.Inside.{CommitsNothing};
ghost use Rattle.registry_rules.specs.History.{History};
ghost use Rattle.registry_tables.specs.Known.{SaysFourth};
ghost use Rattle.registry_tables.specs.Rows.{Rows};
ghost use Rattle.registry_tables.specs.Raising.{Raises, CommitsStep, IsMadeBy};

use crate::beginning::begin;
use crate::committing::commit;
use crate::marked::newest_meta;
use crate::times::fill_times;
use registry_rows::put_meta;
use registry_schema::{TableFault, add_fifth};
use sqlite::{Alter, Connection, Transaction};
use std::alloc::Global;

// Creates the tables of the fifth schema, and fills them from the record.
fn raise_fifth<S: Alter>(alloc: Global, tx: &mut Transaction<'_, S>) -> Result<(), TableFault>
    ensures same_reference { tx.new.conn.ghost_name ≡ tx.old.conn.ghost_name }
    ensures raised { HasCleanDisk (state S.Store tx.new.conn.now) → IsTrue (state S.Store tx.old.conn.now).in_transaction → Raises 4 (state S.Store tx.old.conn.now) (state S.Store tx.new.conn.now) result }
    ensures named { HasCleanDisk (state S.Store tx.new.conn.now) → IsTrue (state S.Store tx.old.conn.now).in_transaction → OnOk result (SaysFourth (state S.Store tx.old.conn.now).now) }
    ensures survives { CommitsNothing (state S.Store tx.old.conn.now) (state S.Store tx.new.conn.now) }
{
    add_fifth(tx)?;
    let meta = newest_meta(alloc, tx, 4)?;
    put_meta(tx, 5, meta.vendor, &meta.name)?;
    fill_times(alloc, tx)
}

/// Takes the step in one transaction with one commit.
pub(crate) fn fourth_to_newest<S: Alter>(
    alloc: Global,
    conn: &mut Connection<S>,
) -> Result<(), TableFault>
    requires { conn.old.in_transaction ≡ false }
    ensures idle { conn.new.in_transaction ≡ false }
    ensures made { HasCleanDisk (state S.Store conn.new) → OnOk result (IsMadeBy (CommitsStep 4 (state S.Store conn.old)) (state S.Store conn.new)) }
    ensures named { HasCleanDisk (state S.Store conn.new) → OnOk result (SaysFourth (state S.Store conn.old).now) }
    ensures foreign { HasCleanDisk (state S.Store conn.new) → result ≡ Err TableFault.Foreign → IsTrue (state S.Store conn.old).is_open × ((h : History) → ¬ Rows 4 (state S.Store conn.old).now.trees h) }
    ensures survives { Survives (state S.Store conn.old) (state S.Store conn.new) (CommitsStep 4 (state S.Store conn.old)) }
{
    let mut tx = begin(conn);
    raise_fifth(alloc, &mut tx)?;
    commit(tx)
}
