//! Migration from an older schema to the newest.

ghost use Rattle.std.specs.Prelude.{◌≡◌, ◌⊎◌, ℕ, Ok, false, IsTrue, OnOk, Err};
ghost use Rattle.sqlite.specs.State.{HasCleanDisk, Survives};
ghost use Rattle.sqlite.specs.Held.{state};
ghost use Rattle.table_laws.specs.Inside.{CommitsNothing, GoesOn};
ghost use Rattle.table_laws.specs.Making.{HasTables};
ghost use Rattle.registry_schema.specs.Texts.{texts_5};
ghost use Rattle.registry_schema.specs.Steps.{WritesTables};
ghost use Rattle.registry_rules.specs.History.{History};
ghost use Rattle.registry_tables.specs.Known.{SaysFirst, IsNamed, IsKnownOlder};
ghost use Rattle.registry_tables.specs.Rows.{newest, Rows};
ghost use Rattle.registry_tables.specs.Raising.{IsMadeBy, CommitsTwo, EndsTwo, CommitsLater, IsAtRest, IsNamedOlder, StaysOpen};

use crate::beginning::begin;
use crate::fifth::fourth_to_newest;
use crate::fourth::third_to_newest;
use crate::second::first_to_second;
use crate::third::second_to_newest;
use registry_schema::{TableFault, version_of};
use sqlite::{Alter, Connection, Transaction};
use std::alloc::Global;

// Takes two steps, each in its own transaction.
fn first_to_newest<S: Alter>(alloc: Global, conn: &mut Connection<S>) -> Result<(), TableFault>
    requires { conn.old.in_transaction ≡ false }
    ensures idle { conn.new.in_transaction ≡ false }
    ensures made { HasCleanDisk (state S.Store conn.new) → OnOk result (IsMadeBy (EndsTwo (state S.Store conn.old)) (state S.Store conn.new)) }
    ensures named { HasCleanDisk (state S.Store conn.new) → OnOk result (SaysFirst (state S.Store conn.old).now) }
    ensures foreign { HasCleanDisk (state S.Store conn.new) → result ≡ Err TableFault.Foreign → IsTrue (state S.Store conn.old).is_open × ((h : History) → ¬ Rows 1 (state S.Store conn.old).now.trees h) }
    ensures survives { Survives (state S.Store conn.old) (state S.Store conn.new) (CommitsTwo (state S.Store conn.old)) }
{
    first_to_second(alloc, conn)?;
    second_to_newest(alloc, conn)
}

// Checks that the store works, with a statement that reads no table.
fn try_store<S: Alter>(tx: &mut Transaction<'_, S>) -> Result<(), TableFault>
    ensures writes { WritesTables S.Store tx.old.conn tx.new.conn result GoesOn }
{
    tx.query_all("SELECT 1", &[])?;
    Ok(())
}

// Returns the fault for tables of no schema: Foreign if the store still works. Writes nothing.
fn unknown<S: Alter>(conn: &mut Connection<S>) -> TableFault
    requires { conn.old.in_transaction ≡ false }
    ensures idle { conn.new.in_transaction ≡ false }
    ensures open { HasCleanDisk (state S.Store conn.new) → result ≡ TableFault.Foreign → IsTrue (state S.Store conn.old).is_open }
    ensures survives { CommitsNothing (state S.Store conn.old) (state S.Store conn.new) }
{
    let mut tx = begin(conn);
    let ran = try_store(&mut tx);
    tx.rollback();
    match ran {
        Ok(()) => TableFault::Foreign,
        Err(fault) => fault,
    }
}

/// Brings the tables of an older schema to the newest: those of the first to the second, and those of
/// the others to the newest, each step in its own transaction. Commits nothing if the names of the
/// tables are not those of an older schema.
///
/// `TableFault::Foreign` comes only if the tables hold the rows of no history in any schema. After
/// a fault a crash leaves the rows of the same history, in the schema that they had or a later one.
pub fn migrate<S: Alter>(alloc: Global, conn: &mut Connection<S>) -> Result<(), TableFault>
    requires { conn.old.in_transaction ≡ false }
    ensures idle { conn.new.in_transaction ≡ false }
    ensures raised { HasCleanDisk (state S.Store conn.new) → OnOk result (StaysOpen (state S.Store conn.old) (state S.Store conn.new)
        × ((h : History) (version : ℕ) → IsAtRest version (state S.Store conn.old) h → IsAtRest newest (state S.Store conn.new) h)) }
    // Only tables with the names of a schema are accepted, and in an older one `meta` says its version.
    ensures known { HasCleanDisk (state S.Store conn.new) → OnOk result (IsKnownOlder (state S.Store conn.old).now ⊎ (IsNamed newest (state S.Store conn.old).now × (conn.new ≡ conn.old))) }
    ensures newest { IsTrue (state S.Store conn.old).is_open → HasTables texts_5 (state S.Store conn.old).now.trees → (result ≡ Ok _) × (conn.new ≡ conn.old) }
    ensures foreign { HasCleanDisk (state S.Store conn.new) → result ≡ Err TableFault.Foreign → IsTrue (state S.Store conn.old).is_open × ((h : History) (version : ℕ) → ¬ Rows version (state S.Store conn.old).now.trees h) }
    ensures survives { Survives (state S.Store conn.old) (state S.Store conn.new) (CommitsLater (state S.Store conn.old)) }
    ensures untouched { IsNamedOlder (state S.Store conn.old) ⊎ CommitsNothing (state S.Store conn.old) (state S.Store conn.new) }
{
    let version = version_of(conn);
    if version == Some(1) {
        first_to_newest(alloc, conn)
    } else if version == Some(2) {
        second_to_newest(alloc, conn)
    } else if version == Some(3) {
        third_to_newest(alloc, conn)
    } else if version == Some(4) {
        fourth_to_newest(alloc, conn)
    } else if version == Some(5) {
        Ok(())
    } else {
        Err(unknown(conn))
    }
}
