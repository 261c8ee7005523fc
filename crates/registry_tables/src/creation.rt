//! Creates the tables of a new registry.

ghost use Rattle.std.specs.Prelude.{◌≡◌, ◌≢◌, false, IsTrue, OnOk, Err};
ghost use Rattle.sqlite.specs.State.{HasCleanDisk, Survives};
ghost use Rattle.sqlite.specs.Held.{state};
ghost use Rattle.table_laws.specs.Making.{no_schema};
ghost use Rattle.registry_rules.specs.History.{founded};
ghost use Rattle.registry_wire.specs.Digests.{founding_digest};
ghost use Rattle.registry_tables.specs.Rows.{newest, Rows};

use crate::TableFault;
use crate::beginning::begin;
use crate::committing::commit;
use crate::founding::write_founding;
use registry_rules::Founding;
use registry_schema::{create_tables, is_empty};
use sqlite::{Alter, Connection};
use usbnum_core::Digest;

// Creates the tables and writes the founding's rows, in one transaction.
fn create_in_empty<S: Alter>(
    conn: &mut Connection<S>,
    founding: &Founding,
    digest: &Digest,
) -> Result<(), TableFault>
    requires digest { digest.now ≡ founding_digest founding.now }
    requires idle { conn.old.in_transaction ≡ false }
    requires empty { (state S.Store conn.old).now.schema ≡ no_schema }
    ensures idle { conn.new.in_transaction ≡ false }
    ensures made { HasCleanDisk (state S.Store conn.new) → OnOk result (IsTrue (state S.Store conn.old).is_open × ((state S.Store conn.old).now.schema ≡ no_schema)
        × IsTrue (state S.Store conn.new).is_open × ((state S.Store conn.new).now ≡ (state S.Store conn.new).committed)
        × Rows newest (state S.Store conn.new).committed.trees (founded founding.now)) }
    ensures kind { result ≢ Err TableFault.Foreign }
    ensures survives { Survives (state S.Store conn.old) (state S.Store conn.new) (λ db. IsTrue (state S.Store conn.old).is_open × ((state S.Store conn.old).now.schema ≡ no_schema)
        × Rows newest db (founded founding.now)) }
{
    let mut tx = begin(conn);
    create_tables(&mut tx)?;
    write_founding(&mut tx, founding, digest)?;
    commit(tx)
}

/// Creates all tables and writes the founding's rows and its digest, in one transaction.
///
/// # Errors
///
/// If the database has any table, index or view it fails, and commits nothing. `TableFault::NoMemory` if
/// the store is out of memory, and `TableFault::Store` if it refuses or fails; a crash then leaves
/// what it could before, or all of it. Never `TableFault::Foreign`.
pub fn create<S: Alter>(
    conn: &mut Connection<S>,
    founding: &Founding,
    digest: &Digest,
) -> Result<(), TableFault>
    requires idle { conn.old.in_transaction ≡ false }
    requires digest { digest.now ≡ founding_digest founding.now }
    ensures idle { conn.new.in_transaction ≡ false }
    ensures empty { OnOk result ((state S.Store conn.old).now.schema ≡ no_schema) }
    ensures made { HasCleanDisk (state S.Store conn.new) → OnOk result (IsTrue (state S.Store conn.old).is_open × ((state S.Store conn.old).now.schema ≡ no_schema)
        × IsTrue (state S.Store conn.new).is_open × ((state S.Store conn.new).now ≡ (state S.Store conn.new).committed)
        × Rows newest (state S.Store conn.new).committed.trees (founded founding.now)) }
    ensures kind { result ≢ Err TableFault.Foreign }
    ensures survives { Survives (state S.Store conn.old) (state S.Store conn.new) (λ db. IsTrue (state S.Store conn.old).is_open × ((state S.Store conn.old).now.schema ≡ no_schema)
        × Rows newest db (founded founding.now)) }
{
    if is_empty(conn) {
        create_in_empty(conn, founding, digest)
    } else {
        Err(TableFault::Store)
    }
}
