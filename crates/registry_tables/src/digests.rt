//! The digests of a record that has none yet, in the middle of a migration.

ghost use Rattle.std.specs.Prelude.{◌≡◌, ◌≢◌, ◌+◌, None, IsTrue, IfOk, OnOk, Err};
ghost use Rattle.sqlite.specs.State.{HasCleanDisk};
ghost use Rattle.sqlite.specs.Held.{state};
ghost use Rattle.table_laws.specs.Inside.{CommitsNothing};
ghost use Rattle.registry_rules.specs.declared.accepted.Accepted.{Accepted as AcceptedValue};
ghost use Rattle.registry_wire.specs.Digests.{line_digest};
ghost use Rattle.registry_wire.specs.Record.{accepted_line};
ghost use Rattle.registry_rows.specs.Tables.{Tables, Holds};
ghost use Rattle.registry_tables.specs.Rows.{kept_row_of, HasValidOrder};
ghost use Rattle.registry_tables.specs.Written.{FillsLines, FillsRest, FillsAll};

use crate::accepted::accepted_of_row;
use crate::head::{Head, founded_head, next_head};
use crate::written::{founding_of, read_written};
use registry_rows::{KeptRow, kept_after, put_digest};
use registry_schema::TableFault;
use sqlite::{Alter, Transaction};
use std::alloc::Global;
use usbnum_core::{Title, Vid};

// How many rows are read at a time: as many imports of the greatest size still fit in memory.
const PAGE: u32 = 64;

// Returns the head after the accepted request of the row, which has no time.
fn head_after_row(alloc: Global, head: &Head, row: &KeptRow) -> Result<Head, TableFault>
    ensures next { (accepted : AcceptedValue) → HasValidOrder accepted → row.now ≡ kept_row_of accepted → accepted.request.time ≡ None
        → IfOk result (λ next. (next.count ≡ head.now.count + 1) × (next.digest ≡ line_digest head.now.digest (accepted_line accepted))) }
    ensures kind { result ≢ Err TableFault.Foreign }
{
    match accepted_of_row(alloc, row) {
        Ok(Some(accepted)) => next_head(alloc, head, &accepted.request, &accepted.reply),
        Ok(None) => Err(TableFault::Store),
        Err(_) => Err(TableFault::NoMemory),
    }
}

// Writes the digests of the accepted requests of these rows, and returns the head after them.
fn put_page<S: Alter>(
    alloc: Global,
    tx: &mut Transaction<'_, S>,
    head: Head,
    rows: &[KeptRow],
) -> Result<Head, TableFault>
    ensures same_reference { tx.new.conn.ghost_name ≡ tx.old.conn.ghost_name }
    ensures filled { HasCleanDisk (state S.Store tx.new.conn.now) → IsTrue (state S.Store tx.old.conn.now).in_transaction → IsTrue (state S.Store tx.old.conn.now).is_open
        → IfOk result (λ next. FillsLines rows.now head next (state S.Store tx.old.conn.now) (state S.Store tx.new.conn.now)) }
    ensures kind { result ≢ Err TableFault.Foreign }
    ensures survives { CommitsNothing (state S.Store tx.old.conn.now) (state S.Store tx.new.conn.now) }
{
    let mut reached = head;
    for row in rows {
        let next = head_after_row(alloc, &reached, row)?;
        put_digest(tx, next.count, &None, &next.digest)?;
        reached = next;
    }
    Ok(reached)
}

// Writes the digests of all accepted requests after the head.
fn put_pages<S: Alter>(
    alloc: Global,
    tx: &mut Transaction<'_, S>,
    head: Head,
) -> Result<(), TableFault>
    ensures same_reference { tx.new.conn.ghost_name ≡ tx.old.conn.ghost_name }
    ensures filled { HasCleanDisk (state S.Store tx.new.conn.now) → IsTrue (state S.Store tx.old.conn.now).in_transaction → IsTrue (state S.Store tx.old.conn.now).is_open
        → OnOk result (FillsRest head (state S.Store tx.old.conn.now) (state S.Store tx.new.conn.now)) }
    ensures foreign { HasCleanDisk (state S.Store tx.new.conn.now) → IsTrue (state S.Store tx.old.conn.now).in_transaction → IsTrue (state S.Store tx.old.conn.now).is_open
        → result ≡ Err TableFault.Foreign → (t : Tables) → ¬ Holds (state S.Store tx.old.conn.now).now t }
    ensures survives { CommitsNothing (state S.Store tx.old.conn.now) (state S.Store tx.new.conn.now) }
{
    let mut reached = head;
    for _ in 0..67108864u32 {
        let rows = kept_after(alloc, tx, reached.count, PAGE)?;
        if rows.is_empty() {
            return Ok(());
        }
        reached = put_page(alloc, tx, reached, &rows)?;
    }
    // No record has as many pages.
    Err(TableFault::Store)
}

/// Writes the digests of the whole record into a table that is empty. The vendor and the name are
/// those of the founding.
///
/// # Errors
///
/// `TableFault::Foreign` only if a row stores no value of its table. `TableFault::NoMemory` if out of
/// memory, `TableFault::Store` if the store refuses or fails, or if a row is that of no accepted
/// request.
pub(crate) fn fill_digests<S: Alter>(
    alloc: Global,
    tx: &mut Transaction<'_, S>,
    vendor: Vid,
    name: &Title,
) -> Result<(), TableFault>
    ensures same_reference { tx.new.conn.ghost_name ≡ tx.old.conn.ghost_name }
    ensures filled { HasCleanDisk (state S.Store tx.new.conn.now) → IsTrue (state S.Store tx.old.conn.now).in_transaction
        → OnOk result (FillsAll vendor name.now (state S.Store tx.old.conn.now) (state S.Store tx.new.conn.now)) }
    ensures foreign { HasCleanDisk (state S.Store tx.new.conn.now) → IsTrue (state S.Store tx.old.conn.now).in_transaction → result ≡ Err TableFault.Foreign
        → IsTrue (state S.Store tx.old.conn.now).is_open × ((t : Tables) → ¬ Holds (state S.Store tx.old.conn.now).now t) }
    ensures survives { CommitsNothing (state S.Store tx.old.conn.now) (state S.Store tx.new.conn.now) }
{
    let written = read_written(alloc, tx)?;
    let founding = founding_of(alloc, vendor, name, written)?;
    let head = founded_head(alloc, &founding)?;
    put_digest(tx, 0, &None, &head.digest)?;
    put_pages(alloc, tx, head)
}
