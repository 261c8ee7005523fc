//! The changes of a deed.

ghost use Rattle.std.specs.Prelude.{◌≡◌, ◌≢◌, IsTrue, OnOk, Err};
ghost use Rattle.sqlite.specs.State.{HasCleanDisk};
ghost use Rattle.sqlite.specs.Held.{state};
ghost use Rattle.table_laws.specs.Inside.{CommitsNothing, GoesOn};
ghost use Rattle.registry_schema.specs.Steps.{WritesTables};
ghost use Rattle.registry_rules.specs.History.{History};
ghost use Rattle.registry_rules.specs.Records.{LeadsTo};
ghost use Rattle.registry_rules.specs.Run.{Legal};
ghost use Rattle.registry_tables.specs.Changed.{Makes};
ghost use Rattle.registry_tables.specs.Rows.{newest, HoldsRows, HoldsUnkept};

use crate::TableFault;
use crate::spans::{release_span, reserve_span};
use registry_rows::{
    put_entry, put_licence, put_org, put_petition, put_reason, put_vendor, set_card, set_held,
};
use registry_rules::Change;
use sqlite::{Alter, Transaction};
use std::alloc::Global;

// Makes one change.
fn make<S: Alter>(
    alloc: Global,
    tx: &mut Transaction<'_, S>,
    change: &Change,
) -> Result<(), TableFault>
    ensures writes { WritesTables S.Store tx.old.conn tx.new.conn result (Makes change.now) }
{
    match change {
        Change::PutOrg(org) => put_org(tx, org),
        Change::PutPetition { id, petition } => put_petition(tx, *id, petition),
        Change::PutEntry { number, entry } => put_entry(tx, *number, entry),
        Change::SetHeld { number, held } => set_held(tx, *number, *held),
        Change::SetCard { number, card } => set_card(tx, *number, card),
        Change::ReserveSpan { vid, span } => reserve_span(alloc, tx, *vid, span),
        Change::ReleaseSpan { vid, span } => release_span(alloc, tx, *vid, span),
        Change::PutVendor { vid, name } => put_vendor(tx, *vid, name),
        Change::PutLicence(name) => put_licence(tx, name),
        Change::PutReason { id, reason } => put_reason(tx, *id, reason),
    }
}

/// Makes the changes of a deed in order, all but its kept reply, which `keep_reply` writes.
///
/// # Errors
///
/// `TableFault::NoMemory` if out of memory, `TableFault::Store` if the store refuses or fails, or if
/// a row that is to be changed stores no value; never `TableFault::Foreign`. Some of the changes may
/// be made then, so roll the transaction back.
pub fn store<S: Alter>(
    alloc: Global,
    tx: &mut Transaction<'_, S>,
    changes: &[Change],
) -> Result<(), TableFault>
    ensures same_reference { tx.new.conn.ghost_name ≡ tx.old.conn.ghost_name }
    ensures goes_on { HasCleanDisk (state S.Store tx.new.conn.now) → IsTrue (state S.Store tx.old.conn.now).in_transaction → IsTrue (state S.Store tx.old.conn.now).is_open
        → OnOk result (GoesOn (state S.Store tx.old.conn.now) (state S.Store tx.new.conn.now)) }
    ensures rows { HasCleanDisk (state S.Store tx.new.conn.now) → IsTrue (state S.Store tx.old.conn.now).in_transaction → IsTrue (state S.Store tx.old.conn.now).is_open
        → OnOk result ((h after : History) → Legal h → Legal after → after.founding ≡ h.founding → HoldsRows newest (state S.Store tx.old.conn.now).now h
        → LeadsTo changes.now h after → HoldsUnkept (state S.Store tx.new.conn.now).now h after) }
    ensures kind { result ≢ Err TableFault.Foreign }
    ensures survives { CommitsNothing (state S.Store tx.old.conn.now) (state S.Store tx.new.conn.now) }
{
    for change in changes {
        make(alloc, tx, change)?;
    }
    Ok(())
}
