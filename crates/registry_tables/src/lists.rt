//! Lists of all organisations, petitions, numbers and vendors.

ghost use Rattle.std.specs.Prelude.{◌≡◌, false};
ghost use Rattle.sqlite.specs.Held.{state};
ghost use Rattle.registry_tables.specs.Calls.{IsLookUp, IsStoreFault};
ghost use Rattle.registry_tables.specs.Lists.{IsOrgList, IsPetitionList, IsOpenPetitionList, IsNumberList, IsVendorList};

use crate::TableFault;
use crate::beginning::begin;
use registry_rules::{Entry, Org, Petition, Vendor};
use sqlite::{Alter, Connection};
use std::alloc::Global;
use usbnum_core::Number;

/// Returns all organisations, in order of slug. Commits nothing.
///
/// # Errors
///
/// `TableFault::Foreign` only if the tables hold the rows of no history in the newest schema,
/// `TableFault::NoMemory` if out of memory for the rows or the list, `TableFault::Store` if the
/// store refuses or fails.
pub fn list_orgs<S: Alter>(alloc: Global, conn: &mut Connection<S>) -> Result<Vec<Org>, TableFault>
    requires { conn.old.in_transaction ≡ false }
    ensures idle { conn.new.in_transaction ≡ false }
    ensures looked_up { IsLookUp (state S.Store conn.old) (state S.Store conn.new) result (λ h list. IsOrgList h list.items) }
    ensures store { IsStoreFault (state S.Store conn.old) (state S.Store conn.new) result }
{
    let mut tx = begin(conn);
    let orgs = registry_rows::list_orgs(alloc, &mut tx);
    tx.rollback();
    orgs
}

/// Returns all petitions, in order of number. Commits nothing.
///
/// # Errors
///
/// `TableFault::Foreign` only if the tables hold the rows of no history in the newest schema,
/// `TableFault::NoMemory` if out of memory for the rows or the list, `TableFault::Store` if the
/// store refuses or fails.
pub fn list_petitions<S: Alter>(
    alloc: Global,
    conn: &mut Connection<S>,
) -> Result<Vec<(u32, Petition)>, TableFault>
    requires { conn.old.in_transaction ≡ false }
    ensures idle { conn.new.in_transaction ≡ false }
    ensures looked_up { IsLookUp (state S.Store conn.old) (state S.Store conn.new) result (λ h list. IsPetitionList h list.items) }
    ensures store { IsStoreFault (state S.Store conn.old) (state S.Store conn.new) result }
{
    let mut tx = begin(conn);
    let petitions = registry_rows::list_petitions(alloc, &mut tx);
    tx.rollback();
    petitions
}

/// Returns the open petitions, in order of number. Commits nothing.
///
/// # Errors
///
/// `TableFault::Foreign` only if the tables hold the rows of no history in the newest schema,
/// `TableFault::NoMemory` if out of memory for the rows or the list, `TableFault::Store` if the
/// store refuses or fails.
pub fn list_open_petitions<S: Alter>(
    alloc: Global,
    conn: &mut Connection<S>,
) -> Result<Vec<(u32, Petition)>, TableFault>
    requires { conn.old.in_transaction ≡ false }
    ensures idle { conn.new.in_transaction ≡ false }
    ensures looked_up { IsLookUp (state S.Store conn.old) (state S.Store conn.new) result (λ h list. IsOpenPetitionList h list.items) }
    ensures store { IsStoreFault (state S.Store conn.old) (state S.Store conn.new) result }
{
    let mut tx = begin(conn);
    let petitions = registry_rows::list_open_petitions(alloc, &mut tx);
    tx.rollback();
    petitions
}

/// Returns all numbers that have an owner, in order of vendor and then product. Commits nothing.
///
/// # Errors
///
/// `TableFault::Foreign` only if the tables hold the rows of no history in the newest schema,
/// `TableFault::NoMemory` if out of memory for the rows or the list, `TableFault::Store` if the
/// store refuses or fails.
pub fn list_numbers<S: Alter>(
    alloc: Global,
    conn: &mut Connection<S>,
) -> Result<Vec<(Number, Entry)>, TableFault>
    requires { conn.old.in_transaction ≡ false }
    ensures idle { conn.new.in_transaction ≡ false }
    ensures looked_up { IsLookUp (state S.Store conn.old) (state S.Store conn.new) result (λ h list. IsNumberList h list.items) }
    ensures store { IsStoreFault (state S.Store conn.old) (state S.Store conn.new) result }
{
    let mut tx = begin(conn);
    let numbers = registry_rows::list_entries(alloc, &mut tx);
    tx.rollback();
    numbers
}

/// Returns all vendors, the founding one included, in order of vendor ID. Commits nothing.
///
/// # Errors
///
/// `TableFault::Foreign` only if the tables hold the rows of no history in the newest schema,
/// `TableFault::NoMemory` if out of memory for the rows or the list, `TableFault::Store` if the
/// store refuses or fails.
pub fn list_vendors<S: Alter>(
    alloc: Global,
    conn: &mut Connection<S>,
) -> Result<Vec<Vendor>, TableFault>
    requires { conn.old.in_transaction ≡ false }
    ensures idle { conn.new.in_transaction ≡ false }
    ensures looked_up { IsLookUp (state S.Store conn.old) (state S.Store conn.new) result (λ h list. IsVendorList h list.items) }
    ensures store { IsStoreFault (state S.Store conn.old) (state S.Store conn.new) result }
{
    let mut tx = begin(conn);
    let vendors = registry_rows::list_vendors(alloc, &mut tx);
    tx.rollback();
    vendors
}
