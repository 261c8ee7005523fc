//! The record of accepted requests.

ghost use Rattle.std.specs.Prelude.{◌≡◌, ◌≢◌, false, List, ℕ, Option, map, take, drop, slice_get, Some, IfOk, Err};
ghost use Rattle.std.specs.List.{AllByRecursion};
ghost use Rattle.sqlite.specs.Held.{state};
ghost use Rattle.registry_rules.specs.Accepted.{AreValid, accepted_of};
ghost use Rattle.registry_rules.specs.declared.accepted.Accepted.{Accepted as AcceptedValue};
ghost use Rattle.registry_tables.specs.Calls.{IsLookUp};
ghost use Rattle.registry_tables.specs.Finds.{ReadsHistory};
ghost use Rattle.registry_tables.specs.Rows.{kept_row_of, timed, HasValidOrder};

use crate::TableFault;
use crate::beginning::begin;
use crate::head::copy_of;
use registry_rows::{DigestRow, KeptRow, digests_after, kept_after};
use registry_rules::{Accepted, Request, order_of_form};
use sqlite::{Alter, Connection, Transaction};
use std::alloc::Global;
use usbnum_core::{NoMemory, Time};

// The accepted request of a row, as one without a time, or None if its order is that of no canonical
// form.
pub(crate) fn accepted_of_row(alloc: Global, row: &KeptRow) -> Result<Option<Accepted>, NoMemory>
    ensures { (accepted : AcceptedValue) → HasValidOrder accepted → row.now ≡ kept_row_of accepted → IfOk result (λ read. read ≡ Some (timed accepted None)) }
{
    let caller = row.caller.clone()?;
    let key = row.key.clone()?;
    let reply = row.kept.reply.clone()?;
    let Some(order) = order_of_form(alloc, &row.kept.order)? else {
        return Ok(None);
    };
    let request = Request {
        caller,
        key,
        order,
        time: None,
    };
    Ok(Some(Accepted { request, reply }))
}

// The accepted request with this time.
fn timed(accepted: Accepted, time: Option<Time>) -> Accepted
    ensures { result ≡ timed accepted time }
{
    let mut accepted = accepted;
    accepted.request.time = time;
    accepted
}

// The time in the digest's row at this place.
fn time_at(digests: &[(u32, DigestRow)], at: usize) -> Result<Option<Time>, TableFault>
    ensures time { (times : List (Option (List ℕ))) → map (λ d. d.1.time) digests.now ≡ times → IfOk result (λ time. slice_get times at ≡ Some time) }
    ensures kind { result ≢ Err TableFault.Foreign }
{
    let Some((_, digest)) = digests.get(at) else {
        return Err(TableFault::Store);
    };
    copy_of(&digest.time)
}

// The accepted requests of the rows, in their order, with the times of the digests.
pub(crate) fn accepted_from(
    alloc: Global,
    rows: &[KeptRow],
    digests: &[(u32, DigestRow)],
) -> Result<Vec<Accepted>, TableFault>
    ensures reads { (values : List AcceptedValue) → AllByRecursion HasValidOrder values → rows.now ≡ map kept_row_of values
        → map (λ d. d.1.time) digests.now ≡ map (λ accepted. accepted.request.time) values → IfOk result (λ all. all.items ≡ values) }
    ensures kind { result ≢ Err TableFault.Foreign }
{
    let mut all = Vec::new(alloc);
    for (at, row) in rows.iter().enumerate() {
        let time = time_at(digests, at)?;
        match accepted_of_row(alloc, row) {
            Ok(Some(accepted)) => {
                if all.push(timed(accepted, time)).is_err() {
                    return Err(TableFault::NoMemory);
                }
            }
            Ok(None) => return Err(TableFault::Store),
            Err(_) => return Err(TableFault::NoMemory),
        }
    }
    Ok(all)
}

fn read_accepted<S: Alter>(
    alloc: Global,
    tx: &mut Transaction<'_, S>,
    after: u32,
    most: u32,
) -> Result<Vec<Accepted>, TableFault>
    ensures reads { ReadsHistory S.Store tx.old.conn tx.new.conn result (λ h list. AreValid h.deeds → list.items ≡ take most (drop after (accepted_of h.deeds))) }
{
    let rows = kept_after(alloc, tx, after, most)?;
    let digests = digests_after(alloc, tx, after, most)?;
    accepted_from(alloc, &rows, &digests)
}

/// Returns at most `most` accepted requests after the first `after`, oldest first, each with the
/// reply that it got and the time that it had. Reads the rows of these requests alone, and commits
/// nothing.
///
/// # Errors
///
/// `TableFault::Foreign` only if the tables hold the rows of no history in the newest schema,
/// `TableFault::NoMemory` if out of memory for the rows or the list, `TableFault::Store` if the
/// store refuses or fails, or if a row has the canonical form of no order.
pub fn accepted_after<S: Alter>(
    alloc: Global,
    conn: &mut Connection<S>,
    after: u32,
    most: u32,
) -> Result<Vec<Accepted>, TableFault>
    requires { conn.old.in_transaction ≡ false }
    ensures idle { conn.new.in_transaction ≡ false }
    ensures looked_up { IsLookUp (state S.Store conn.old) (state S.Store conn.new) result (λ h list. AreValid h.deeds → list.items ≡ take most (drop after (accepted_of h.deeds))) }
{
    let mut tx = begin(conn);
    let accepted = read_accepted(alloc, &mut tx, after, most);
    tx.rollback();
    accepted
}
