//! The times at which petitions were opened and closed.

ghost use Rattle.std.specs.Prelude.{◌≡◌, ◌≢◌, ◌+◌, ℕ, [], ◌∷◌, IsTrue, IfOk, IfSome, OnOk, Err};
ghost use Rattle.sqlite.specs.State.{HasCleanDisk, IsUnchanged};
ghost use Rattle.sqlite.specs.Held.{state};
ghost use Rattle.table_laws.specs.Inside.{CommitsNothing, GoesOn};
ghost use Rattle.registry_rules.specs.Query.{opened_by, closed_by};
ghost use Rattle.registry_rows.specs.Tables.{Tables, Holds};
ghost use Rattle.registry_tables.specs.Calls.{WritesTablesOpen};
ghost use Rattle.registry_tables.specs.Times.{times_with, PutsTimes, opened_next, asked_then, closed_named, PutsPage, IsPageOf, PutsRecord};

use crate::accepted::accepted_from;
use registry_rows::{digests_after, kept_after, put_closed, put_opened};
use registry_rules::{Accepted, Act, Order};
use registry_schema::TableFault;
use sqlite::{Alter, Transaction};
use std::alloc::Global;
use usbnum_core::Time;

// How many accepted requests are read at a time: as many imports of the greatest size still fit in
// memory.
const PAGE: u32 = 64;

// The petition that the act opens.
fn opened_by(act: &Act) -> Option<u32>
    ensures { result ≡ opened_by act.now }
{
    match act {
        Act::Asked { id, petition: _ } => Some(*id),
        _ => None,
    }
}

// The petition that the act closes.
fn closed_by(act: &Act) -> Option<u32>
    ensures { result ≡ closed_by act.now }
{
    match act {
        Act::Granted {
            id,
            petition: _,
            name: _,
        } => Some(*id),
        Act::Declined {
            id,
            petition: _,
            reason: _,
        } => Some(*id),
        Act::Withdrawn { id, petition: _ } => Some(*id),
        _ => None,
    }
}

// Writes the time at which a petition was opened, if there are both.
fn put_opening<S: Alter>(
    tx: &mut Transaction<'_, S>,
    petition: Option<u32>,
    time: &Option<Time>,
) -> Result<(), TableFault>
    ensures writes { WritesTablesOpen S.Store tx.old.conn tx.new.conn result (λ old new. GoesOn old new × ((t : Tables) → Holds old.now t → Holds new.now (record t { opened = times_with petition time.now t.opened }))) }
{
    match petition {
        Some(petition) => match time {
            Some(time) => put_opened(tx, petition, time),
            None => Ok(()),
        },
        None => Ok(()),
    }
}

// Writes the time at which a petition was closed, if there are both.
fn put_closing<S: Alter>(
    tx: &mut Transaction<'_, S>,
    petition: Option<u32>,
    time: &Option<Time>,
) -> Result<(), TableFault>
    ensures writes { WritesTablesOpen S.Store tx.old.conn tx.new.conn result (λ old new. GoesOn old new × ((t : Tables) → Holds old.now t → Holds new.now (record t { closed = times_with petition time.now t.closed }))) }
{
    match petition {
        Some(petition) => match time {
            Some(time) => put_closed(tx, petition, time),
            None => Ok(()),
        },
        None => Ok(()),
    }
}

// Writes the time of a request that opens and closes these petitions. Writes nothing for a request
// that does neither or has no time.
fn put_times<S: Alter>(
    tx: &mut Transaction<'_, S>,
    opened: Option<u32>,
    closed: Option<u32>,
    time: &Option<Time>,
) -> Result<(), TableFault>
    ensures writes { WritesTablesOpen S.Store tx.old.conn tx.new.conn result (PutsTimes opened closed time.now) }
{
    put_opening(tx, opened, time)?;
    put_closing(tx, closed, time)
}

/// Writes the time of a request with this act, if it opens or closes a petition and has a time.
pub(crate) fn put_act_times<S: Alter>(
    tx: &mut Transaction<'_, S>,
    act: &Act,
    time: &Option<Time>,
) -> Result<(), TableFault>
    ensures writes { WritesTablesOpen S.Store tx.old.conn tx.new.conn result (PutsTimes (opened_by act.now) (closed_by act.now) time.now) }
{
    put_times(tx, opened_by(act), closed_by(act), time)
}

/// A place in the record: after so many requests, which opened so many petitions.
#[derive(Clone, Copy, Debug, Drop)]
pub(crate) struct Place {
    pub requests: u32,
    pub petitions: u32,
}

// The number of petitions after the order is accepted.
fn asked_then(order: &Order, petitions: u32) -> Option<u32>
    ensures { IfSome result (λ count. count ≡ asked_then order.now petitions) }
{
    match order {
        Order::Ask(_) => petitions.checked_add(1),
        _ => Some(petitions),
    }
}

// The petition that the order opens, if there are so many petitions then.
fn opened_then(order: &Order, count: u32) -> Option<u32>
    ensures { (petitions : ℕ) → count ≡ asked_then order.now petitions → result ≡ opened_next order.now petitions }
{
    match order {
        Order::Ask(_) => Some(count),
        _ => None,
    }
}

// The petition that the order closes.
fn closed_named(order: &Order) -> Option<u32>
    ensures { result ≡ closed_named order.now }
{
    match order {
        Order::Grant(it) => Some(it.petition),
        Order::Decline(it) => Some(it.petition),
        Order::Withdraw(it) => Some(it.petition),
        _ => None,
    }
}

// The place after one more accepted request.
fn next_place(place: Place, accepted: &Accepted) -> Result<Place, TableFault>
    ensures next { IfOk result (λ next. (next.requests ≡ place.requests + 1) × (next.petitions ≡ asked_then accepted.now.request.order place.petitions)) }
    ensures kind { result ≢ Err TableFault.Foreign }
{
    let Some(requests) = place.requests.checked_add(1) else {
        return Err(TableFault::Store);
    };
    let Some(petitions) = asked_then(&accepted.request.order, place.petitions) else {
        return Err(TableFault::Store);
    };
    Ok(Place {
        requests,
        petitions,
    })
}

// Writes the time of an accepted request, and returns the place after it.
fn put_request<S: Alter>(
    tx: &mut Transaction<'_, S>,
    place: Place,
    accepted: &Accepted,
) -> Result<Place, TableFault>
    ensures same_reference { tx.new.conn.ghost_name ≡ tx.old.conn.ghost_name }
    ensures put { HasCleanDisk (state S.Store tx.new.conn.now) → IsTrue (state S.Store tx.old.conn.now).in_transaction → IsTrue (state S.Store tx.old.conn.now).is_open
        → IfOk result (λ next. PutsPage place (accepted.now ∷ []) next (state S.Store tx.old.conn.now) (state S.Store tx.new.conn.now)) }
    ensures kind { result ≢ Err TableFault.Foreign }
    ensures survives { CommitsNothing (state S.Store tx.old.conn.now) (state S.Store tx.new.conn.now) }
{
    let next = next_place(place, accepted)?;
    let order = &accepted.request.order;
    put_times(
        tx,
        opened_then(order, next.petitions),
        closed_named(order),
        &accepted.request.time,
    )?;
    Ok(next)
}

// Writes the times of these accepted requests, and returns the place after them.
fn put_page<S: Alter>(
    tx: &mut Transaction<'_, S>,
    place: Place,
    page: &[Accepted],
) -> Result<Place, TableFault>
    ensures same_reference { tx.new.conn.ghost_name ≡ tx.old.conn.ghost_name }
    ensures put { HasCleanDisk (state S.Store tx.new.conn.now) → IsTrue (state S.Store tx.old.conn.now).in_transaction → IsTrue (state S.Store tx.old.conn.now).is_open
        → IfOk result (λ next. PutsPage place page.now next (state S.Store tx.old.conn.now) (state S.Store tx.new.conn.now)) }
    ensures kind { result ≢ Err TableFault.Foreign }
    ensures survives { CommitsNothing (state S.Store tx.old.conn.now) (state S.Store tx.new.conn.now) }
{
    let mut reached = place;
    for accepted in page {
        reached = put_request(tx, reached, accepted)?;
    }
    Ok(reached)
}

// Reads the accepted requests after the first `after`, with their times.
fn read_page<S: Alter>(
    alloc: Global,
    tx: &mut Transaction<'_, S>,
    after: u32,
    most: u32,
) -> Result<Vec<Accepted>, TableFault>
    ensures same_reference { tx.new.conn.ghost_name ≡ tx.old.conn.ghost_name }
    ensures read { HasCleanDisk (state S.Store tx.new.conn.now) → IsTrue (state S.Store tx.old.conn.now).in_transaction
        → IfOk result (λ page. GoesOn (state S.Store tx.old.conn.now) (state S.Store tx.new.conn.now)
        × ((t : Tables) → Holds (state S.Store tx.old.conn.now).now t → IsUnchanged (state S.Store tx.old.conn.now) (state S.Store tx.new.conn.now) × IsPageOf after most t page.items)) }
    ensures foreign { HasCleanDisk (state S.Store tx.new.conn.now) → IsTrue (state S.Store tx.old.conn.now).in_transaction → result ≡ Err TableFault.Foreign
        → (t : Tables) → ¬ Holds (state S.Store tx.old.conn.now).now t }
    ensures survives { CommitsNothing (state S.Store tx.old.conn.now) (state S.Store tx.new.conn.now) }
{
    let rows = kept_after(alloc, tx, after, most)?;
    let digests = digests_after(alloc, tx, after, most)?;
    accepted_from(alloc, &rows, &digests)
}

/// Writes the times of the petitions of the whole record, whose digests with the times of their
/// requests are there.
///
/// # Errors
///
/// `TableFault::Foreign` only if a row stores no value of its table. `TableFault::NoMemory` if out of
/// memory, `TableFault::Store` if the store refuses or fails, or if a row is that of no accepted
/// request.
pub(crate) fn fill_times<S: Alter>(
    alloc: Global,
    tx: &mut Transaction<'_, S>,
) -> Result<(), TableFault>
    ensures same_reference { tx.new.conn.ghost_name ≡ tx.old.conn.ghost_name }
    ensures filled { HasCleanDisk (state S.Store tx.new.conn.now) → IsTrue (state S.Store tx.old.conn.now).in_transaction → IsTrue (state S.Store tx.old.conn.now).is_open
        → OnOk result (PutsRecord (state S.Store tx.old.conn.now) (state S.Store tx.new.conn.now)) }
    ensures foreign { HasCleanDisk (state S.Store tx.new.conn.now) → IsTrue (state S.Store tx.old.conn.now).in_transaction → IsTrue (state S.Store tx.old.conn.now).is_open
        → result ≡ Err TableFault.Foreign → (t : Tables) → ¬ Holds (state S.Store tx.old.conn.now).now t }
    ensures survives { CommitsNothing (state S.Store tx.old.conn.now) (state S.Store tx.new.conn.now) }
{
    let mut place = Place {
        requests: 0,
        petitions: 0,
    };
    for _ in 0..67108864u32 {
        let page = read_page(alloc, tx, place.requests, PAGE)?;
        if page.is_empty() {
            return Ok(());
        }
        place = put_page(tx, place, &page)?;
    }
    // No record has as many pages.
    Err(TableFault::Store)
}
