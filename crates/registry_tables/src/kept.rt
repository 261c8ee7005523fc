//! The record's rows of an accepted request.

ghost use Rattle.std.specs.Prelude.{◌≡◌, ◌≢◌, IsTrue, IfOk, OnOk, Err};
ghost use Rattle.sqlite.specs.State.{HasCleanDisk};
ghost use Rattle.sqlite.specs.Held.{state};
ghost use Rattle.table_laws.specs.Inside.{CommitsNothing, GoesOn};
ghost use Rattle.registry_rules.specs.History.{History, with_deed};
ghost use Rattle.registry_rules.specs.Run.{Legal};
ghost use Rattle.registry_rules.specs.declared.deed.Deed.{Deed};
ghost use Rattle.registry_tables.specs.Head.{IsHead};
ghost use Rattle.registry_tables.specs.Rows.{newest, HoldsRows, HoldsUnkept};
ghost use Rattle.registry_tables.specs.Calls.{IsKeptAs};

use crate::TableFault;
use crate::head::{Head, next_head};
use crate::times::put_act_times;
use registry_rows::{put_digest, put_kept};
use registry_rules::{Act, ReplyText, Request, request_bytes};
use sqlite::{Alter, Transaction};
use std::alloc::Global;

/// Keeps the canonical form of the order and the reply under the request's caller and key, and the
/// digest of its line with the time. A petition that the act opens or closes gets that time, too.
/// After `store` the rows are then those of the history with the deed. `head` is that of the history,
/// and the head with the deed is returned.
///
/// # Errors
///
/// `TableFault::NoMemory` if out of memory for the canonical form, the line or a row,
/// `TableFault::Store` if the store refuses or fails, or after 4,294,967,295 requests; never
/// `TableFault::Foreign`. Roll the transaction back then.
pub fn keep_reply<S: Alter>(
    alloc: Global,
    tx: &mut Transaction<'_, S>,
    head: &Head,
    request: &Request,
    act: &Act,
    reply: &ReplyText,
) -> Result<Head, TableFault>
    ensures same_reference { tx.new.conn.ghost_name ≡ tx.old.conn.ghost_name }
    ensures goes_on { HasCleanDisk (state S.Store tx.new.conn.now) → IsTrue (state S.Store tx.old.conn.now).in_transaction
        → OnOk result (GoesOn (state S.Store tx.old.conn.now) (state S.Store tx.new.conn.now)) }
    ensures rows { HasCleanDisk (state S.Store tx.new.conn.now) → IsTrue (state S.Store tx.old.conn.now).in_transaction
        → OnOk result ((h : History) (deed : Deed) → Legal (with_deed h deed) → IsKeptAs deed request.now reply.now → deed.act ≡ act.now → IsHead h head.now
        → HoldsUnkept (state S.Store tx.old.conn.now).now h (with_deed h deed) → HoldsRows newest (state S.Store tx.new.conn.now).now (with_deed h deed)) }
    ensures head { IfOk result (λ next. (h : History) (deed : Deed) → IsKeptAs deed request.now reply.now → IsHead h head.now → IsHead (with_deed h deed) next) }
    ensures kind { result ≢ Err TableFault.Foreign }
    ensures survives { CommitsNothing (state S.Store tx.old.conn.now) (state S.Store tx.new.conn.now) }
{
    let Ok(order) = request_bytes(alloc, request) else {
        return Err(TableFault::NoMemory);
    };
    let next = next_head(alloc, head, request, reply)?;
    put_kept(tx, &request.caller, &request.key, &order, reply)?;
    put_digest(tx, next.count, &request.time, &next.digest)?;
    put_act_times(tx, act, &request.time)?;
    Ok(next)
}
