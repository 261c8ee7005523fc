//! The licences of the founding, without those that orders added.

ghost use Rattle.std.specs.Prelude.{◌≡◌, ◌≢◌, false, ℕ, List, filter, not, bytes_eq, IfOk, Err};
ghost use Rattle.std.specs.List.{list_any};
ghost use Rattle.sqlite.specs.Held.{state};
ghost use Rattle.registry_rules.specs.Query.{is_licence};
ghost use Rattle.registry_rules.specs.Texts.{AreSorted};
ghost use Rattle.registry_tables.specs.Calls.{IsLookUp};
ghost use Rattle.registry_tables.specs.FirstLicences.{is_reply_of, was_added};
ghost use Rattle.registry_tables.specs.Finds.{ReadsHistory};

use crate::TableFault;
use crate::beginning::begin;
use registry_rows::{KeptRow, kept_with_replies};
use registry_rules::Licences;
use sqlite::{Alter, Connection, Transaction};
use std::alloc::Global;
use usbnum_core::{NoMemory, Title};

// Whether the reply is that of one of the rows.
fn is_reply(reply: &str, rows: &[KeptRow]) -> bool
    ensures { result ≡ list_any (is_reply_of reply.now) rows.now }
{
    rows.iter().any(|row| row.kept.reply.as_str() == reply)
}

// Whether an order added the licence: the reply to it names the licence.
fn was_added(alloc: Global, licence: &Title, rows: &[KeptRow]) -> Result<bool, NoMemory>
    ensures { IfOk result (λ added. added ≡ was_added rows.now licence.now) }
{
    let reply = format!(in alloc; "added licence {licence}")?;
    Ok(is_reply(&reply, rows))
}

// The licences that no order added.
fn not_added(alloc: Global, licences: &[Title], rows: &[KeptRow]) -> Result<Vec<Title>, NoMemory>
    ensures { IfOk result (λ left. left.items ≡ filter (λ licence. not (was_added rows.now licence)) licences.now) }
{
    let mut left = Vec::new(alloc);
    for licence in licences {
        if !was_added(alloc, licence, rows)? {
            left.push(licence.clone()?)?;
        }
    }
    Ok(left)
}

pub(crate) fn licences_left(
    alloc: Global,
    licences: &Licences,
    rows: &[KeptRow],
) -> Result<Licences, TableFault>
    ensures left { IfOk result (λ left. AreSorted (filter (λ licence. not (was_added rows.now licence)) licences.now) left) }
    ensures kind { result ≢ Err TableFault.Foreign }
{
    let Ok(left) = not_added(alloc, licences.as_slice(), rows) else {
        return Err(TableFault::NoMemory);
    };
    match Licences::new(left) {
        Some(left) => Ok(left),
        // A founding has a licence.
        None => Err(TableFault::Store),
    }
}

fn read_first_licences<S: Alter>(
    alloc: Global,
    tx: &mut Transaction<'_, S>,
    licences: &Licences,
) -> Result<Licences, TableFault>
    ensures reads { ReadsHistory S.Store tx.old.conn tx.new.conn result (λ h first. ((licence : List ℕ) → list_any (bytes_eq licence) licences.now ≡ is_licence h licence) → first ≡ h.founding.licences) }
{
    // The replies that name a licence are those between these texts.
    let rows = kept_with_replies(alloc, tx, "added licence ", "added licence!")?;
    licences_left(alloc, licences, &rows)
}

/// Returns the licences of the founding, from those that the registry allows now. The store reads
/// all kept replies. Commits nothing.
///
/// # Errors
///
/// `TableFault::Foreign` only if the tables hold the rows of no history in the newest schema,
/// `TableFault::NoMemory` if out of memory for the rows or the list, `TableFault::Store` if the
/// store refuses or fails, or if later deeds allow all licences, which no history has.
pub fn first_licences<S: Alter>(
    alloc: Global,
    conn: &mut Connection<S>,
    licences: &Licences,
) -> Result<Licences, TableFault>
    requires { conn.old.in_transaction ≡ false }
    ensures idle { conn.new.in_transaction ≡ false }
    ensures looked_up { IsLookUp (state S.Store conn.old) (state S.Store conn.new) result (λ h first. ((licence : List ℕ) → list_any (bytes_eq licence) licences.now ≡ is_licence h licence) → first ≡ h.founding.licences) }
{
    let mut tx = begin(conn);
    let first = read_first_licences(alloc, &mut tx, licences);
    tx.rollback();
    first
}
