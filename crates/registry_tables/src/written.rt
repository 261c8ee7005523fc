//! The founding of a store in the middle of a migration, from the values of its tables.

ghost use Rattle.std.specs.Prelude.{◌≡◌, ◌≢◌, IsTrue, IfOk, Err};
ghost use Rattle.sqlite.specs.State.{HasCleanDisk, IsUnchanged};
ghost use Rattle.sqlite.specs.Held.{state};
ghost use Rattle.table_laws.specs.Inside.{CommitsNothing, GoesOn};
ghost use Rattle.registry_rules.specs.History.{History};
ghost use Rattle.registry_rows.specs.Tables.{Tables, Holds};
ghost use Rattle.registry_tables.specs.Written.{IsWritten, AreOf};

use crate::founded_licences::licences_left;
use crate::opening::spans_of;
use registry_rows::{KeptRow, kept_with_replies, list_curators, list_fixed, list_licences};
use registry_rules::{Curators, Founding, Licences};
use registry_schema::TableFault;
use sqlite::{Alter, Transaction};
use std::alloc::Global;
use usbnum_core::{Slug, Span, Title, Vid};

/// The rows of which a founding is made, and the replies that name a licence.
#[derive(Drop)]
pub(crate) struct Written {
    pub curators: Vec<Slug>,
    pub licences: Vec<Title>,
    pub fixed: Vec<Span>,
    pub added: Vec<KeptRow>,
}

/// Reads the rows of which the founding is made.
pub(crate) fn read_written<S: Alter>(
    alloc: Global,
    tx: &mut Transaction<'_, S>,
) -> Result<Written, TableFault>
    ensures same_reference { tx.new.conn.ghost_name ≡ tx.old.conn.ghost_name }
    ensures read { HasCleanDisk (state S.Store tx.new.conn.now) → IsTrue (state S.Store tx.old.conn.now).in_transaction
        → IfOk result (λ written. GoesOn (state S.Store tx.old.conn.now) (state S.Store tx.new.conn.now)
        × ((t : Tables) → Holds (state S.Store tx.old.conn.now).now t → IsUnchanged (state S.Store tx.old.conn.now) (state S.Store tx.new.conn.now) × IsWritten t written)) }
    ensures foreign { HasCleanDisk (state S.Store tx.new.conn.now) → IsTrue (state S.Store tx.old.conn.now).in_transaction → result ≡ Err TableFault.Foreign
        → IsTrue (state S.Store tx.old.conn.now).is_open × ((t : Tables) → ¬ Holds (state S.Store tx.old.conn.now).now t) }
    ensures survives { CommitsNothing (state S.Store tx.old.conn.now) (state S.Store tx.new.conn.now) }
{
    let curators = list_curators(alloc, tx)?;
    let licences = list_licences(alloc, tx)?;
    let fixed = list_fixed(alloc, tx)?;
    // The replies that name a licence are those between these texts.
    let added = kept_with_replies(alloc, tx, "added licence ", "added licence!")?;
    Ok(Written {
        curators,
        licences,
        fixed,
        added,
    })
}

/// Returns the founding with its first licences.
///
/// # Errors
///
/// `TableFault::NoMemory` if out of memory, `TableFault::Store` if the rows are those of no founding.
pub(crate) fn founding_of(
    alloc: Global,
    vendor: Vid,
    name: &Title,
    written: Written,
) -> Result<Founding, TableFault>
    ensures founding { (h : History) (t : Tables) → AreOf h t → IsWritten t written → vendor ≡ h.founding.vendor → name.now ≡ h.founding.name → IfOk result (λ founding. founding ≡ h.founding) }
    ensures kind { result ≢ Err TableFault.Foreign }
{
    let Some(curators) = Curators::new(written.curators) else {
        return Err(TableFault::Store);
    };
    let Some(allowed) = Licences::new(written.licences) else {
        return Err(TableFault::Store);
    };
    let licences = licences_left(alloc, &allowed, &written.added)?;
    let fixed = spans_of(alloc, &written.fixed)?;
    let Ok(name) = name.clone() else {
        return Err(TableFault::NoMemory);
    };
    Ok(Founding {
        vendor,
        name,
        curators,
        licences,
        fixed,
    })
}
