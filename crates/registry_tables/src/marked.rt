//! The schema version that the table `meta` names.

ghost use Rattle.std.specs.Prelude.{◌≡◌, ◌≢◌, true, [], ◌∷◌, MatchResult, IsTrue, OnOk};
ghost use Rattle.sqlite.specs.State.{HasCleanDisk};
ghost use Rattle.sqlite.specs.Held.{state};
ghost use Rattle.registry_rows.specs.Steps.{ReadsWithin};
ghost use Rattle.registry_rows.specs.Tables.{Tables, Holds};
ghost use Rattle.registry_tables.specs.Known.{SaysVersion, names_version};
ghost use Rattle.registry_tables.specs.Raising.{IsMarked, IsMarkedNewest};

use registry_old_rows::list_old_metas;
use registry_rows::{Meta, list_metas};
use registry_schema::TableFault;
use sqlite::{Alter, Transaction};
use std::alloc::Global;

fn of_version(meta: Meta, version: u32) -> Result<Meta, TableFault>
    ensures { MatchResult result (λ same. (same ≡ meta) × (meta.version ≡ version)) (λ fault. (fault ≡ TableFault.Foreign) × (meta.version ≢ version)) }
{
    if meta.version == version {
        Ok(meta)
    } else {
        Err(TableFault::Foreign)
    }
}

/// Returns the row of `meta`, if it names this version.
pub(crate) fn old_meta<S: Alter>(
    alloc: Global,
    tx: &mut Transaction<'_, S>,
    version: u32,
) -> Result<Meta, TableFault>
    ensures named { HasCleanDisk (state S.Store tx.new.conn.now) → IsTrue (state S.Store tx.old.conn.now).in_transaction → OnOk result (SaysVersion version (state S.Store tx.old.conn.now).now) }
    ensures reads { ReadsWithin S.Store tx.old.conn tx.new.conn result (IsMarked version) (λ x meta. x.tables.metas ≡ meta ∷ []) }
{
    let mut metas = list_old_metas(alloc, tx)?;
    match metas.pop() {
        Some(meta) => of_version(meta, version),
        None => Err(TableFault::Foreign),
    }
}

/// Returns the row of `meta`, if it names this version, once the tables of the newest schema are
/// there.
pub(crate) fn newest_meta<S: Alter>(
    alloc: Global,
    tx: &mut Transaction<'_, S>,
    version: u32,
) -> Result<Meta, TableFault>
    ensures named { HasCleanDisk (state S.Store tx.new.conn.now) → IsTrue (state S.Store tx.old.conn.now).in_transaction
        → OnOk result ((t : Tables) → Holds (state S.Store tx.old.conn.now).now t → names_version version t ≡ true) }
    ensures reads { ReadsWithin S.Store tx.old.conn tx.new.conn result (IsMarkedNewest version) (λ x meta. x.tables.metas ≡ meta ∷ []) }
{
    let mut metas = list_metas(alloc, tx)?;
    match metas.pop() {
        Some(row) => of_version(row, version),
        None => Err(TableFault::Foreign),
    }
}
