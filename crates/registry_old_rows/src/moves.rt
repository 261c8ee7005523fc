//! Moves rows from the tables of the second schema to those of the third.

ghost use Rattle.std.specs.Prelude.{◌≡◌, [], ◌++◌, ℕ};
ghost use Rattle.table_laws.specs.Inside.{GoesOn};
ghost use Rattle.registry_rows.specs.Tables.{Tables};
ghost use Rattle.registry_old_rows.specs.Between.{HoldsBoth};
ghost use Rattle.registry_rows.specs.Steps.{WritesWithin};
ghost use Rattle.registry_old_rows.specs.Steps.{Moves};

use registry_schema::TableFault;
use sqlite::{Alter, Transaction, params};
use usbnum_core::Vid;

/// Copies the spans of the second schema's table into that of the third, with this vendor.
pub fn copy_spans<S: Alter>(tx: &mut Transaction<'_, S>, vid: Vid) -> Result<(), TableFault>
    ensures writes { WritesWithin S.Store tx.old.conn tx.new.conn result (Moves vid (λ o t. o) (λ o t. record t { spans = t.spans ++ o.spans })) }
{
    tx.execute(
        "INSERT INTO spans3 (vid, lo, hi) SELECT ?1, lo, hi FROM spans ORDER BY lo",
        params![u32::from(vid.get())],
    )?;
    Ok(())
}

/// Copies the entries of the second schema's table into that of the third, with this vendor.
pub fn copy_entries<S: Alter>(tx: &mut Transaction<'_, S>, vid: Vid) -> Result<(), TableFault>
    ensures writes { WritesWithin S.Store tx.old.conn tx.new.conn result (Moves vid (λ o t. o) (λ o t. record t { entries = t.entries ++ o.entries })) }
{
    tx.execute(
        "INSERT INTO entries3 (vid, pid, org, held, title, licence, site, source) SELECT ?1, pid, org, held, title, licence, site, source FROM entries ORDER BY pid",
        params![u32::from(vid.get())],
    )?;
    Ok(())
}

/// Copies the petitions of the second schema's table into that of the third, which has none, with
/// this vendor.
pub fn copy_petitions<S: Alter>(tx: &mut Transaction<'_, S>, vid: Vid) -> Result<(), TableFault>
    ensures writes { WritesWithin S.Store tx.old.conn tx.new.conn result (λ old new. GoesOn old new × ((o t : Tables) → HoldsBoth vid old.now o t → t.petitions ≡ [] → HoldsBoth vid new.now o (record t { petitions = o.petitions }))) }
{
    tx.execute(
        "INSERT INTO petitions3 (id, vid, org, want, title, licence, site, source, state, pid) SELECT id, ?1, org, want, title, licence, site, source, state, pid FROM petitions ORDER BY id",
        params![u32::from(vid.get())],
    )?;
    Ok(())
}

/// Empties the second schema's table of spans.
pub fn empty_spans<S: Alter>(tx: &mut Transaction<'_, S>) -> Result<(), TableFault>
    ensures writes { WritesWithin S.Store tx.old.conn tx.new.conn result (λ old new. (vid : ℕ) → Moves vid (λ o t. record o { spans = [] }) (λ o t. t) old new) }
{
    tx.execute("DELETE FROM spans", &[])?;
    Ok(())
}

/// Empties the second schema's table of entries.
pub fn empty_entries<S: Alter>(tx: &mut Transaction<'_, S>) -> Result<(), TableFault>
    ensures writes { WritesWithin S.Store tx.old.conn tx.new.conn result (λ old new. (vid : ℕ) → Moves vid (λ o t. record o { entries = [] }) (λ o t. t) old new) }
{
    tx.execute("DELETE FROM entries", &[])?;
    Ok(())
}

/// Empties the second schema's table of petitions.
pub fn empty_petitions<S: Alter>(tx: &mut Transaction<'_, S>) -> Result<(), TableFault>
    ensures writes { WritesWithin S.Store tx.old.conn tx.new.conn result (λ old new. (vid : ℕ) → Moves vid (λ o t. record o { petitions = [] }) (λ o t. t) old new) }
{
    tx.execute("DELETE FROM petitions", &[])?;
    Ok(())
}
