//! The step from the first schema to the second.

ghost use Rattle.std.specs.Prelude.{◌≡◌, ◌≢◌, ℕ, map, fold, nat_eq, false, IsTrue, OnOk, IfOk, Err};
ghost use Rattle.std.specs.List.{list_any};
ghost use Rattle.sqlite.specs.State.{HasCleanDisk, Survives};
ghost use Rattle.sqlite.specs.Held.{state};
ghost use Rattle.sqlite_keyed.specs.Keyed.{insert_by};
ghost use Rattle.table_laws.specs.Inside.{CommitsNothing};
ghost use Rattle.usbnum_core.specs.Number.{IsId};
ghost use Rattle.usbnum_core.specs.Spans.{spans_have};
ghost use Rattle.registry_rules.specs.History.{History};
ghost use Rattle.registry_old_rows.specs.Old.{old_span_key};
ghost use Rattle.registry_old_rows.specs.Steps.{Rewrites};
ghost use Rattle.registry_tables.specs.Calls.{WritesTablesOpen};
ghost use Rattle.registry_tables.specs.Known.{SaysFirst};
ghost use Rattle.registry_tables.specs.Rows.{Rows};
ghost use Rattle.registry_tables.specs.Raising.{Raises, CommitsStep, IsMadeBy};

use crate::beginning::begin;
use crate::committing::commit;
use crate::marked::old_meta;
use registry_old_rows::{Reserved, empty_reserved, list_reserved, put_old_meta, put_old_span};
use registry_schema::{TableFault, add_second};
use sqlite::{Alter, Connection, Transaction};
use std::alloc::Global;
use usbnum_core::{Span, Spans};

// Returns the numbers as a set.
fn spans_of(alloc: Global, numbers: &[Reserved]) -> Result<Spans, TableFault>
    ensures same { IfOk result (λ set. (n : ℕ) → spans_have set n ≡ list_any (nat_eq n) (map (λ one. one.pid) numbers.now)) }
    ensures kind { result ≢ Err TableFault.Foreign }
{
    let mut set = Spans::new(alloc);
    for number in numbers {
        let Some(span) = Span::new(number.pid, number.pid) else {
            unreachable!()
        };
        if set.add(span).is_err() {
            return Err(TableFault::NoMemory);
        }
    }
    Ok(set)
}

// Writes the spans as those of the founding vendor.
fn put_spans<S: Alter>(tx: &mut Transaction<'_, S>, parts: &[Span]) -> Result<(), TableFault>
    ensures writes { WritesTablesOpen S.Store tx.old.conn tx.new.conn result (λ old new. (vid : ℕ) → IsId vid → Rewrites vid (λ t. record t { spans = fold (insert_by old_span_key) t.spans (map (λ part. (vid, part)) parts.now) }) (λ numbers. numbers) old new) }
{
    for part in parts {
        put_old_span(tx, *part)?;
    }
    Ok(())
}

// Replaces the rows of reserved numbers with rows of spans.
fn raise_second<S: Alter>(alloc: Global, tx: &mut Transaction<'_, S>) -> Result<(), TableFault>
    ensures same_reference { tx.new.conn.ghost_name ≡ tx.old.conn.ghost_name }
    ensures raised { HasCleanDisk (state S.Store tx.new.conn.now) → IsTrue (state S.Store tx.old.conn.now).in_transaction → Raises 1 (state S.Store tx.old.conn.now) (state S.Store tx.new.conn.now) result }
    ensures named { HasCleanDisk (state S.Store tx.new.conn.now) → IsTrue (state S.Store tx.old.conn.now).in_transaction → OnOk result (SaysFirst (state S.Store tx.old.conn.now).now) }
    ensures survives { CommitsNothing (state S.Store tx.old.conn.now) (state S.Store tx.new.conn.now) }
{
    add_second(tx)?;
    let meta = old_meta(alloc, tx, 1)?;
    let numbers = list_reserved(alloc, tx)?;
    let set = spans_of(alloc, &numbers)?;
    put_spans(tx, set.parts())?;
    empty_reserved(tx)?;
    put_old_meta(tx, 2, meta.vendor, &meta.name)?;
    Ok(())
}

/// Takes the step in one transaction with one commit.
pub(crate) fn first_to_second<S: Alter>(
    alloc: Global,
    conn: &mut Connection<S>,
) -> Result<(), TableFault>
    requires { conn.old.in_transaction ≡ false }
    ensures idle { conn.new.in_transaction ≡ false }
    ensures made { HasCleanDisk (state S.Store conn.new) → OnOk result (IsMadeBy (CommitsStep 1 (state S.Store conn.old)) (state S.Store conn.new)) }
    ensures named { HasCleanDisk (state S.Store conn.new) → OnOk result (SaysFirst (state S.Store conn.old).now) }
    ensures foreign { HasCleanDisk (state S.Store conn.new) → result ≡ Err TableFault.Foreign → IsTrue (state S.Store conn.old).is_open × ((h : History) → ¬ Rows 1 (state S.Store conn.old).now.trees h) }
    ensures survives { Survives (state S.Store conn.old) (state S.Store conn.new) (CommitsStep 1 (state S.Store conn.old)) }
{
    let mut tx = begin(conn);
    raise_second(alloc, &mut tx)?;
    commit(tx)
}
