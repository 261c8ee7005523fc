//! The one function that begins a transaction.

ghost use Rattle.std.specs.Prelude.{◌≡◌, true, false};
ghost use Rattle.sqlite.specs.State.{IsLive};
ghost use Rattle.sqlite.specs.Held.{state};

use sqlite::{Alter, Connection, Transaction};

/// Begins a transaction.
pub(crate) fn begin<S: Alter>(conn: &mut Connection<S>) -> Transaction<'_, S>
    requires { conn.old.in_transaction ≡ false }
    ensures same_reference { result.conn.ghost_name ≡ conn.entry.ghost_name }
    ensures begun { result.conn.now ≡ record conn.old { in_transaction = true } }
    ensures live { IsLive (state S.Store conn.old) }
{
    // For the proof only: the schema that the connection shows.
    let _schema = conn.schema();
    conn.transaction()
}
