//! What a request would be answered, without acting on it.

ghost use Rattle.std.specs.Prelude.{◌≡◌, false, IfOk};
ghost use Rattle.sqlite.specs.Held.{state};
ghost use Rattle.registry_rules.specs.Run.{reply_of};
ghost use Rattle.registry_rules.specs.TotalsOf.{AreTotalsOf};
ghost use Rattle.registry_rules.specs.Verdict.{verdict};
ghost use Rattle.registry_tables.specs.Calls.{IsLookUp};

use crate::attempt::judged;
use crate::fault::Fault;
use crate::registry::Registry;
use registry_rules::{Reply, Request, Totals, Verdict, reply_text};
use registry_tables::TableFault;
use sqlite::{Alter, Connection};
use std::alloc::Global;
use usbnum_core::NoMemory;

/// Judges a request in a transaction that is rolled back.
fn judged_alone<S: Alter>(
    alloc: Global,
    conn: &mut Connection<S>,
    totals: &Totals,
    request: &Request,
) -> Result<Verdict, TableFault>
    requires { conn.old.in_transaction ≡ false }
    ensures idle { conn.new.in_transaction ≡ false }
    ensures looked_up { IsLookUp (state S.Store conn.old) (state S.Store conn.new) result (λ h found. AreTotalsOf h totals.now → found ≡ verdict h request.now) }
{
    // For the proof only: the schema that the connection shows.
    let _schema = conn.schema();
    let mut tx = conn.transaction();
    let verdict = judged(alloc, &mut tx, totals, request);
    tx.rollback();
    verdict
}

/// Returns the reply that a verdict gives.
fn reply_by(alloc: Global, verdict: Verdict) -> Result<Reply, NoMemory>
    ensures { IfOk result (λ reply. reply ≡ reply_of verdict) }
{
    match verdict {
        Verdict::Kept(text) => Ok(Reply::Done(text)),
        Verdict::Refused(refusal) => Ok(Reply::Refused(refusal)),
        Verdict::New(deed) => Ok(Reply::Done(reply_text(alloc, &deed)?)),
    }
}

impl<S: Alter> Registry<S> {
    ghost use Rattle.std.specs.Prelude.{◌≡◌};
    ghost use Rattle.registry_rules.specs.Run.{reply_to};
    ghost use Rattle.registry_store.specs.Queries.{IsQuery};

    /// Returns the reply that [`Registry::act`] would give to this request now. Acts on nothing: the
    /// key of the request stays unused.
    ///
    /// # Errors
    ///
    /// `Fault::Poisoned` if the registry is poisoned, without a store call. `Fault::NoMemory` if out
    /// of memory for what the request concerns or for the reply. `Fault::Store` if the store refuses
    /// or fails. `Fault::Foreign` only if the rows are those of no history; a registry that
    /// represents one over a clean disk never returns it. The registry still represents its history,
    /// and nothing is committed.
    pub fn dry_run(&mut self, request: &Request) -> Result<Reply, Fault>
        ensures query { IsQuery self.old self.new result (λ h reply. reply ≡ reply_to h request.now) }
    {
        self.check_not_poisoned()?;
        let judged = judged_alone(self.alloc, &mut self.conn, &self.summary.totals, request);
        let verdict = self.note(judged)?;
        Ok(reply_by(self.alloc, verdict)?)
    }
}
