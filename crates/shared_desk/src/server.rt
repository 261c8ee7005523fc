//! The server: it serves one connection after another over a registry that follows a log.

ghost use Rattle.std.specs.Prelude.{◌≡◌, ◌≤◌, true, ℕ, List, All, Option, length, IfSome, OnOk, Err};
ghost use Rattle.sqlite.specs.State.{HasCleanDisk};
ghost use Rattle.registry_rules.specs.History.{History};
ghost use Rattle.registry_store.specs.Promise.{Endures, NotesForeign, is_poisoned, state_of};
ghost use Rattle.registry_desk.specs.Cache.{AreTextsOf};
ghost use Rattle.registry_desk.specs.Server.{Visit, IsVisit, HaveVisited, status_of};
ghost use Rattle.shared_log.specs.Calls.{KeepsLines, LogLines};
ghost use Rattle.shared_registry.specs.Asks.{IsLogAsked};
ghost use Rattle.shared_registry.specs.Follows.{Follows};
ghost use Rattle.shared_desk.specs.Asks.{AppendsOrderIn, AppendsOrdersIn};
ghost use Rattle.shared_desk.specs.declared.server.SharedStop.TheVariants.{Connections as NoConnections};
ghost use Rattle.shared_desk.specs.Refusals.{fault_behind_stop};
ghost use Rattle.shared_desk.specs.Server.{EndsBeside, EndsConnectionsOverLog, EndsOver, IfVisitedOverLog, IsToldOverLogAt, IsToldLast, IsTurnedAwayOverLogAt, ends_by, served_in, stop_to_end, stop_in_server};

use crate::refusal::may_pass;
use crate::serve::{Turn, serve_message};
use byte_streams::Broken;
use registry_desk::{Cache, Connections};
use registry_http::Routes;
use registry_store::Registry;
use shared_log::Log;
use shared_registry::{Cursor, ShareStop};
use sqlite::Alter;
use std::alloc::Global;

/// Why a server stops before its last connection.
#[derive(Clone, Copy, Debug, PartialEq, Eq)]
pub enum SharedStop {
    /// No more connections can come.
    Connections,
    /// The registry did not go on with its log at the last connection, for this reason. It is none of
    /// `ShareStop::Log` and `ShareStop::NoMemory`.
    Share(ShareStop),
}

/// Says that no more connections can come.
impl From<Broken> for SharedStop {
    ghost from_gives = { λ _ stop. stop ≡ NoConnections };

    fn from(_error: Broken) -> SharedStop {
        SharedStop::Connections
    }
}

/// Returns the status of the response, if it was written whole.
fn status_of(turn: &Result<Turn, Broken>) -> Option<u16>
    ensures { result ≡ status_of (served_in turn.now) }
{
    match turn {
        Ok(turn) => turn.served.status.ok(),
        Err(_) => None,
    }
}

/// Returns what of this stop ends the server.
fn ends_by(stop: Option<ShareStop>) -> Option<ShareStop>
    ensures { result ≡ ends_by stop }
{
    match stop {
        Some(stop) => { if may_pass(stop) { None } else { Some(stop) } }
        None => None,
    }
}

/// Returns what ends the server after a connection, if anything does.
fn stop_to_end(turn: &Result<Turn, Broken>) -> Option<ShareStop>
    ensures { result ≡ stop_to_end turn.now }
{
    match turn {
        Ok(turn) => ends_by(turn.stop),
        Err(_) => None,
    }
}

/// Opens the next connection, serves its message, and closes it, beside the texts that earlier
/// connections left, and by the table of routes that the first one made.
fn serve_beside<C: Connections, S: Alter, L: Log>(
    alloc: Global,
    routes: &mut Routes,
    connections: &mut C,
    registry: &mut Registry<S>,
    cursor: &mut Cursor<L>,
    cache: &mut Cache,
) -> Result<(), SharedStop>
    ensures visited { IfVisitedOverLog result ((visit : Visit)
        × IsVisit C.opens C.closes C.Reader.remaining C.Reader.failures C.Writer.contents C.Writer.failures connections.old connections.new visit
        × IsToldOverLogAt visit (stop_in_server result)
        × ((lines : L → LogLines) → KeepsLines L.Log lines → (h : History) → Follows L.Log lines registry.old cursor.old h → HasCleanDisk (state_of registry.new) → AreTextsOf h cache.old
        → EndsBeside L.Log lines cursor.old registry.new cursor.new h visit cache.new (stop_in_server result))
        × (is_poisoned registry.old ≡ true → IsTurnedAwayOverLogAt visit × (registry.new ≡ registry.old) × (cursor.new ≡ cursor.old))
        × ((lines : L → LogLines) → KeepsLines L.Log lines → (h : History) → Follows L.Log lines registry.old cursor.old h → HasCleanDisk (state_of registry.new)
        → IsLogAsked L.Log (AppendsOrderIn (lines cursor.new.log) h visit.bytes) cursor.old.log cursor.new.log)) }
    ensures notes { NotesForeign registry.old registry.new (fault_behind_stop (stop_in_server result)) }
    ensures none { result ≡ Err SharedStop.Connections → C.fails connections.old connections.new × (registry.new ≡ registry.old) × (cursor.new ≡ cursor.old) }
    ensures endures { Endures (state_of registry.old) (state_of registry.new) }
{
    let (mut reader, mut writer) = connections.open()?;
    let turn = serve_message(
        alloc,
        routes,
        &mut reader,
        &mut writer,
        registry,
        cursor,
        cache,
    );
    connections.close(reader, writer, status_of(&turn));
    match stop_to_end(&turn) {
        None => Ok(()),
        Some(stop) => Err(SharedStop::Share(stop)),
    }
}

/// Serves at most `count` connections, one after another, over the log that the registry follows.
///
/// Before it answers a query it acts on the lines of the log that the registry has not acted on, and at
/// an order it does as `act` of `shared_registry`. What is written for each message is its response over the history of the whole log, as
/// it was at some instant of serving it; or refusal 30 or 31; or a prefix if the peer failed.
///
/// A call of the log without an answer and a lack of memory get refusal 30 or 31, and the server goes
/// on. The order may then be in the log, or come into it later.
///
/// # Errors
///
/// `Connections` if no further connection can come. `Share` if the registry does not go on with its log
/// at the last connection: `Registry` after a fault of the registry, which an order or a line of the log
/// has poisoned unless the store failed at a query; `OtherRecord` if the record does not go on with a
/// line of the log; `Full` if no more lines are counted. `Ahead` never comes over a log that keeps its
/// lines.
///
/// A poisoned registry is not changed, and the first query or order ends the server.
pub fn serve_shared<C: Connections, S: Alter, L: Log>(
    alloc: Global,
    connections: &mut C,
    registry: &mut Registry<S>,
    cursor: &mut Cursor<L>,
    count: u64,
) -> Result<(), SharedStop>
    ensures served { (visits : List Visit) × (middle : C)
        × HaveVisited C.opens C.closes C.Reader.remaining C.Reader.failures C.Writer.contents C.Writer.failures connections.old middle visits
        × EndsConnectionsOverLog C.fails middle connections.new result
        × (length visits ≤ count) × OnOk result (length visits ≡ count)
        × IsToldLast visits (stop_in_server result)
        × ((lines : L → LogLines) → KeepsLines L.Log lines → (h : History) → Follows L.Log lines registry.old cursor.old h → HasCleanDisk (state_of registry.new)
        → EndsOver L.Log lines cursor.old registry.new cursor.new h visits (stop_in_server result))
        × (is_poisoned registry.old ≡ true → All IsTurnedAwayOverLogAt visits × (registry.new ≡ registry.old) × (cursor.new ≡ cursor.old))
        × ((lines : L → LogLines) → KeepsLines L.Log lines → (h : History) → Follows L.Log lines registry.old cursor.old h → HasCleanDisk (state_of registry.new)
        → IsLogAsked L.Log (AppendsOrdersIn (lines cursor.new.log) h visits) cursor.old.log cursor.new.log) }
    // Whatever the store holds: the rows of no history are noted.
    ensures notes { NotesForeign registry.old registry.new (fault_behind_stop (stop_in_server result)) }
    ensures endures { Endures (state_of registry.old) (state_of registry.new) }
{
    let mut routes = Routes::new();
    let mut cache = Cache::new();
    for _ in 0..count {
        serve_beside(
            alloc,
            &mut routes,
            connections,
            registry,
            cursor,
            &mut cache,
        )?;
    }
    Ok(())
}
