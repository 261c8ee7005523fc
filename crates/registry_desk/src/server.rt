//! The server: it serves one connection after another over one registry.

ghost use Rattle.std.specs.Prelude.{◌≡◌, ◌≤◌, true, false, ℕ, List, Option, Some, None, length, IfOk, IfErr, IfSome, OnOk, Err};
ghost use Rattle.sqlite.specs.State.{HasCleanDisk};
ghost use Rattle.registry_rules.specs.History.{History};
ghost use Rattle.registry_tables.specs.Rows.{newest};
ghost use Rattle.registry_store.specs.Promise.{Represents, Endures, Leaves, NotesForeign, is_poisoned, state_of};
ghost use Rattle.registry_desk.specs.Faults.{server_stop_text};
ghost use Rattle.registry_desk.specs.declared.server.ServerStop.TheVariants.{Connections as NoConnections};
ghost use Rattle.registry_desk.specs.Server.{Visit, IsVisit, IsToldAt, IsTurnedAwayAt, AreTurnedAway, HaveVisited, EndsVisit, EndsServing, IsLeftAfter, EndsConnections, IfVisited, fault_behind, fault_in_server, status_of};
ghost use Rattle.registry_desk.specs.Cache.{AreTextsAfterVisit, AreTextsOf, no_texts};

use crate::cache::Cache;
use crate::serve::{Served, serve_message};
use byte_streams::{Broken, Sink, Source};
use registry_http::Routes;
use registry_store::{Fault, Registry};
use sqlite::Alter;
use std::alloc::Global;
use std::error::Error;
use std::fmt;

/// A source of connections, one after another.
pub trait Connections {
    /// The source of a connection's message.
    type Reader: Source + Drop;

    /// The sink of its response.
    type Writer: Sink + Drop;

    /// The next connection was opened, with this reader and this writer.
    ghost opens: { Self → Self → Self.Reader → Self.Writer → Type 0 };

    /// The connection was closed, with its reader and its writer as serving left them, and this
    /// status.
    ghost closes: { Self → Self → Self.Reader → Self.Writer → Option ℕ → Type 0 };

    /// No further connection can come.
    ghost fails: { Self → Self → Type 0 };

    /// Waits for the next connection.
    ///
    /// # Errors
    ///
    /// `Broken` if no further connection can come.
    fn open(&mut self) -> Result<(Self::Reader, Self::Writer), Broken>
        ensures opened { IfOk result (λ ends. opens self.old self.new ends.0 ends.1) }
        ensures failed { IfErr result (λ _. fails self.old self.new) };

    /// Closes a connection whose message was served, with the status of its response, or `None`
    /// if its peer failed.
    ///
    /// A message that was refused before its end leaves bytes unread.
    fn close(&mut self, reader: Self::Reader, writer: Self::Writer, status: Option<u16>)
        ensures { closes self.old self.new reader writer status };
}

/// Why a server stops before its last connection.
#[derive(Clone, Copy, Debug, Drop, PartialEq, Eq)]
pub enum ServerStop {
    /// No more connections can come.
    Connections,
    /// The registry had a fault at the last connection.
    Registry(Fault),
}

/// The reason in a few words.
impl fmt::Display for ServerStop {
    ghost output = { λ stop. Some (server_stop_text stop) };

    fn fmt<W: fmt::Write>(&self, f: &mut fmt::Formatter<W>) -> fmt::Result {
        match self {
            ServerStop::Connections => f.write_str("no connection can come"),
            ServerStop::Registry(fault) => write!(f, "{fault}"),
        }
    }
}

impl Error for ServerStop {}

/// Says that no more connections can come.
impl From<Broken> for ServerStop {
    ghost from_gives = { λ _ stop. stop ≡ NoConnections };

    fn from(_error: Broken) -> ServerStop {
        ServerStop::Connections
    }
}

/// Returns the status of the response, if it was written whole.
fn status_of(served: Result<Served, Broken>) -> Option<u16>
    ensures { result ≡ status_of served }
{
    match served {
        Ok(served) => served.status.ok(),
        Err(Broken) => None,
    }
}

/// Returns the registry's fault behind the response, if any.
fn fault_behind(served: Result<Served, Broken>) -> Option<Fault>
    ensures { result ≡ fault_behind served }
{
    match served {
        Ok(served) => served.fault,
        Err(Broken) => None,
    }
}

/// Opens the next connection, serves its message, and closes it, as `serve_next` does, beside the
/// texts that earlier connections left, and by the table of routes that the first one made.
fn serve_beside<C: Connections, S: Alter>(
    alloc: Global,
    routes: &mut Routes,
    connections: &mut C,
    registry: &mut Registry<S>,
    cache: &mut Cache,
) -> Result<(), ServerStop>
    ensures visited { IfVisited result ((visit : Visit)
        × IsVisit C.opens C.closes C.Reader.remaining C.Reader.failures C.Writer.contents C.Writer.failures connections.old connections.new visit
        × ((h : History) → Represents registry.old h → HasCleanDisk (state_of registry.new) → AreTextsOf h cache.old → EndsVisit registry.new h visit (fault_in_server result) × AreTextsAfterVisit h visit cache.new)
        × (is_poisoned registry.old ≡ true → cache.old ≡ no_texts → IsTurnedAwayAt visit (fault_in_server result) × (registry.new ≡ registry.old) × (cache.new ≡ no_texts))
        × (is_poisoned registry.old ≡ false → IsToldAt visit (fault_in_server result))) }
    ensures goes_on { is_poisoned registry.old ≡ false → fault_in_server result ≡ None → is_poisoned registry.new ≡ false }
    ensures notes { NotesForeign registry.old registry.new (fault_in_server result) }
    ensures none { result ≡ Err ServerStop.Connections → C.fails connections.old connections.new × (registry.new ≡ registry.old) }
    ensures endures { Endures (state_of registry.old) (state_of registry.new) }
{
    let (mut reader, mut writer) = connections.open()?;
    let served = serve_message(alloc, routes, &mut reader, &mut writer, registry, cache);
    connections.close(reader, writer, status_of(served));
    match fault_behind(served) {
        None => Ok(()),
        Some(fault) => Err(ServerStop::Registry(fault)),
    }
}

/// Opens the next connection, serves its message, and closes it.
///
/// Returns `ServerStop::Registry` if the registry had a fault, whether the response was written
/// or the peer was gone; of a query for which the store failed this is in no clause. A peer's fault
/// is not an error, and neither is a 503 because memory ran out, at a query or outside the registry,
/// unless the registry is poisoned.
pub fn serve_next<C: Connections, S: Alter>(
    alloc: Global,
    connections: &mut C,
    registry: &mut Registry<S>,
) -> Result<(), ServerStop>
    ensures visited { IfVisited result ((visit : Visit)
        × IsVisit C.opens C.closes C.Reader.remaining C.Reader.failures C.Writer.contents C.Writer.failures connections.old connections.new visit
        × ((h : History) → Represents registry.old h → HasCleanDisk (state_of registry.new) → EndsVisit registry.new h visit (fault_in_server result))
        × (is_poisoned registry.old ≡ true → IsTurnedAwayAt visit (fault_in_server result) × (registry.new ≡ registry.old))
        × (is_poisoned registry.old ≡ false → IsToldAt visit (fault_in_server result))) }
    ensures goes_on { is_poisoned registry.old ≡ false → fault_in_server result ≡ None → is_poisoned registry.new ≡ false }
    ensures notes { NotesForeign registry.old registry.new (fault_in_server result) }
    ensures none { result ≡ Err ServerStop.Connections → C.fails connections.old connections.new × (registry.new ≡ registry.old) }
    ensures endures { Endures (state_of registry.old) (state_of registry.new) }
{
    let mut routes = Routes::new();
    let mut cache = Cache::new();
    serve_beside(alloc, &mut routes, connections, registry, &mut cache)
}

/// Serves at most `count` connections, one after another, up to the first fault of the registry.
///
/// Over a registry that represents a history, and a clean disk, what is written for each message is
/// its response over the history before it, or refusal 30 or 31, or a prefix if the peer failed.
/// Without a fault the registry then represents the history after all messages that it acted on, in
/// order. A crash leaves the history after these, or, if the registry had a
/// fault at the last connection, perhaps after all but that one. So it holds each message whose
/// response was written whole with a status other than 503.
///
/// The last list, the last report of each kind and the first founding are cached in memory, and
/// written again. A fault or a lack of memory drops all of them, and an order with status 200 all but
/// the first founding.
///
/// If `act` or a query finds the rows of no history, and no call found them before, the message gets
/// refusal 30 and no response of its own, and ends the server, whatever the store holds.
///
/// A poisoned registry is not changed: the first message that is not refused by itself, or for which
/// memory runs out before it is read, gets refusal 30 or 31, and ends the server.
pub fn serve_all<C: Connections, S: Alter>(
    alloc: Global,
    connections: &mut C,
    registry: &mut Registry<S>,
    count: u64,
) -> Result<(), ServerStop>
    ensures served { (visits : List Visit) × (middle : C)
        × HaveVisited C.opens C.closes C.Reader.remaining C.Reader.failures C.Writer.contents C.Writer.failures connections.old middle visits
        × EndsConnections C.fails middle connections.new result
        × (length visits ≤ count) × OnOk result (length visits ≡ count)
        × ((h : History) → Represents registry.old h → HasCleanDisk (state_of registry.new) → EndsServing registry.new h visits (fault_in_server result) × Leaves newest (state_of registry.new) (IsLeftAfter h visits))
        × (is_poisoned registry.old ≡ true → AreTurnedAway visits (fault_in_server result) × (registry.new ≡ registry.old)) }
    // Whatever the store holds: a fault of the registry is told at the last connection; without one
    // the registry is not poisoned, and no call of it found the rows of no history, if none had before.
    ensures told { is_poisoned registry.old ≡ false → IfSome (fault_in_server result) (λ fault. (visits : List Visit) × (middle : C) × (last : Visit)
        × HaveVisited C.opens C.closes C.Reader.remaining C.Reader.failures C.Writer.contents C.Writer.failures connections.old middle visits
        × IsVisit C.opens C.closes C.Reader.remaining C.Reader.failures C.Writer.contents C.Writer.failures middle connections.new last
        × IsToldAt last (Some fault)) }
    ensures goes_on { is_poisoned registry.old ≡ false → fault_in_server result ≡ None → is_poisoned registry.new ≡ false }
    ensures notes { NotesForeign registry.old registry.new (fault_in_server result) }
    ensures endures { Endures (state_of registry.old) (state_of registry.new) }
{
    let mut routes = Routes::new();
    let mut cache = Cache::new();
    for _ in 0..count {
        serve_beside(alloc, &mut routes, connections, registry, &mut cache)?;
    }
    Ok(())
}
