//! Serves one message over the log that the registry follows.

ghost use Rattle.std.specs.Prelude.{◌≡◌, true, ℕ, List, Some, IfOk, OnErr, OnOk};
ghost use Rattle.sqlite.specs.State.{HasCleanDisk};
ghost use Rattle.byte_streams.specs.Streams.{MayGive};
ghost use Rattle.registry_rules.specs.History.{History};
ghost use Rattle.registry_store.specs.Promise.{Endures, NotesForeign, is_poisoned, state_of};
ghost use Rattle.registry_http.specs.declared.response.Response.{Response as TheResponse};
ghost use Rattle.registry_http.specs.Incomplete.{FailsAfter, IsIncomplete};
ghost use Rattle.registry_http.specs.Responses.{unavailable_response};
ghost use Rattle.registry_desk.specs.Cache.{AreTextsOf, cache_after};
ghost use Rattle.registry_desk.specs.Serving.{Sends};
ghost use Rattle.shared_log.specs.Calls.{KeepsLines, LogLines};
ghost use Rattle.shared_registry.specs.Asks.{IsLogAsked};
ghost use Rattle.shared_registry.specs.Follows.{Follows};
ghost use Rattle.shared_desk.specs.Asks.{AppendsOrderIn};
ghost use Rattle.shared_desk.specs.Refusals.{fault_behind_stop, unavailable_for};
ghost use Rattle.shared_desk.specs.Serving.{IsServedBeside, IsToldOverLog, IsToldOverLogBy, IsTurnedAwayOverLog, done_for_cache, stop_behind};

use crate::answering::answer;
use crate::refusal::{fault_behind, unavailable_for};
use byte_streams::{Broken, Sink, Source};
use registry_desk::{Cache, DeskFault, Served};
use registry_http::{
    HttpRefusal, Message, MessageFault, Response, Routes, read_message, write_response,
    write_unavailable,
};
use registry_store::Registry;
use shared_log::Log;
use shared_registry::{Cursor, ShareStop};
use sqlite::Alter;
use std::alloc::Global;

/// What was served, and why it was not the response to the message, if so.
#[derive(Clone, Copy, Debug)]
pub(crate) struct Turn {
    pub(crate) served: Served,
    pub(crate) stop: Option<ShareStop>,
}

/// Writes refusal 30 or 31.
fn give_up<W: Sink>(sink: &mut W, stop: ShareStop) -> Turn
    ensures sent { Sends W.contents W.failures sink.old sink.new (unavailable_response (unavailable_for stop)) result.served.status }
    ensures stop { result.stop ≡ Some stop }
    ensures fault { result.served.fault ≡ fault_behind_stop (Some stop) }
{
    let status = write_unavailable(sink, unavailable_for(stop));
    Turn {
        served: Served {
            status,
            fault: fault_behind(Some(stop)),
        },
        stop: Some(stop),
    }
}

/// Writes the response, or refusal 30 or 31 for what stopped the message.
fn send<W: Sink>(alloc: Global, sink: &mut W, done: &Result<Response, ShareStop>) -> Turn
    ensures { (written : TheResponse) × IsToldOverLog done.now written result.stop × (result.served.fault ≡ fault_behind_stop result.stop) × Sends W.contents W.failures sink.old sink.new written result.served.status }
{
    match done {
        Ok(response) => {
            let status = write_response(alloc, sink, response);
            Turn {
                served: Served {
                    status,
                    fault: None,
                },
                stop: None,
            }
        }
        Err(stop) => give_up(sink, *stop),
    }
}

/// Keeps the response to a query for the list, a report or the first founding. What stopped a message
/// drops all texts.
fn remember(
    cache: &mut Cache,
    said: Result<Message, HttpRefusal>,
    done: Result<Response, ShareStop>,
)
    ensures { cache.new ≡ cache_after cache.old (done_for_cache done) said }
{
    cache.keep(said, done.map_err(|_| DeskFault::NoMemory));
}

/// Reads one message from the source, acts on it over the whole log, and writes its response to the sink.
///
/// Returns `Broken` only if the source failed in this call, before the message was complete: then
/// nothing is written and nothing was acted on.
pub(crate) fn serve_message<R: Source, W: Sink, S: Alter, L: Log>(
    alloc: Global,
    routes: &mut Routes,
    source: &mut R,
    sink: &mut W,
    registry: &mut Registry<S>,
    cursor: &mut Cursor<L>,
    cache: &mut Cache,
) -> Result<Turn, Broken>
    ensures served { (bytes : List ℕ) × MayGive (R.remaining source.old) bytes × IfOk result (λ turn. (response : TheResponse)
        × Sends W.contents W.failures sink.old sink.new response turn.served.status
        × (turn.served.fault ≡ fault_behind_stop turn.stop)
        × IsToldOverLogBy turn.stop response
        × ((lines : L → LogLines) → KeepsLines L.Log lines → (h : History) → Follows L.Log lines registry.old cursor.old h → HasCleanDisk (state_of registry.new) → AreTextsOf h cache.old
        → IsServedBeside L.Log lines cursor.old registry.new cursor.new h bytes response cache.new turn.stop)
        × (is_poisoned registry.old ≡ true → IsTurnedAwayOverLog bytes response turn.stop × (registry.new ≡ registry.old) × (cursor.new ≡ cursor.old))
        × ((lines : L → LogLines) → KeepsLines L.Log lines → (h : History) → Follows L.Log lines registry.old cursor.old h → HasCleanDisk (state_of registry.new)
        → IsLogAsked L.Log (AppendsOrderIn (lines cursor.new.log) h bytes) cursor.old.log cursor.new.log)) }
    ensures notes { NotesForeign registry.old registry.new (fault_behind_stop (stop_behind result)) }
    ensures read { OnErr result (FailsAfter (R.remaining source.old) (R.remaining source.new) (R.failures source.old) (R.failures source.new) IsIncomplete × (sink.new ≡ sink.old) × (registry.new ≡ registry.old) × (cursor.new ≡ cursor.old) × (cache.new ≡ cache.old)) }
    ensures kept { OnOk result (R.failures source.new ≡ R.failures source.old) }
    ensures endures { Endures (state_of registry.old) (state_of registry.new) }
{
    let founding = registry.founding().vendor;
    let said = match read_message(alloc, routes, source, founding) {
        Ok(message) => Ok(message),
        Err(MessageFault::Refused(refusal)) => Err(refusal),
        Err(MessageFault::Broken) => return Err(Broken),
        Err(MessageFault::NoMemory) => {
            cache.clear();
            return Ok(give_up(sink, ShareStop::NoMemory));
        }
    };
    let done = answer(alloc, registry, cursor, cache, &said);
    let turn = send(alloc, sink, &done);
    remember(cache, said, done);
    Ok(turn)
}
