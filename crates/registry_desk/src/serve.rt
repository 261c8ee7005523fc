//! Serves one message: reads it, acts on it, and writes its response.

ghost use Rattle.std.specs.Prelude.{◌≡◌, true, false, List, ℕ, Option, Some, None, IfOk, OnOk, OnErr};
ghost use Rattle.sqlite.specs.State.{HasCleanDisk};
ghost use Rattle.byte_streams.specs.Streams.{MayGive};
ghost use Rattle.registry_rules.specs.History.{History};
ghost use Rattle.registry_store.specs.Promise.{Represents, Endures, NotesForeign, is_poisoned, state_of};
ghost use Rattle.registry_store.specs.declared.fault.Fault.TheVariants as faults;
ghost use Rattle.registry_http.specs.declared.response.Response.{Response as TheResponse};
ghost use Rattle.registry_http.specs.Incomplete.{FailsAfter, IsIncomplete};
ghost use Rattle.registry_http.specs.Responses.{unavailable_response};
ghost use Rattle.registry_desk.specs.Faults.{unavailable_of, registry_fault};
ghost use Rattle.registry_desk.specs.Serving.{IsSent, IsTold, IsToldBy, IsServed, IsTurnedAway, Sends};
ghost use Rattle.registry_desk.specs.Server.{fault_behind};
ghost use Rattle.registry_desk.specs.Cache.{AreTextsAfter, AreTextsOf, no_texts};

use crate::acting::response_to;
use crate::cache::Cache;
use crate::fault::{DeskFault, registry_fault, unavailable_of};
use byte_streams::{Broken, Sink, Source};
use registry_http::{
    MessageFault, Response, Routes, read_message, write_response, write_unavailable,
};
use registry_store::{Fault, Registry};
use sqlite::Alter;
use std::alloc::Global;

/// What was served: the response that was written to the sink.
#[derive(Clone, Copy, Debug, Drop, PartialEq, Eq)]
pub struct Served {
    /// The status of the response if it was written whole, and `Broken` if the sink failed.
    pub status: Result<u16, Broken>,
    /// The registry's fault behind a 503. A 503 without one says that memory ran out.
    pub fault: Option<Fault>,
}

/// Returns `Fault::Poisoned` if the registry is poisoned.
fn poison_of<S: Alter>(registry: &Registry<S>) -> Option<Fault>
    ensures when_poisoned { is_poisoned registry.now ≡ true → result ≡ Some faults.Poisoned }
    ensures only_poisoned { result ≡ Some faults.Poisoned → is_poisoned registry.now ≡ true }
    ensures none { is_poisoned registry.now ≡ false → result ≡ None }
{
    if registry.is_poisoned() {
        Some(Fault::Poisoned)
    } else {
        None
    }
}

/// Writes refusal 30 or 31.
fn give_up<W: Sink>(sink: &mut W, fault: DeskFault) -> Served
    ensures sent { Sends W.contents W.failures sink.old sink.new (unavailable_response (unavailable_of fault)) result.status }
    ensures fault { result.fault ≡ registry_fault fault }
{
    let status = write_unavailable(sink, unavailable_of(fault));
    Served {
        status,
        fault: registry_fault(fault),
    }
}

/// Writes a response.
fn send_response<W: Sink>(alloc: Global, sink: &mut W, response: &Response) -> Served
    ensures { (written : TheResponse) × IsSent response.now written result.fault × Sends W.contents W.failures sink.old sink.new written result.status }
{
    let status = write_response(alloc, sink, response);
    Served {
        status,
        fault: None,
    }
}

/// Writes the response, or refusal 30 or 31 for a fault.
fn send<W: Sink>(alloc: Global, sink: &mut W, done: &Result<Response, DeskFault>) -> Served
    ensures { (written : TheResponse) × IsTold done.now written result.fault × Sends W.contents W.failures sink.old sink.new written result.status }
{
    match done {
        Ok(response) => send_response(alloc, sink, response),
        Err(fault) => give_up(sink, *fault),
    }
}

/// Reads one message from the source, acts on it, and writes its response to the sink. The list or
/// a report that is cached is written again, and a new one is cached.
///
/// Returns `Broken` only if the source failed in this call, before the message was complete: then
/// nothing is written and nothing was acted on.
pub(crate) fn serve_message<R: Source, W: Sink, S: Alter>(
    alloc: Global,
    routes: &mut Routes,
    source: &mut R,
    sink: &mut W,
    registry: &mut Registry<S>,
    cache: &mut Cache,
) -> Result<Served, Broken>
    ensures served { (bytes : List ℕ) × MayGive (R.remaining source.old) bytes × IfOk result (λ served. (response : TheResponse)
        × Sends W.contents W.failures sink.old sink.new response served.status
        × ((h : History) → Represents registry.old h → HasCleanDisk (state_of registry.new) → AreTextsOf h cache.old → IsServed registry.new h bytes response served.fault × AreTextsAfter h bytes cache.new)
        × (is_poisoned registry.old ≡ true → cache.old ≡ no_texts → IsTurnedAway bytes response served.fault × (registry.new ≡ registry.old) × (cache.new ≡ no_texts))
        × (is_poisoned registry.old ≡ false → IsToldBy served.fault response)) }
    ensures goes_on { is_poisoned registry.old ≡ false → fault_behind result ≡ None → is_poisoned registry.new ≡ false }
    ensures notes { NotesForeign registry.old registry.new (fault_behind result) }
    ensures poisoned { IfOk result (λ served. served.fault ≡ Some faults.Poisoned → is_poisoned registry.old ≡ true) }
    ensures read { OnErr result (FailsAfter (R.remaining source.old) (R.remaining source.new) (R.failures source.old) (R.failures source.new) IsIncomplete × (sink.new ≡ sink.old) × (registry.new ≡ registry.old) × (cache.new ≡ cache.old)) }
    ensures kept { OnOk result (R.failures source.new ≡ R.failures source.old) }
    ensures endures { Endures (state_of registry.old) (state_of registry.new) }
{
    let founding = registry.founding().vendor;
    let said = match read_message(alloc, routes, source, founding) {
        Ok(message) => Ok(message),
        Err(MessageFault::Refused(refusal)) => Err(refusal),
        Err(MessageFault::Broken) => return Err(Broken),
        Err(MessageFault::NoMemory) => {
            cache.clear();
            let given = give_up(sink, DeskFault::NoMemory);
            // A poisoned registry was not asked, and yet no server goes on over it.
            return Ok(Served {
                status: given.status,
                fault: poison_of(registry),
            });
        }
    };
    let done = response_to(alloc, registry, cache, &said);
    let served = send(alloc, sink, &done);
    cache.keep(said, done);
    Ok(served)
}

/// Reads one message from the source, acts on it, and writes its response to the sink.
///
/// Returns `Broken` only if the source failed in this call, before the message was complete: then
/// nothing is written and nothing was acted on. If the sink failed, a prefix of the response was
/// written, and an order may have been acted on: if it was accepted, it gets the same reply when it is
/// sent again under its key.
///
/// Keeps at most 8,192 bytes of the head of a message, and 16,384 of the body of an order in JSON,
/// besides the request itself; an imported list needs the memory of its document. Refusals 30 and 31
/// need none.
pub fn serve_one<R: Source, W: Sink, S: Alter>(
    alloc: Global,
    source: &mut R,
    sink: &mut W,
    registry: &mut Registry<S>,
) -> Result<Served, Broken>
    ensures served { (bytes : List ℕ) × MayGive (R.remaining source.old) bytes × IfOk result (λ served. (response : TheResponse)
        × Sends W.contents W.failures sink.old sink.new response served.status
        × ((h : History) → Represents registry.old h → HasCleanDisk (state_of registry.new) → IsServed registry.new h bytes response served.fault)
        × (is_poisoned registry.old ≡ true → IsTurnedAway bytes response served.fault × (registry.new ≡ registry.old))
        × (is_poisoned registry.old ≡ false → IsToldBy served.fault response)) }
    // Whatever the store holds: without a fault of the registry it is not poisoned, and no call of it
    // found the rows of no history, if none had before.
    ensures goes_on { is_poisoned registry.old ≡ false → fault_behind result ≡ None → is_poisoned registry.new ≡ false }
    ensures notes { NotesForeign registry.old registry.new (fault_behind result) }
    ensures poisoned { IfOk result (λ served. served.fault ≡ Some faults.Poisoned → is_poisoned registry.old ≡ true) }
    ensures read { OnErr result (FailsAfter (R.remaining source.old) (R.remaining source.new) (R.failures source.old) (R.failures source.new) IsIncomplete × (sink.new ≡ sink.old) × (registry.new ≡ registry.old)) }
    ensures kept { OnOk result (R.failures source.new ≡ R.failures source.old) }
    ensures endures { Endures (state_of registry.old) (state_of registry.new) }
{
    let mut routes = Routes::new();
    let mut cache = Cache::new();
    serve_message(alloc, &mut routes, source, sink, registry, &mut cache)
}
