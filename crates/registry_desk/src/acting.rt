//! Returns the response to a query, or acts on an order.

ghost use Rattle.std.specs.Prelude.{◌≡◌, ◌≢◌, true, false, None, Err, IfOk, IfErr, OnOk, IsOk};
ghost use Rattle.sqlite.specs.State.{HasCleanDisk};
ghost use Rattle.registry_rules.specs.History.{History};
ghost use Rattle.registry_rules.specs.Run.{after_one, reply_to};
ghost use Rattle.registry_store.specs.Promise.{Represents, Endures, NotesForeign, is_poisoned, state_of};
ghost use Rattle.registry_store.specs.declared.fault.Fault.TheVariants as faults;
ghost use Rattle.registry_desk.specs.declared.fault.DeskFault.TheVariants as desk_faults;
ghost use Rattle.registry_store.specs.Queries.{IsUntouched};
ghost use Rattle.registry_http.specs.Responses.{refusal_response, reply_response};
ghost use Rattle.registry_desk.specs.Acting.{IsQueryResponse, IsResponse, after_message, IsOfQuery, IsOfSoundRegistry, IsLeftUnavailable, HasPoisoned, IsFaultFor};
ghost use Rattle.registry_desk.specs.Faults.{fault_of_done};
ghost use Rattle.registry_desk.specs.Cache.{AreTextsOf, cache_beside, no_texts, with_text};

use crate::cache::Cache;
use crate::fault::DeskFault;
use crate::queries::ask;
use registry_http::{HttpRefusal, Message, Query, Response, refusal_response, reply_response};
use registry_rules::Request;
use registry_store::Registry;
use sqlite::Alter;
use std::alloc::Global;

/// Acts on an order, and returns the response. Without a fault of `act` the registry is not
/// poisoned, whatever its store holds.
fn respond_to_order<S: Alter>(
    alloc: Global,
    registry: &mut Registry<S>,
    request: &Request,
) -> Result<Response, DeskFault>
    ensures answered { (h : History) → Represents registry.old h → HasCleanDisk (state_of registry.new)
        → IfOk result (λ response. (response ≡ reply_response (reply_to h request.now)) × Represents registry.new (after_one h request.now)) }
    ensures left { (h : History) → Represents registry.old h → HasCleanDisk (state_of registry.new)
        → IfErr result (λ fault. IsOfSoundRegistry fault × HasPoisoned fault registry.new × IsLeftUnavailable fault registry.new h (after_one h request.now)) }
    ensures goes_on { fault_of_done result ≡ None → is_poisoned registry.new ≡ false }
    ensures keeps_fault { is_poisoned registry.old ≡ false → IfErr result (λ fault. HasPoisoned fault registry.new) }
    ensures notes { NotesForeign registry.old registry.new (fault_of_done result) }
    ensures only_poisoned { result ≡ Err (desk_faults.Registry faults.Poisoned) → is_poisoned registry.old ≡ true }
    ensures when_poisoned { is_poisoned registry.old ≡ true → (result ≡ Err (desk_faults.Registry faults.Poisoned)) × (registry.new ≡ registry.old) }
    ensures endures { Endures (state_of registry.old) (state_of registry.new) }
{
    let reply = registry.act(request).map_err(DeskFault::Registry)?;
    Ok(reply_response(alloc, &reply)?)
}

/// Returns the response to a query: the one that is cached, which is taken out, or else a new one.
/// [`Cache::keep`] puts it back once it is written.
///
/// # Errors
///
/// `NoMemory` if out of memory. `Registry` after a fault of the store, or if the registry is poisoned
/// and the response is not cached.
pub fn answer_query<S: Alter>(
    alloc: Global,
    registry: &mut Registry<S>,
    cache: &mut Cache,
    query: &Query,
) -> Result<Response, DeskFault>
    ensures answered { (h : History) → Represents registry.old h → HasCleanDisk (state_of registry.new) → AreTextsOf h cache.old → IfOk result (IsQueryResponse h query.now) }
    ensures kind { (h : History) → Represents registry.old h → HasCleanDisk (state_of registry.new) → IfErr result IsOfQuery }
    ensures left { IsUntouched registry.old registry.new }
    ensures notes { NotesForeign registry.old registry.new (fault_of_done result) }
    ensures only_poisoned { result ≡ Err (desk_faults.Registry faults.Poisoned) → is_poisoned registry.old ≡ true }
    ensures when_poisoned { is_poisoned registry.old ≡ true → cache.old ≡ no_texts → (result ≡ Err (desk_faults.Registry faults.Poisoned)) × (registry.new ≡ registry.old) }
    ensures taken { cache.new ≡ with_text cache.old query.now None }
{
    match cache.take(query) {
        Some(response) => Ok(response),
        None => ask(alloc, registry, query),
    }
}

/// Returns the response to a message that is refused.
fn refuse(alloc: Global, refusal: HttpRefusal) -> Result<Response, DeskFault>
    ensures ok { IfOk result (λ response. response ≡ refusal_response refusal) }
    ensures err { IfErr result (λ fault. fault ≡ desk_faults.NoMemory) }
{
    Ok(refusal_response(alloc, refusal)?)
}

/// Acts on what a message says, and returns the response. A cached response is taken out.
pub(crate) fn response_to<S: Alter>(
    alloc: Global,
    registry: &mut Registry<S>,
    cache: &mut Cache,
    said: &Result<Message, HttpRefusal>,
) -> Result<Response, DeskFault>
    ensures answered { (h : History) → Represents registry.old h → HasCleanDisk (state_of registry.new) → AreTextsOf h cache.old
        → IfOk result (λ response. IsResponse h said.now response × Represents registry.new (after_message h said.now)) }
    ensures left { (h : History) → Represents registry.old h → HasCleanDisk (state_of registry.new)
        → IfErr result (λ fault. IsOfSoundRegistry fault × IsFaultFor said.now fault registry.new × IsLeftUnavailable fault registry.new h (after_message h said.now)) }
    ensures asked { IfErr result (λ fault. fault ≢ desk_faults.NoMemory → IsOk said.now) }
    // Whatever the store holds: without a fault of the registry it is not poisoned, and no call of it
    // found the rows of no history, if none had before.
    ensures goes_on { is_poisoned registry.old ≡ false → fault_of_done result ≡ None → is_poisoned registry.new ≡ false }
    ensures notes { NotesForeign registry.old registry.new (fault_of_done result) }
    // A message that is refused gets its refusal, over any registry.
    ensures refused { IfErr said.now (λ refusal. IfOk result (λ response. response ≡ refusal_response refusal) × IfErr result (λ fault. fault ≡ desk_faults.NoMemory) × (registry.new ≡ registry.old)) }
    // An order or a query gets no response over a poisoned registry.
    ensures when_poisoned { is_poisoned registry.old ≡ true → cache.old ≡ no_texts → OnOk said.now ((result ≡ Err (desk_faults.Registry faults.Poisoned)) × (registry.new ≡ registry.old)) }
    ensures only_poisoned { result ≡ Err (desk_faults.Registry faults.Poisoned) → is_poisoned registry.old ≡ true }
    ensures beside { cache.new ≡ cache_beside cache.old said.now }
    ensures endures { Endures (state_of registry.old) (state_of registry.new) }
{
    match said {
        Ok(Message::Query(query)) => answer_query(alloc, registry, cache, query),
        Ok(Message::Request(request)) => respond_to_order(alloc, registry, request),
        Err(refusal) => refuse(alloc, *refusal),
    }
}
