//! Answers a message over the log that the registry follows.

ghost use Rattle.std.specs.Prelude.{◌≡◌, true, Ok, Err, IfErr, IfOk, OnOk, nat_eq, if◌then◌else◌};
ghost use Rattle.sqlite.specs.State.{HasCleanDisk};
ghost use Rattle.registry_rules.specs.History.{History};
ghost use Rattle.registry_store.specs.Promise.{Endures, NotesForeign, is_poisoned, state_of};
ghost use Rattle.registry_http.specs.Responses.{refusal_response};
ghost use Rattle.registry_http.specs.declared.message.Message.TheVariants as messages;
ghost use Rattle.registry_desk.specs.Cache.{AreTextsOf, no_texts};
ghost use Rattle.shared_log.specs.Calls.{KeepsLines, LogLines};
ghost use Rattle.shared_registry.specs.Asks.{AppendsNothing, AppendsRequest, IsLogAsked};
ghost use Rattle.shared_registry.specs.Lines.{fault_in_call};
ghost use Rattle.shared_registry.specs.Follows.{Follows, HasFollowed, IsLeft};
ghost use Rattle.shared_registry.specs.declared.stop.ShareStop.TheVariants as stops;
ghost use Rattle.shared_desk.specs.Answers.{Answers, IsUnanswered};
ghost use Rattle.shared_desk.specs.Asks.{AppendsOrder};

use crate::refusal::stop_of;
use registry_desk::{Cache, answer_query};
use registry_http::{HttpRefusal, Message, Query, Response, refusal_response, reply_response};
use registry_rules::Request;
use registry_store::{Fault, Registry};
use shared_log::Log;
use shared_registry::{Cursor, ShareStop, act, follow};
use sqlite::Alter;
use std::alloc::Global;

/// Drops the cached texts if the place in the log is no longer this one: then the registry has acted on
/// a line.
fn drop_if_moved<L: Log>(cache: &mut Cache, cursor: &Cursor<L>, before: u32)
    ensures { cache.new ≡ (if nat_eq cursor.now.next before then cache.old else no_texts) }
{
    if cursor.next() != before {
        cache.clear();
    }
}

/// Acts on the lines of the log that the registry has not acted on. Drops the cached texts if there are
/// any.
fn follow_first<S: Alter, L: Log>(
    registry: &mut Registry<S>,
    cursor: &mut Cursor<L>,
    cache: &mut Cache,
) -> Result<(), ShareStop>
    ensures when_poisoned { is_poisoned registry.old ≡ true → (result ≡ Err (ShareStop.Registry Fault.Poisoned)) × (registry.new ≡ registry.old) × (cursor.new ≡ cursor.old) }
    ensures ok { (lines : L → LogLines) → KeepsLines L.Log lines → (h : History) → Follows L.Log lines registry.old cursor.old h → HasCleanDisk (state_of registry.new) → AreTextsOf h cache.old
        → OnOk result ((followed : HasFollowed L.Log lines cursor.old registry.new cursor.new h) × AreTextsOf followed.now cache.new) }
    ensures followed { (lines : L → LogLines) → KeepsLines L.Log lines → (h : History) → Follows L.Log lines registry.old cursor.old h → HasCleanDisk (state_of registry.new)
        → OnOk result (HasFollowed L.Log lines cursor.old registry.new cursor.new h) }
    ensures err { (lines : L → LogLines) → KeepsLines L.Log lines → (h : History) → Follows L.Log lines registry.old cursor.old h → HasCleanDisk (state_of registry.new)
        → IfErr result (IsLeft L.Log lines cursor.old registry.new cursor.new h) }
    ensures notes { NotesForeign registry.old registry.new (fault_in_call result) }
    ensures endures { Endures (state_of registry.old) (state_of registry.new) }
    ensures asks { IsLogAsked L.Log AppendsNothing cursor.old.log cursor.new.log }
{
    let before = cursor.next();
    follow(registry, cursor)?;
    drop_if_moved(cache, cursor, before);
    Ok(())
}

/// Follows the log, and returns the response to a query.
fn answer_after_following<S: Alter, L: Log>(
    alloc: Global,
    registry: &mut Registry<S>,
    cursor: &mut Cursor<L>,
    cache: &mut Cache,
    query: &Query,
) -> Result<Response, ShareStop>
    ensures when_poisoned { is_poisoned registry.old ≡ true → (result ≡ Err (ShareStop.Registry Fault.Poisoned)) × (registry.new ≡ registry.old) × (cursor.new ≡ cursor.old) }
    ensures ok { (lines : L → LogLines) → KeepsLines L.Log lines → (h : History) → Follows L.Log lines registry.old cursor.old h → HasCleanDisk (state_of registry.new) → AreTextsOf h cache.old
        → IfOk result (λ response. Answers L.Log lines cursor.old registry.new cursor.new h (Ok (messages.Query query.now)) response cache.new) }
    ensures err { (lines : L → LogLines) → KeepsLines L.Log lines → (h : History) → Follows L.Log lines registry.old cursor.old h → HasCleanDisk (state_of registry.new)
        → IfErr result (IsUnanswered L.Log lines cursor.old registry.new cursor.new h (Ok (messages.Query query.now))) }
    ensures notes { NotesForeign registry.old registry.new (fault_in_call result) }
    ensures endures { Endures (state_of registry.old) (state_of registry.new) }
    ensures asks { IsLogAsked L.Log AppendsNothing cursor.old.log cursor.new.log }
{
    follow_first(registry, cursor, cache)?;
    answer_query(alloc, registry, cache, query).map_err(stop_of)
}

/// Acts on an order over the log, and returns the response. Drops the cached texts if the registry has
/// acted on a line.
fn act_on_order<S: Alter, L: Log>(
    alloc: Global,
    registry: &mut Registry<S>,
    cursor: &mut Cursor<L>,
    cache: &mut Cache,
    request: &Request,
) -> Result<Response, ShareStop>
    ensures when_poisoned { is_poisoned registry.old ≡ true → (result ≡ Err (ShareStop.Registry Fault.Poisoned)) × (registry.new ≡ registry.old) × (cursor.new ≡ cursor.old) }
    ensures ok { (lines : L → LogLines) → KeepsLines L.Log lines → (h : History) → Follows L.Log lines registry.old cursor.old h → HasCleanDisk (state_of registry.new) → AreTextsOf h cache.old
        → IfOk result (λ response. Answers L.Log lines cursor.old registry.new cursor.new h (Ok (messages.Request request.now)) response cache.new) }
    ensures err { (lines : L → LogLines) → KeepsLines L.Log lines → (h : History) → Follows L.Log lines registry.old cursor.old h → HasCleanDisk (state_of registry.new)
        → IfErr result (IsLeft L.Log lines cursor.old registry.new cursor.new h) }
    ensures notes { NotesForeign registry.old registry.new (fault_in_call result) }
    ensures endures { Endures (state_of registry.old) (state_of registry.new) }
    ensures asks { (lines : L → LogLines) → KeepsLines L.Log lines → (h : History) → Follows L.Log lines registry.old cursor.old h → HasCleanDisk (state_of registry.new)
        → IsLogAsked L.Log (AppendsRequest (lines cursor.new.log) h request.now) cursor.old.log cursor.new.log }
{
    let before = cursor.next();
    let reply = act(registry, cursor, request)?;
    drop_if_moved(cache, cursor, before);
    Ok(reply_response(alloc, &reply)?)
}

/// Returns the response to a query, or acts on an order.
fn answer_message<S: Alter, L: Log>(
    alloc: Global,
    registry: &mut Registry<S>,
    cursor: &mut Cursor<L>,
    cache: &mut Cache,
    message: &Message,
) -> Result<Response, ShareStop>
    ensures when_poisoned { is_poisoned registry.old ≡ true → (result ≡ Err (ShareStop.Registry Fault.Poisoned)) × (registry.new ≡ registry.old) × (cursor.new ≡ cursor.old) }
    ensures ok { (lines : L → LogLines) → KeepsLines L.Log lines → (h : History) → Follows L.Log lines registry.old cursor.old h → HasCleanDisk (state_of registry.new) → AreTextsOf h cache.old
        → IfOk result (λ response. Answers L.Log lines cursor.old registry.new cursor.new h (Ok message.now) response cache.new) }
    ensures err { (lines : L → LogLines) → KeepsLines L.Log lines → (h : History) → Follows L.Log lines registry.old cursor.old h → HasCleanDisk (state_of registry.new)
        → IfErr result (IsUnanswered L.Log lines cursor.old registry.new cursor.new h (Ok message.now)) }
    ensures notes { NotesForeign registry.old registry.new (fault_in_call result) }
    ensures endures { Endures (state_of registry.old) (state_of registry.new) }
    ensures asks { (lines : L → LogLines) → KeepsLines L.Log lines → (h : History) → Follows L.Log lines registry.old cursor.old h → HasCleanDisk (state_of registry.new)
        → IsLogAsked L.Log (AppendsOrder (lines cursor.new.log) h (Ok message.now)) cursor.old.log cursor.new.log }
{
    match message {
        Message::Query(query) => answer_after_following(alloc, registry, cursor, cache, query),
        Message::Request(request) => act_on_order(alloc, registry, cursor, cache, request),
    }
}

/// Returns the response to a message that is refused by itself.
fn refuse(alloc: Global, refusal: HttpRefusal) -> Result<Response, ShareStop>
    ensures ok { IfOk result (λ response. response ≡ refusal_response refusal) }
    ensures err { IfErr result (λ stop. stop ≡ stops.NoMemory) }
{
    Ok(refusal_response(alloc, refusal)?)
}

/// Acts on what a message says, over the whole log, and returns the response. A cached response is taken
/// out.
pub(crate) fn answer<S: Alter, L: Log>(
    alloc: Global,
    registry: &mut Registry<S>,
    cursor: &mut Cursor<L>,
    cache: &mut Cache,
    said: &Result<Message, HttpRefusal>,
) -> Result<Response, ShareStop>
    ensures ok { (lines : L → LogLines) → KeepsLines L.Log lines → (h : History) → Follows L.Log lines registry.old cursor.old h → HasCleanDisk (state_of registry.new) → AreTextsOf h cache.old
        → IfOk result (λ response. Answers L.Log lines cursor.old registry.new cursor.new h said.now response cache.new) }
    ensures err { (lines : L → LogLines) → KeepsLines L.Log lines → (h : History) → Follows L.Log lines registry.old cursor.old h → HasCleanDisk (state_of registry.new)
        → IfErr result (IsUnanswered L.Log lines cursor.old registry.new cursor.new h said.now) }
    // A message that is refused gets its refusal, over any registry.
    ensures refused { IfErr said.now (λ refusal. IfOk result (λ response. response ≡ refusal_response refusal) × IfErr result (λ stop. stop ≡ stops.NoMemory) × (registry.new ≡ registry.old) × (cursor.new ≡ cursor.old)) }
    // An order or a query gets no response over a poisoned registry.
    ensures when_poisoned { is_poisoned registry.old ≡ true → OnOk said.now ((result ≡ Err (ShareStop.Registry Fault.Poisoned)) × (registry.new ≡ registry.old) × (cursor.new ≡ cursor.old)) }
    ensures notes { NotesForeign registry.old registry.new (fault_in_call result) }
    ensures endures { Endures (state_of registry.old) (state_of registry.new) }
    ensures asks { (lines : L → LogLines) → KeepsLines L.Log lines → (h : History) → Follows L.Log lines registry.old cursor.old h → HasCleanDisk (state_of registry.new)
        → IsLogAsked L.Log (AppendsOrder (lines cursor.new.log) h said.now) cursor.old.log cursor.new.log }
{
    match said {
        Ok(message) => answer_message(alloc, registry, cursor, cache, message),
        Err(refusal) => refuse(alloc, *refusal),
    }
}
