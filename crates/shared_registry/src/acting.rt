//! Acts on a request over the log that the registry follows.

ghost use Rattle.std.specs.Prelude.{◌≡◌, ◌<◌, ◌^◌, true, None, Err, IfErr, IfOk};
ghost use Rattle.sqlite.specs.State.{HasCleanDisk};
ghost use Rattle.registry_rules.specs.History.{History};
ghost use Rattle.registry_store.specs.Promise.{Endures, NotesForeign, is_poisoned, state_of};
ghost use Rattle.shared_log.specs.Calls.{KeepsLines, LogLines};
ghost use Rattle.shared_registry.specs.Asks.{AppendsRequest, IsLogAsked};
ghost use Rattle.shared_registry.specs.Lines.{fault_in_call};
ghost use Rattle.shared_registry.specs.Follows.{Follows, HasTried, HasTurned, IsAnsweredOverLog, IsLeft};

use crate::cursor::{AppendFault, Cursor};
use crate::following::follow;
use crate::stop::ShareStop;
use registry_rules::{Reply, Request};
use registry_store::{ActStop, Fault, Registry};
use shared_log::{Log, LogFault};
use sqlite::Alter;

/// Acts on a request over the history that the registry has. The line of a new one is appended before
/// it is committed. Returns no reply if the log has a line under that number.
fn try_to_act<S: Alter, L: Log>(
    registry: &mut Registry<S>,
    cursor: &mut Cursor<L>,
    request: &Request,
) -> Result<Option<Reply>, ShareStop>
    ensures ok { (lines : L → LogLines) → KeepsLines L.Log lines → (h : History) → Follows L.Log lines registry.old cursor.old h → HasCleanDisk (state_of registry.new)
        → IfOk result (HasTried L.Log lines cursor.old registry.new cursor.new h request.now) }
    ensures err { (lines : L → LogLines) → KeepsLines L.Log lines → (h : History) → Follows L.Log lines registry.old cursor.old h → HasCleanDisk (state_of registry.new)
        → IfErr result (IsLeft L.Log lines cursor.old registry.new cursor.new h) }
    ensures asks { (lines : L → LogLines) → KeepsLines L.Log lines → (h : History) → Follows L.Log lines registry.old cursor.old h → HasCleanDisk (state_of registry.new)
        → IsLogAsked L.Log (AppendsRequest (lines cursor.new.log) h request.now) cursor.old.log cursor.new.log }
    ensures notes { NotesForeign registry.old registry.new (fault_in_call result) }
    ensures endures { Endures (state_of registry.old) (state_of registry.new) }
    ensures same_place { IfOk result (λ reply. reply ≡ None → cursor.new.next ≡ cursor.old.next) }
{
    match registry.act_before(request, cursor) {
        Ok(reply) => Ok(Some(reply)),
        Err(ActStop::Fault(fault)) => Err(ShareStop::Registry(fault)),
        Err(ActStop::Unwitnessed(AppendFault::Taken)) => Ok(None),
        Err(ActStop::Unwitnessed(AppendFault::Behind)) => Err(ShareStop::Ahead),
        Err(ActStop::Unwitnessed(AppendFault::Full)) => Err(ShareStop::Full),
        Err(ActStop::Unwitnessed(AppendFault::NoMemory)) => Err(ShareStop::NoMemory),
        Err(ActStop::Unwitnessed(AppendFault::Log(fault))) => Err(ShareStop::Log(fault)),
    }
}

/// Acts on a request over the history that the registry has, and then on the lines of the log that the
/// registry has not acted on, unless a line was appended. Returns no reply if there were such lines: it
/// may be that of a history which was no more the whole log.
fn act_and_look<S: Alter, L: Log>(
    registry: &mut Registry<S>,
    cursor: &mut Cursor<L>,
    request: &Request,
) -> Result<Option<Reply>, ShareStop>
    ensures ok { (lines : L → LogLines) → KeepsLines L.Log lines → (h : History) → Follows L.Log lines registry.old cursor.old h → HasCleanDisk (state_of registry.new)
        → IfOk result (HasTurned L.Log lines cursor.old registry.new cursor.new h request.now) }
    ensures err { (lines : L → LogLines) → KeepsLines L.Log lines → (h : History) → Follows L.Log lines registry.old cursor.old h → HasCleanDisk (state_of registry.new)
        → IfErr result (IsLeft L.Log lines cursor.old registry.new cursor.new h) }
    ensures asks { (lines : L → LogLines) → KeepsLines L.Log lines → (h : History) → Follows L.Log lines registry.old cursor.old h → HasCleanDisk (state_of registry.new)
        → IsLogAsked L.Log (AppendsRequest (lines cursor.new.log) h request.now) cursor.old.log cursor.new.log }
    ensures notes { NotesForeign registry.old registry.new (fault_in_call result) }
    ensures endures { Endures (state_of registry.old) (state_of registry.new) }
    ensures passes { IfOk result (λ reply. reply ≡ None → (cursor.old.next < cursor.new.next) × (cursor.new.next < 2 ^ 32)) }
{
    let before = cursor.next;
    let tried = try_to_act(registry, cursor, request)?;
    if cursor.next != before {
        return Ok(tried);
    }
    follow(registry, cursor)?;
    if cursor.next > before {
        return Ok(None);
    }
    match tried {
        Some(reply) => Ok(Some(reply)),
        // A log that had a line here shows one.
        None => Err(ShareStop::Log(LogFault::BadAnswer)),
    }
}

/// Acts on one request over the log that the registry follows. A new request is appended to the log
/// before it is committed. Any other is answered once the registry has acted on all lines of the log;
/// if there were some, it begins again, as it does if another machine has taken the number.
///
/// # Errors
///
/// As [`follow`](crate::follow). After `Log` the log may have the line, or take it at any later time,
/// and a later call acts on it then. `Ahead` never comes over a log that keeps its lines.
pub fn act<S: Alter, L: Log>(
    registry: &mut Registry<S>,
    cursor: &mut Cursor<L>,
    request: &Request,
) -> Result<Reply, ShareStop>
    ensures when_poisoned { is_poisoned registry.old ≡ true → (result ≡ Err (ShareStop.Registry Fault.Poisoned)) × (registry.new ≡ registry.old) × (cursor.new ≡ cursor.old) }
    ensures ok { (lines : L → LogLines) → KeepsLines L.Log lines → (h : History) → Follows L.Log lines registry.old cursor.old h → HasCleanDisk (state_of registry.new)
        → IfOk result (IsAnsweredOverLog L.Log lines cursor.old registry.new cursor.new h request.now) }
    ensures err { (lines : L → LogLines) → KeepsLines L.Log lines → (h : History) → Follows L.Log lines registry.old cursor.old h → HasCleanDisk (state_of registry.new)
        → IfErr result (IsLeft L.Log lines cursor.old registry.new cursor.new h) }
    // No other line is appended than that of the request, with the reply that it gets.
    ensures asks { (lines : L → LogLines) → KeepsLines L.Log lines → (h : History) → Follows L.Log lines registry.old cursor.old h → HasCleanDisk (state_of registry.new)
        → IsLogAsked L.Log (AppendsRequest (lines cursor.new.log) h request.now) cursor.old.log cursor.new.log }
    ensures notes { NotesForeign registry.old registry.new (fault_in_call result) }
    ensures endures { Endures (state_of registry.old) (state_of registry.new) }
{
    if registry.is_poisoned() {
        return Err(ShareStop::Registry(Fault::Poisoned));
    }
    loop {
        if let Some(reply) = act_and_look(registry, cursor, request)? {
            return Ok(reply);
        }
    }
}
