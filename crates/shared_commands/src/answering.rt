//! Answers requests over the log that the registry follows, and writes their replies.

ghost use Rattle.std.specs.Prelude.{◌≡◌, true, None, Err, IfErr, IfOk, OnErr, OnOk};
ghost use Rattle.sqlite.specs.State.{HasCleanDisk};
ghost use Rattle.registry_rules.specs.History.{History};
ghost use Rattle.registry_store.specs.Promise.{Endures, NotesForeign, is_poisoned, state_of};
ghost use Rattle.registry_commands.specs.Ends.{output_of};
ghost use Rattle.shared_log.specs.Calls.{KeepsLines, LogLines};
ghost use Rattle.shared_registry.specs.Asks.{AppendsRequest, IsLogAsked};
ghost use Rattle.shared_registry.specs.Follows.{Follows};
ghost use Rattle.shared_registry.specs.declared.stop.ShareStop.TheVariants as shares;
ghost use Rattle.shared_commands.specs.declared.answering.AnswerStop.TheVariants as stops;
ghost use Rattle.shared_commands.specs.Answered.{HasAnsweredAll, HasAnsweredSome, HasReplied, IsCutOverLog, IsSilentAt, TellsWrites, fault_behind_answer};

use byte_streams::Sink;
use registry_commands::{ExitStatus, Failure, exit_status_of, put_reply};
use registry_rules::Request;
use registry_store::{Fault, Registry};
use shared_log::Log;
use shared_registry::{Cursor, ShareStop, act};
use sqlite::Alter;
use std::alloc::Global;

/// Why a request got no reply line.
#[derive(Clone, Copy, Debug, PartialEq, Eq)]
pub enum AnswerStop {
    /// The registry did not go on with its log.
    Share(ShareStop),
    /// The request was answered, and its line was not written whole, for this reason.
    Output(Failure),
}

impl From<ShareStop> for AnswerStop {
    ghost from_gives = { λ cause stop. stop ≡ stops.Share cause };

    fn from(cause: ShareStop) -> AnswerStop {
        AnswerStop::Share(cause)
    }
}

impl From<Failure> for AnswerStop {
    ghost from_gives = { λ cause stop. stop ≡ stops.Output cause };

    fn from(cause: Failure) -> AnswerStop {
        AnswerStop::Output(cause)
    }
}

/// Acts on one request, and writes its reply as a line. Returns the exit status for it.
pub(crate) fn answer<S: Alter, L: Log, W: Sink>(
    alloc: Global,
    registry: &mut Registry<S>,
    cursor: &mut Cursor<L>,
    request: &Request,
    output: &mut W,
) -> Result<ExitStatus, AnswerStop>
    ensures ok { (lines : L → LogLines) → KeepsLines L.Log lines → (h : History) → Follows L.Log lines registry.old cursor.old h → HasCleanDisk (state_of registry.new)
        → IfOk result (HasReplied L.Log lines registry.new cursor.new cursor.old h request.now (output_of W.Sink output.old output.new)) }
    ensures err { (lines : L → LogLines) → KeepsLines L.Log lines → (h : History) → Follows L.Log lines registry.old cursor.old h → HasCleanDisk (state_of registry.new)
        → IfErr result (IsCutOverLog L.Log lines registry.new cursor.new cursor.old h request.now (W.contents output.old) (W.contents output.new)) }
    ensures asks { (lines : L → LogLines) → KeepsLines L.Log lines → (h : History) → Follows L.Log lines registry.old cursor.old h → HasCleanDisk (state_of registry.new)
        → IsLogAsked L.Log (AppendsRequest (lines cursor.new.log) h request.now) cursor.old.log cursor.new.log }
    ensures when_poisoned { is_poisoned registry.old ≡ true → (result ≡ Err (stops.Share (shares.Registry Fault.Poisoned))) × (registry.new ≡ registry.old) × (cursor.new ≡ cursor.old) }
    ensures kept { OnOk result (W.failures output.new ≡ W.failures output.old) }
    ensures writes { IfErr result (TellsWrites (W.failures output.old) (W.failures output.new)) }
    ensures silent { IfErr result (IsSilentAt (output_of W.Sink output.old output.new)) }
    ensures notes { NotesForeign registry.old registry.new (fault_behind_answer result) }
    ensures endures { Endures (state_of registry.old) (state_of registry.new) }
{
    let reply = act(registry, cursor, request)?;
    put_reply(alloc, output, &reply)?;
    Ok(exit_status_of(&reply))
}

/// Acts on requests one after another, and writes the reply to each as a line before it acts on the
/// next one.
pub(crate) fn answer_all<S: Alter, L: Log, W: Sink>(
    alloc: Global,
    registry: &mut Registry<S>,
    cursor: &mut Cursor<L>,
    requests: &[Request],
    output: &mut W,
) -> Result<(), AnswerStop>
    ensures ok { (lines : L → LogLines) → KeepsLines L.Log lines → (h : History) → Follows L.Log lines registry.old cursor.old h → HasCleanDisk (state_of registry.new)
        → OnOk result (HasAnsweredAll L.Log lines registry.new cursor.new cursor.old h requests.now (output_of W.Sink output.old output.new)) }
    ensures err { (lines : L → LogLines) → KeepsLines L.Log lines → (h : History) → Follows L.Log lines registry.old cursor.old h → HasCleanDisk (state_of registry.new)
        → IfErr result (HasAnsweredSome L.Log lines registry.new cursor.new cursor.old h requests.now (output_of W.Sink output.old output.new)) }
    ensures when_poisoned { is_poisoned registry.old ≡ true → (registry.new ≡ registry.old) × (cursor.new ≡ cursor.old) × (W.contents output.new ≡ W.contents output.old) }
    ensures kept { OnOk result (W.failures output.new ≡ W.failures output.old) }
    ensures writes { IfErr result (TellsWrites (W.failures output.old) (W.failures output.new)) }
    ensures notes { NotesForeign registry.old registry.new (fault_behind_answer result) }
    ensures endures { Endures (state_of registry.old) (state_of registry.new) }
{
    for request in requests {
        answer(alloc, registry, cursor, request, output)?;
    }
    Ok(())
}
