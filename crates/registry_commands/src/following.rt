//! Acts on the accepted requests of a record, and compares the replies.

ghost use Rattle.std.specs.Prelude.{◌≡◌, ◌≢◌, ◌⊎◌, ◌+◌, ℕ, List, true, false, IfErr, IfOk, MatchResult, OnErr, OnOk, Err, Ok, None, Some, length};
ghost use Rattle.sqlite.specs.State.{HasCleanDisk};
ghost use Rattle.registry_rules.specs.Accepted.{AreValid};
ghost use Rattle.registry_rules.specs.History.{History};
ghost use Rattle.registry_rules.specs.Run.{after_one, reply_to};
ghost use Rattle.registry_rules.specs.declared.verdict.Reply.TheVariants as replies;
ghost use Rattle.registry_tables.specs.Rows.{newest};
ghost use Rattle.registry_store.specs.Promise.{Endures, Leaves, NotesForeign, Represents, is_poisoned, state_of};
ghost use Rattle.registry_commands.specs.RecordLines.{HasPassedLines, ahead};
ghost use Rattle.registry_commands.specs.Replayed.{Differs, HasAllLines, HasFollowedLines, HasAnother, HasDigest, IsAnsweredAs, IsOfActing, IsReplayOf, foreign_by};

use crate::entries::{Entry, LineRefusal, next_entry};
use crate::input::ReadAllFault;
use crate::messages::{Failure, failure_of, input_failure};
use crate::unread::Unread;
use byte_streams::Source;
use registry_rules::{Accepted, Reply};
use registry_store::{Fault, Registry};
use registry_tables::Head;
use sqlite::Alter;
use std::alloc::Global;
use usbnum_core::{Digest, NoMemory};

/// Why a replay ends before the end of the record.
#[derive(Debug, Drop)]
pub enum ReplayStop {
    /// The line with this number, from 1, is refused, and nothing was done for it. Blank lines
    /// count too.
    Line(u64, LineRefusal),
    /// The request of the line with this number got this reply, and not the one in the line. If it
    /// was accepted, it has taken effect.
    Reply(u64, Reply),
    /// The request of the line with this number was accepted now, and got the reply in the line; but the
    /// record of the registry is then not the one whose digest is in the line.
    Digest(u64),
    /// A failure of the record, the registry or memory.
    Failure(Failure),
}

impl From<Failure> for ReplayStop {
    ghost use Rattle.std.specs.Prelude.{◌≡◌};
    ghost use Rattle.registry_commands.specs.declared.following.ReplayStop.TheVariants as stops;

    ghost from_gives = { λ failure stop. stop ≡ stops.Failure failure };

    fn from(failure: Failure) -> ReplayStop {
        ReplayStop::Failure(failure)
    }
}

impl From<Fault> for ReplayStop {
    ghost use Rattle.std.specs.Prelude.{◌≡◌};
    ghost use Rattle.registry_commands.specs.declared.following.ReplayStop.TheVariants as stops;
    ghost use Rattle.registry_commands.specs.Messages.{failure_of};

    ghost from_gives = { λ fault stop. stop ≡ stops.Failure (failure_of fault) };

    fn from(fault: Fault) -> ReplayStop {
        ReplayStop::Failure(failure_of(fault))
    }
}

impl From<ReadAllFault> for ReplayStop {
    ghost use Rattle.std.specs.Prelude.{◌≡◌};
    ghost use Rattle.registry_commands.specs.declared.following.ReplayStop.TheVariants as stops;
    ghost use Rattle.registry_commands.specs.Messages.{input_failure};

    ghost from_gives = { λ fault stop. stop ≡ stops.Failure (input_failure fault) };

    fn from(fault: ReadAllFault) -> ReplayStop {
        ReplayStop::Failure(input_failure(fault))
    }
}

impl From<NoMemory> for ReplayStop {
    ghost use Rattle.std.specs.Prelude.{◌≡◌};
    ghost use Rattle.registry_commands.specs.declared.following.ReplayStop.TheVariants as stops;
    ghost use Rattle.registry_commands.specs.declared.messages.Failure.TheVariants.{Memory};

    ghost from_gives = { λ _ stop. stop ≡ stops.Failure Memory };

    fn from(_error: NoMemory) -> ReplayStop {
        ReplayStop::Failure(Failure::Memory)
    }
}

/// How the request of a line was answered.
#[derive(Debug, Drop)]
pub(crate) enum Answered {
    /// By the reply in the line.
    Same,
    /// By another reply.
    Other(Reply),
    /// By the reply in the line, but the record of the registry is then another.
    Elsewhere,
}

/// Returns whether the reply is the one in the record.
fn is_as_recorded(reply: &Reply, accepted: &Accepted) -> bool
    ensures same { result ≡ true → reply.now ≡ replies.Done accepted.now.reply }
    ensures differs { result ≡ false → reply.now ≢ replies.Done accepted.now.reply }
{
    match reply {
        Reply::Done(text) => text.as_str() == accepted.reply.as_str(),
        Reply::Refused(_) => false,
    }
}

/// Acts on an accepted request. Returns its reply if that is not the one in the record.
pub(crate) fn follow<S: Alter>(
    registry: &mut Registry<S>,
    accepted: &Accepted,
) -> Result<Option<Reply>, Failure>
    ensures replied { (h : History) → Represents registry.old h → HasCleanDisk (state_of registry.new)
        → IfOk result (λ other. Represents registry.new (after_one h accepted.now.request) × Differs (reply_to h accepted.now.request) accepted.now.reply other) }
    ensures other { IfOk result (λ other. (reply : _) → other ≡ Some reply → reply ≢ replies.Done accepted.now.reply) }
    ensures crash { (h : History) → Represents registry.old h → HasCleanDisk (state_of registry.new)
        → OnErr result (Leaves newest (state_of registry.new) (λ x. (x ≡ h) ⊎ (x ≡ after_one h accepted.now.request))) }
    ensures failure { IfErr result (IsOfActing registry.old registry.new) }
    ensures goes_on { OnOk result ((is_poisoned registry.old ≡ false) × (is_poisoned registry.new ≡ false)) }
    ensures when_poisoned { is_poisoned registry.old ≡ true → registry.new ≡ registry.old }
    ensures notes { MatchResult result (λ other. NotesForeign registry.old registry.new None) (λ failure. NotesForeign registry.old registry.new (foreign_by failure)) }
    ensures endures { Endures (state_of registry.old) (state_of registry.new) }
{
    let reply = registry.act(&accepted.request)?;
    if is_as_recorded(&reply, accepted) {
        Ok(None)
    } else {
        Ok(Some(reply))
    }
}

/// Returns how many requests the registry accepted; 0 if it is poisoned.
fn count_of<S: Alter>(registry: &Registry<S>) -> u32
    ensures { (h : History) → Represents registry.now h → AreValid h.deeds → result ≡ length h.deeds }
{
    match registry.head() {
        Ok(head) => head.count,
        Err(_) => 0,
    }
}

/// Returns whether a head has another number of requests than this, and another digest.
fn is_other(head: &Head, before: u32, digest: &Digest) -> bool
    ensures other { result ≡ true → (head.now.count ≢ before) × (digest.now ≢ head.now.digest) }
    ensures same { result ≡ false → (head.now.count ≡ before) ⊎ (digest.now ≡ head.now.digest) }
{
    if head.count == before {
        false
    } else {
        head.digest.as_str() != digest.as_str()
    }
}

/// Returns whether the registry accepted another number of requests than this before, and its record
/// has another digest than this, if one is given.
fn has_another<S: Alter>(registry: &Registry<S>, before: u32, digest: &Option<Digest>) -> bool
    ensures has { result ≡ true → (h : History) → Represents registry.now h → HasAnother before h digest.now }
    ensures hasnt { result ≡ false → (h : History) → Represents registry.now h → HasDigest before h digest.now }
    ensures given { result ≡ true → (given : List ℕ) × (digest.now ≡ Some given) }
{
    match digest {
        None => false,
        Some(digest) => match registry.head() {
            Ok(head) => is_other(head, before, digest),
            Err(_) => false,
        },
    }
}

/// Acts on the accepted request of a line. If it was accepted now, and the line has a digest, compares
/// that with the digest of the registry.
fn follow_given<S: Alter>(
    registry: &mut Registry<S>,
    accepted: &Accepted,
    digest: &Option<Digest>,
) -> Result<Answered, Failure>
    ensures answered { (h : History) → Represents registry.old h → HasCleanDisk (state_of registry.new)
        → IfOk result (λ answered. Represents registry.new (after_one h accepted.now.request) × IsAnsweredAs h accepted.now digest.now answered) }
    ensures other { IfOk result (λ answered. (reply : _) → answered ≡ Answered.Other reply → reply ≢ replies.Done accepted.now.reply) }
    ensures given { IfOk result (λ answered. answered ≡ Answered.Elsewhere → (given : List ℕ) × (digest.now ≡ Some given)) }
    ensures crash { (h : History) → Represents registry.old h → HasCleanDisk (state_of registry.new)
        → OnErr result (Leaves newest (state_of registry.new) (λ x. (x ≡ h) ⊎ (x ≡ after_one h accepted.now.request))) }
    ensures failure { IfErr result (IsOfActing registry.old registry.new) }
    ensures goes_on { OnOk result ((is_poisoned registry.old ≡ false) × (is_poisoned registry.new ≡ false)) }
    ensures when_poisoned { is_poisoned registry.old ≡ true → registry.new ≡ registry.old }
    ensures notes { MatchResult result (λ answered. NotesForeign registry.old registry.new None) (λ failure. NotesForeign registry.old registry.new (foreign_by failure)) }
    ensures endures { Endures (state_of registry.old) (state_of registry.new) }
{
    let before = count_of(registry);
    match follow(registry, accepted)? {
        None => {
            if has_another(registry, before, digest) {
                Ok(Answered::Elsewhere)
            } else {
                Ok(Answered::Same)
            }
        }
        Some(reply) => Ok(Answered::Other(reply)),
    }
}

/// Acts on the accepted request of a line in the same way, and drops it. Each end of a loop over the
/// lines would else drop an order of any kind.
fn follow_line<S: Alter>(
    registry: &mut Registry<S>,
    accepted: Accepted,
    digest: Option<Digest>,
) -> Result<Answered, Failure>
    ensures answered { (h : History) → Represents registry.old h → HasCleanDisk (state_of registry.new)
        → IfOk result (λ answered. Represents registry.new (after_one h accepted.request) × IsAnsweredAs h accepted digest answered) }
    ensures other { IfOk result (λ answered. (reply : _) → answered ≡ Answered.Other reply → reply ≢ replies.Done accepted.reply) }
    ensures given { IfOk result (λ answered. answered ≡ Answered.Elsewhere → (given : List ℕ) × (digest ≡ Some given)) }
    ensures crash { (h : History) → Represents registry.old h → HasCleanDisk (state_of registry.new)
        → OnErr result (Leaves newest (state_of registry.new) (λ x. (x ≡ h) ⊎ (x ≡ after_one h accepted.request))) }
    ensures failure { IfErr result (IsOfActing registry.old registry.new) }
    ensures goes_on { OnOk result ((is_poisoned registry.old ≡ false) × (is_poisoned registry.new ≡ false)) }
    ensures when_poisoned { is_poisoned registry.old ≡ true → registry.new ≡ registry.old }
    ensures notes { MatchResult result (λ answered. NotesForeign registry.old registry.new None) (λ failure. NotesForeign registry.old registry.new (foreign_by failure)) }
    ensures endures { Endures (state_of registry.old) (state_of registry.new) }
{
    follow_given(registry, &accepted, &digest)
}

/// Acts on the accepted requests of the lines that follow, one after another, and compares each
/// reply with the one in its line, and the digest with that in the line, if it has one and its request
/// was accepted now. Reads on once that is done for each whole line that was read.
///
/// # Errors
///
/// `Line` at the first line that is no accepted request and not blank, or is too long. `Reply` at
/// the first one whose reply differs, and `Digest` at the first one whose digest does. `Failure` after a
/// failure of the source, of the registry or of memory: then the request of the next line may have been
/// acted on. The lines before were acted
/// on, and got their replies. After an error neither the source nor `unread` may be used any more.
pub fn follow_lines<R: Source, S: Alter>(
    alloc: Global,
    source: &mut R,
    unread: &mut Unread,
    registry: &mut Registry<S>,
) -> Result<(), ReplayStop>
    ensures replays { IsReplayOf (ahead (R.remaining source.old) unread.old) unread.old.lines (R.failures source.old) (R.failures source.new)
        registry.old registry.new result }
    ensures passed { OnOk result (HasPassedLines (ahead (R.remaining source.old) unread.old) (ahead (R.remaining source.new) unread.new) unread.old.lines unread.new) }
    ensures kept { result ≢ Err (ReplayStop.Failure Failure.File) → R.failures source.new ≡ R.failures source.old }
    ensures waits { result ≡ Err (ReplayStop.Failure Failure.File) → HasAllLines unread.old.lines (ahead (R.remaining source.old) unread.old) unread.new
        ⊎ HasFollowedLines (ahead (R.remaining source.old) unread.old) (ahead (R.remaining source.new) unread.new) unread.new registry.old registry.new }
{
    loop {
        match next_entry(alloc, source, unread)? {
            Entry::End => return Ok(()),
            Entry::Blank => {}
            Entry::Accepted(accepted, digest) => match follow_line(registry, accepted, digest)? {
                Answered::Same => {}
                Answered::Other(reply) => return Err(ReplayStop::Reply(unread.lines(), reply)),
                Answered::Elsewhere => return Err(ReplayStop::Digest(unread.lines())),
            },
            Entry::Founding(_) => {
                return Err(ReplayStop::Line(unread.lines() + 1, LineRefusal::LateFounding));
            }
            Entry::Bad(refusal) => return Err(ReplayStop::Line(unread.lines() + 1, refusal)),
        }
    }
}
