//! Checks a store: acts on its record over a registry in memory, and compares the two.

ghost use Rattle.std.specs.Prelude.{◌≡◌, ◌⊎◌, ◌++◌, ℕ, List, true, false, None, Err, IfErr, IfOk, MatchResult, OnOk, length, string_bytes};
ghost use Rattle.std.specs.List.{count_by};
ghost use Rattle.registry_rules.specs.Accepted.{AreValid, accepted_of};
ghost use Rattle.registry_rules.specs.History.{History, founded};
ghost use Rattle.registry_store.specs.Promise.{NotesForeign, Represents, is_poisoned};
ghost use Rattle.registry_store.specs.Queries.{IsUntouched};
ghost use Rattle.registry_commands.specs.Ends.{effect, ends_of, output_of};
ghost use Rattle.registry_commands.specs.Failures.{Prints};
ghost use Rattle.registry_commands.specs.Checks.{EndsOn, IsCompared, IsCountOf, IsHeldCount, LeadsOn, StopsCheck, StopsFor, StopsOver, StopsPiece, TellsWhy, sound_text, unsound_reply_text, unsound_row_text};
ghost use Rattle.registry_commands.specs.Messages.{failure_line};
ghost use Rattle.registry_commands.specs.Shown.{HoldsOfHistory};

use crate::comparing::{Difference, count_held, other_row, other_totals};
use crate::following::follow;
use crate::messages::{Failure, fail, failure_of, reply_line, tell};
use crate::printing::print;
use crate::status::ExitStatus;
use byte_streams::Sink;
use registry_rules::{Accepted, Founding, Reply, laws};
use registry_store::{Fault, Registry};
use registry_views::lists_of;
use sqlite::{Alter, Connection, MemStore};
use std::alloc::Global;
use usbnum_core::NoMemory;

/// The most accepted requests that are read at once.
const PIECE: u32 = 64;

/// Why a check ends early.
#[derive(Debug, Drop)]
pub enum CheckStop {
    /// The accepted request with this number, from 1, got this reply, and not the recorded one.
    Reply(u64, Reply),
    /// A row of the store is other than the record makes it.
    Row(Difference),
    /// A failure of the registry or of memory.
    Failure(Failure),
}

impl From<Failure> for CheckStop {
    ghost use Rattle.std.specs.Prelude.{◌≡◌};
    ghost use Rattle.registry_commands.specs.declared.checking.CheckStop.TheVariants as stops;

    ghost from_gives = { λ failure stop. stop ≡ stops.Failure failure };

    fn from(failure: Failure) -> CheckStop {
        CheckStop::Failure(failure)
    }
}

impl From<Fault> for CheckStop {
    ghost use Rattle.std.specs.Prelude.{◌≡◌};
    ghost use Rattle.registry_commands.specs.declared.checking.CheckStop.TheVariants as stops;
    ghost use Rattle.registry_commands.specs.Messages.{failure_of};

    ghost from_gives = { λ fault stop. stop ≡ stops.Failure (failure_of fault) };

    fn from(fault: Fault) -> CheckStop {
        CheckStop::Failure(failure_of(fault))
    }
}

/// What is said of a store that is sound.
#[derive(Clone, Copy, Debug, PartialEq, Eq)]
pub struct Counts {
    /// How many requests were accepted.
    pub requests: u64,
    /// How many numbers are held.
    pub held: usize,
}

/// Founds a registry in memory.
fn found_in_memory(alloc: Global, founding: &Founding) -> Result<Registry<MemStore>, Failure>
    ensures ok { IfOk result (λ it. Represents it (founded founding.now)) }
    ensures err { IfErr result (λ failure. (failure ≡ Failure.Store) ⊎ (failure ≡ Failure.Memory)) }
{
    let Ok(conn) = Connection::open_in_memory(alloc) else {
        return Err(Failure::Memory);
    };
    match Registry::found(alloc, conn, founding) {
        Ok(registry) => Ok(registry),
        Err((fault, conn)) => {
            drop(conn.into_store());
            Err(failure_of(fault))
        }
    }
}

/// Acts on accepted requests over a registry in memory, and compares the replies. The first of them
/// comes after `passed` others.
fn follow_piece(
    replayed: &mut Registry<MemStore>,
    passed: u64,
    piece: &[Accepted],
) -> Result<(), CheckStop>
    ensures { (now : History) → Represents replayed.old now
        → MatchResult result (λ done. EndsOn replayed.new (λ x. (rest : List _) (h : History) → LeadsOn now (piece.now ++ rest) h → LeadsOn x rest h)) (StopsPiece now piece.now) }
{
    let mut number = passed;
    for accepted in piece {
        // A number that no request has would only be printed.
        number = number.saturating_add(1);
        if let Some(reply) = follow(replayed, accepted)? {
            return Err(CheckStop::Reply(number, reply));
        }
    }
    Ok(())
}

/// Acts on all accepted requests of the registry over one in memory, which has its founding, and
/// compares the replies. Returns how many they are. Holds a piece of them in memory.
fn follow_record<S: Alter>(
    registry: &mut Registry<S>,
    replayed: &mut Registry<MemStore>,
) -> Result<u64, CheckStop>
    ensures left { IsUntouched registry.old registry.new }
    ensures notes { OnOk result (NotesForeign registry.old registry.new None) }
    ensures ok { (now : History) → Represents replayed.old now → IfOk result (λ count. EndsOn replayed.new (λ x. HoldsOfHistory registry.old registry.new (λ h. AreValid h.deeds
        → LeadsOn now (accepted_of h.deeds) h → (x ≡ h) × (count ≡ length (accepted_of h.deeds))))) }
    ensures err { (now : History) → Represents replayed.old now → IfErr result (StopsFor registry.old registry.new (λ h. AreValid h.deeds × LeadsOn now (accepted_of h.deeds) h)) }
{
    let mut passed = 0u64;
    loop {
        let piece = registry.accepted_after(passed, PIECE)?;
        if piece.is_empty() {
            return Ok(passed);
        }
        follow_piece(replayed, passed, piece.as_slice())?;
        // No store has as many rows as this.
        passed = match passed.checked_add(piece.len() as u64) {
            Some(passed) => passed,
            None => return Err(CheckStop::Failure(Failure::Store)),
        };
    }
}

/// Compares the rows of the registry with those of one in memory. Returns how many numbers are held.
fn compare_rows<S: Alter>(
    alloc: Global,
    registry: &mut Registry<S>,
    replayed: &mut Registry<MemStore>,
) -> Result<usize, CheckStop>
    ensures left { IsUntouched registry.old registry.new }
    ensures notes { OnOk result (NotesForeign registry.old registry.new None) }
    ensures ok { IfOk result (λ held. HoldsOfHistory registry.old registry.new (λ h. IsHeldCount h held)) }
    ensures err { (x : History) → Represents replayed.old x → IfErr result (StopsFor registry.old registry.new (λ h. (x ≡ h) × AreValid h.deeds)) }
{
    let stored = match lists_of(registry) {
        Ok(lists) => lists,
        Err(fault) => return Err(CheckStop::Failure(failure_of(fault))),
    };
    let made = match lists_of(replayed) {
        Ok(lists) => lists,
        Err(fault) => return Err(CheckStop::Failure(failure_of(fault))),
    };
    match other_row(&stored, &made) {
        Ok(None) => {}
        Ok(Some(difference)) => return Err(CheckStop::Row(difference)),
        Err(NoMemory) => return Err(CheckStop::Failure(Failure::Memory)),
    }
    match other_totals(alloc, registry, replayed, made.vendors.as_slice()) {
        Ok(None) => Ok(count_held(stored.numbers.as_slice())),
        Ok(Some(difference)) => Err(CheckStop::Row(difference)),
        Err(fault) => Err(CheckStop::Failure(failure_of(fault))),
    }
}

/// Acts on the record of the registry over one in memory, which has its founding, and compares the
/// replies and then the rows.
fn check_over<S: Alter>(
    alloc: Global,
    registry: &mut Registry<S>,
    replayed: &mut Registry<MemStore>,
) -> Result<Counts, CheckStop>
    ensures left { IsUntouched registry.old registry.new }
    ensures notes { OnOk result (NotesForeign registry.old registry.new None) }
    ensures over { (now : History) → Represents replayed.old now → StopsOver registry.old registry.new (λ h. AreValid h.deeds × LeadsOn now (accepted_of h.deeds) h) result }
{
    let requests = follow_record(registry, replayed)?;
    let held = compare_rows(alloc, registry, replayed)?;
    Ok(Counts { requests, held })
}

/// Checks the rows and the record of a registry. Changes nothing.
fn check_registry<S: Alter>(alloc: Global, registry: &mut Registry<S>) -> Result<Counts, CheckStop>
    ensures left { IsUntouched registry.old registry.new }
    ensures notes { OnOk result (NotesForeign registry.old registry.new None) }
    ensures ok { IfOk result (λ counts. HoldsOfHistory registry.old registry.new (λ h. AreValid h.deeds → IsCountOf h counts)) }
    ensures err { IfErr result (StopsCheck registry.old registry.new) }
    ensures when_poisoned { is_poisoned registry.old ≡ true → (result ≡ Err (CheckStop.Failure Failure.Poisoned)) × (registry.new ≡ registry.old) }
{
    // Only for the proof: the record of a history makes it again.
    laws::is_made_by_its_requests();
    let founding = registry.first_founding()?;
    let mut replayed = found_in_memory(alloc, &founding)?;
    let found = check_over(alloc, registry, &mut replayed);
    drop(replayed.into_connection().into_store());
    found
}

/// Returns what is said of a store that is sound, as a line.
#[tactic(auto, unfolding(crate::specs::Checks::sound_text))]
fn sound_text(alloc: Global, counts: Counts) -> Result<String, NoMemory>
    ensures { IfOk result (λ text. string_bytes text ≡ sound_text counts) }
{
    let requests = counts.requests;
    let held = counts.held;
    Ok(format!(in alloc; "sound: {requests} requests, {held} numbers held\n")?)
}

/// Returns at which request a store is not sound, and the reply that it got, as a line.
#[tactic(auto, unfolding(crate::specs::Checks::unsound_reply_text))]
fn other_reply_text(alloc: Global, number: u64, reply: &Reply) -> Result<String, NoMemory>
    ensures { IfOk result (λ text. string_bytes text ≡ unsound_reply_text number reply.now) }
{
    let line = reply_line(alloc, reply)?;
    Ok(format!(in alloc; "unsound: request {number}: another reply: {line}")?)
}

/// Returns which row of a store is not sound, as a line.
#[tactic(auto, unfolding(crate::specs::Checks::unsound_row_text))]
fn other_row_text(alloc: Global, difference: &Difference) -> Result<String, NoMemory>
    ensures { IfOk result (λ text. string_bytes text ≡ unsound_row_text difference.now) }
{
    Ok(format!(in alloc; "unsound: {difference}\n")?)
}

/// Prints why a store is not sound, if there was memory for the text, and returns the exit status.
fn fail_with<E: Sink>(errors: &mut E, text: Result<String, NoMemory>) -> ExitStatus
    ensures status { result ≡ ExitStatus.Failed }
    ensures told { (bytes : List ℕ) → IfOk text (λ text. string_bytes text ≡ bytes)
        → Prints (output_of E.Sink errors.old errors.new) bytes ⊎ Prints (output_of E.Sink errors.old errors.new) (failure_line Failure.Memory) }
{
    match text {
        Ok(text) => {
            tell(errors, text.as_str());
            ExitStatus::Failed
        }
        Err(NoMemory) => fail(errors, Failure::Memory),
    }
}

/// Prints why a check ended early, and returns the exit status.
fn tell_unsound<E: Sink>(alloc: Global, errors: &mut E, stop: CheckStop) -> ExitStatus
    ensures status { result ≡ ExitStatus.Failed }
    ensures told { TellsWhy stop (output_of E.Sink errors.old errors.new) }
{
    match stop {
        CheckStop::Reply(number, reply) => {
            fail_with(errors, other_reply_text(alloc, number, &reply))
        }
        CheckStop::Row(difference) => fail_with(errors, other_row_text(alloc, &difference)),
        CheckStop::Failure(failure) => fail(errors, failure),
    }
}

/// Checks whether the store of the registry is sound: reads its record and all its rows, acts on the
/// record over a registry in memory, and compares the replies and the rows. Changes nothing.
///
/// The status is `Success` if they are the same: then the output says how many requests were
/// accepted, and how many numbers are held. It is `Failed` if a reply or a row is another, which the
/// error output names, and after a failure of the registry, of memory or of the output, which it
/// names too.
pub fn check<S: Alter, W: Sink, E: Sink>(
    alloc: Global,
    registry: &mut Registry<S>,
    output: &mut W,
    errors: &mut E,
) -> ExitStatus
    ensures { IsCompared (effect registry.old registry.new (ends_of W.Sink E.Sink output.old output.new errors.old errors.new result)) }
{
    match check_registry(alloc, registry) {
        Ok(counts) => match sound_text(alloc, counts) {
            Ok(text) => print(output, errors, text.as_bytes()),
            Err(NoMemory) => fail(errors, Failure::Memory),
        },
        Err(stop) => tell_unsound(alloc, errors, stop),
    }
}
