//! Writes the record of a registry: its founding and its accepted requests, each as a line.

ghost use Rattle.std.specs.Prelude.{◌≡◌, ◌⊎◌, ◌++◌, ◌∷◌, ℕ, List, [], true, None, IfErr, IfOk, OnErr, OnOk, Err, drop, length, take, string_bytes};
ghost use Rattle.std.specs.Io.KnownBytes.{Appends};
ghost use Rattle.byte_streams.specs.Streams.{AppendsPrefix};
ghost use Rattle.registry_rules.specs.Accepted.{AreValid, accepted_of};
ghost use Rattle.registry_rules.specs.declared.accepted.Accepted.{Accepted};
ghost use Rattle.registry_store.specs.Promise.{NotesForeign, is_poisoned};
ghost use Rattle.registry_store.specs.Queries.{IsUntouched};
ghost use Rattle.registry_wire.specs.Record.{accepted_line, founding_line};
ghost use Rattle.registry_commands.specs.Ends.{effect, ends_of};
ghost use Rattle.registry_commands.specs.Failures.{IsOfOutput};
ghost use Rattle.registry_commands.specs.Recorded.{AreNextRequests, IsOfRecord, IsRecordWritten, accepted_lines, record_text};
ghost use Rattle.registry_commands.specs.Shown.{HoldsOfHistory};

use crate::messages::{Failure, fail};
use crate::status::ExitStatus;
use byte_streams::{Sink, put_all};
use registry_rules::Accepted;
use registry_store::Registry;
use registry_wire::{accepted_line, founding_line};
use sqlite::Alter;
use std::alloc::Global;
use usbnum_core::NoMemory;

/// The most accepted requests that are read at once.
const PIECE: u32 = 64;

/// Writes a text and a line feed, if there was memory for the text.
fn put_line<W: Sink>(output: &mut W, text: Result<String, NoMemory>) -> Result<(), Failure>
    ensures ok { (bytes : List ℕ) → IfOk text (λ text. string_bytes text ≡ bytes)
        → OnOk result (Appends (W.contents output.old) (W.contents output.new) (bytes ++ 10 ∷ [])) }
    ensures err { (bytes : List ℕ) → IfOk text (λ text. string_bytes text ≡ bytes)
        → OnErr result (AppendsPrefix (W.contents output.old) (W.contents output.new) (bytes ++ 10 ∷ [])) }
    ensures kept { OnOk result (W.failures output.new ≡ W.failures output.old) }
    ensures failure { IfErr result (λ failure. ((failure ≡ Failure.Memory) ⊎ (failure ≡ Failure.File)) × IsOfOutput (W.failures output.old) (W.failures output.new) failure) }
{
    let mut line = text?;
    line.push_str("\n")?;
    put_all(output, line.as_bytes())?;
    Ok(())
}

/// Writes accepted requests as lines.
fn put_accepted<W: Sink>(alloc: Global, output: &mut W, list: &[Accepted]) -> Result<(), Failure>
    ensures ok { OnOk result (Appends (W.contents output.old) (W.contents output.new) (accepted_lines list.now)) }
    ensures err { OnErr result (AppendsPrefix (W.contents output.old) (W.contents output.new) (accepted_lines list.now)) }
    ensures kept { OnOk result (W.failures output.new ≡ W.failures output.old) }
    ensures failure { IfErr result (λ failure. ((failure ≡ Failure.Memory) ⊎ (failure ≡ Failure.File)) × IsOfOutput (W.failures output.old) (W.failures output.new) failure) }
{
    for accepted in list {
        put_line(output, accepted_line(alloc, accepted))?;
    }
    Ok(())
}

/// Writes the next accepted requests after the first `passed` as lines, at most 64. Returns how many
/// they were, which is 0 only if there are none.
fn put_piece<S: Alter, W: Sink>(
    alloc: Global,
    registry: &mut Registry<S>,
    passed: u64,
    output: &mut W,
) -> Result<usize, Failure>
    ensures left { IsUntouched registry.old registry.new }
    ensures ok { IfOk result (λ n. (items : List Accepted) × (n ≡ length items) × Appends (W.contents output.old) (W.contents output.new) (accepted_lines items)
        × HoldsOfHistory registry.old registry.new (λ h. AreNextRequests passed h items)) }
    ensures err { OnErr result (HoldsOfHistory registry.old registry.new (λ h. AreValid h.deeds
        → AppendsPrefix (W.contents output.old) (W.contents output.new) (accepted_lines (take 64 (drop passed (accepted_of h.deeds)))))) }
    ensures kept { OnOk result (W.failures output.new ≡ W.failures output.old) }
    ensures failure { IfErr result (λ failure. IsOfRecord registry.old registry.new failure × IsOfOutput (W.failures output.old) (W.failures output.new) failure) }
    ensures when_poisoned { is_poisoned registry.old ≡ true → (result ≡ Err Failure.Poisoned) × (registry.new ≡ registry.old) × (output.new ≡ output.old) }
    ensures notes { OnOk result (NotesForeign registry.old registry.new None) }
{
    let piece = registry.accepted_after(passed, PIECE)?;
    put_accepted(alloc, output, piece.as_slice())?;
    Ok(piece.len())
}

/// Writes the accepted requests after the first `after` as lines. Holds a piece of them in memory.
fn put_requests<S: Alter, W: Sink>(
    alloc: Global,
    registry: &mut Registry<S>,
    after: u64,
    output: &mut W,
) -> Result<(), Failure>
    ensures left { IsUntouched registry.old registry.new }
    ensures ok { OnOk result (HoldsOfHistory registry.old registry.new (λ h. AreValid h.deeds
        → Appends (W.contents output.old) (W.contents output.new) (accepted_lines (drop after (accepted_of h.deeds))))) }
    ensures err { OnErr result (HoldsOfHistory registry.old registry.new (λ h. AreValid h.deeds
        → AppendsPrefix (W.contents output.old) (W.contents output.new) (accepted_lines (drop after (accepted_of h.deeds))))) }
    ensures kept { OnOk result (W.failures output.new ≡ W.failures output.old) }
    ensures failure { IfErr result (λ failure. IsOfRecord registry.old registry.new failure × IsOfOutput (W.failures output.old) (W.failures output.new) failure) }
    ensures when_poisoned { is_poisoned registry.old ≡ true → (result ≡ Err Failure.Poisoned) × (registry.new ≡ registry.old) × (output.new ≡ output.old) }
    ensures notes { OnOk result (NotesForeign registry.old registry.new None) }
{
    let mut passed = after;
    loop {
        let count = put_piece(alloc, registry, passed, output)?;
        if count == 0 {
            return Ok(());
        }
        // No store has as many rows as this.
        passed = match passed.checked_add(count as u64) {
            Some(passed) => passed,
            None => return Err(Failure::Store),
        };
    }
}

/// Writes the founding as a line.
fn put_founding<S: Alter, W: Sink>(
    alloc: Global,
    registry: &mut Registry<S>,
    output: &mut W,
) -> Result<(), Failure>
    ensures left { IsUntouched registry.old registry.new }
    ensures ok { OnOk result (HoldsOfHistory registry.old registry.new (λ h. Appends (W.contents output.old) (W.contents output.new) (founding_line h.founding ++ 10 ∷ []))) }
    ensures err { OnErr result (HoldsOfHistory registry.old registry.new (λ h. AppendsPrefix (W.contents output.old) (W.contents output.new) (founding_line h.founding ++ 10 ∷ []))) }
    ensures kept { OnOk result (W.failures output.new ≡ W.failures output.old) }
    ensures failure { IfErr result (λ failure. IsOfRecord registry.old registry.new failure × IsOfOutput (W.failures output.old) (W.failures output.new) failure) }
    ensures when_poisoned { is_poisoned registry.old ≡ true → (result ≡ Err Failure.Poisoned) × (registry.new ≡ registry.old) × (output.new ≡ output.old) }
    ensures notes { OnOk result (NotesForeign registry.old registry.new None) }
{
    let founding = registry.first_founding()?;
    put_line(output, founding_line(alloc, &founding))?;
    Ok(())
}

/// Writes the whole record, or only the requests after the first `after`.
fn put_record<S: Alter, W: Sink>(
    alloc: Global,
    registry: &mut Registry<S>,
    after: Option<u64>,
    output: &mut W,
) -> Result<(), Failure>
    ensures left { IsUntouched registry.old registry.new }
    ensures ok { OnOk result (HoldsOfHistory registry.old registry.new (λ h. AreValid h.deeds
        → Appends (W.contents output.old) (W.contents output.new) (record_text h after))) }
    ensures err { OnErr result (HoldsOfHistory registry.old registry.new (λ h. AreValid h.deeds
        → AppendsPrefix (W.contents output.old) (W.contents output.new) (record_text h after))) }
    ensures kept { OnOk result (W.failures output.new ≡ W.failures output.old) }
    ensures failure { IfErr result (λ failure. IsOfRecord registry.old registry.new failure × IsOfOutput (W.failures output.old) (W.failures output.new) failure) }
    ensures when_poisoned { is_poisoned registry.old ≡ true → (result ≡ Err Failure.Poisoned) × (registry.new ≡ registry.old) × (output.new ≡ output.old) }
    ensures notes { OnOk result (NotesForeign registry.old registry.new None) }
{
    match after {
        Some(after) => put_requests(alloc, registry, after, output),
        None => {
            put_founding(alloc, registry, output)?;
            put_requests(alloc, registry, 0, output)?;
            Ok(())
        }
    }
}

/// Writes the record of the registry: the line of its founding, with its first licences, and a line
/// for each accepted request with its reply, in the order in which they were accepted. With `after`
/// it writes only the requests after the first `after` ones, and no founding. Changes nothing.
/// Reads the requests in pieces, so that memory does not grow with the history.
///
/// The status is `Success` if all lines are written. It is `Failed` after a failure of the
/// registry, of memory or of the output, which the error output names: then a prefix of their text
/// is written.
pub fn history<S: Alter, W: Sink, E: Sink>(
    alloc: Global,
    registry: &mut Registry<S>,
    after: Option<u64>,
    output: &mut W,
    errors: &mut E,
) -> ExitStatus
    ensures { IsRecordWritten (effect registry.old registry.new (ends_of W.Sink E.Sink output.old output.new errors.old errors.new result)) after }
{
    match put_record(alloc, registry, after, output) {
        Ok(()) => ExitStatus::Success,
        Err(failure) => fail(errors, failure),
    }
}
