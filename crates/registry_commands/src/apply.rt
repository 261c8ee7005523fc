//! Acts on request lines over a registry, one after another.

ghost use Rattle.std.specs.Prelude.{◌≡◌, ◌≤◌, ◌⊎◌, ℕ, All, List, true, false, length, drop, IfErr, None, Ok, Err, OnOk, OnErr};
ghost use Rattle.sqlite.specs.State.{HasCleanDisk};
ghost use Rattle.byte_streams.specs.Streams.{MayGive};
ghost use Rattle.registry_rules.specs.History.{History};
ghost use Rattle.table_laws.specs.Inside.{CommitsNothing};
ghost use Rattle.registry_store.specs.Attempt.{AddsNoDeed};
ghost use Rattle.registry_store.specs.Promise.{Endures, NotesForeign, Represents, is_poisoned, state_of};
ghost use Rattle.registry_store.specs.Run.{HasAnsweredNone};
ghost use Rattle.registry_commands.specs.Lines.{requests_in};
ghost use Rattle.registry_commands.specs.Messages.{bad_line_text};
ghost use Rattle.registry_commands.specs.Apply.{IsApplied, IsOfReplies, IsOfRun, IsStoppedAt, IsThrough, IsUnread};
ghost use Rattle.registry_commands.specs.Ends.{effect, ends_of, output_of};
ghost use Rattle.registry_commands.specs.Failures.{IsOfInput, IsOfMemory, IsTooLong, Prints, PrintsFailure, TellsFailedReads};

use crate::input::read_all;
use crate::lines::{BadLine, requests_in};
use crate::messages::{Failure, bad_line_text, fail, failure_of, input_failure, tell};
use crate::replies::ReplyLines;
use crate::status::ExitStatus;
use byte_streams::{Sink, Source};
use registry_rules::{Rejection, Request};
use registry_store::{Registry, RunStop};
use sqlite::Alter;
use std::alloc::Global;

/// Acts on the requests from the first unanswered one on. Writes the reply to each before it acts
/// on the next one.
fn write_replies<S: Alter, W: Sink>(
    registry: &mut Registry<S>,
    requests: &[Request],
    answered: usize,
    lines: &mut ReplyLines<'_, W>,
) -> Result<(), Failure>
    requires { answered ≤ length requests.now }
    ensures same_reference { lines.new.output.ghost_name ≡ lines.old.output.ghost_name }
    ensures through { (h : History) → HasAnsweredNone registry.old h (drop answered requests.now) → HasCleanDisk (state_of registry.new)
        → OnOk result (IsThrough registry.new h (drop answered requests.now) (output_of W.Sink lines.old.output.now lines.new.output.now)) }
    ensures stopped { (h : History) → HasAnsweredNone registry.old h (drop answered requests.now) → HasCleanDisk (state_of registry.new)
        → OnErr result (IsStoppedAt registry.new h (drop answered requests.now) (output_of W.Sink lines.old.output.now lines.new.output.now)) }
    ensures failure { IfErr result (λ failure. IsOfRun registry.old registry.new (λ h. HasAnsweredNone registry.old h (drop answered requests.now)) failure
        × IsOfReplies (output_of W.Sink lines.old.output.now lines.new.output.now) failure) }
    ensures when_poisoned { is_poisoned registry.old ≡ true → (result ≡ Err Failure.Poisoned) × (registry.new ≡ registry.old) × (W.contents lines.new.output.now ≡ W.contents lines.old.output.now) }
    ensures kept { OnOk result (W.failures lines.new.output.now ≡ W.failures lines.old.output.now) }
    ensures goes_on { OnOk result (is_poisoned registry.new ≡ false) }
    ensures notes { OnOk result (NotesForeign registry.old registry.new None) }
    ensures no_deed { (h : History) → Represents registry.old h → All (AddsNoDeed h) (drop answered requests.now) → HasCleanDisk (state_of registry.new) → CommitsNothing (state_of registry.old) (state_of registry.new) }
    ensures endures { Endures (state_of registry.old) (state_of registry.new) }
{
    match registry.run_to(requests, answered, lines) {
        Ok(()) => Ok(()),
        Err(RunStop::Fault(fault)) => Err(failure_of(fault)),
        Err(RunStop::Cut(failure)) => Err(failure),
    }
}

/// Acts on the requests from the first unanswered one on, and writes each reply as a line of the output.
fn answer_from<S: Alter, W: Sink>(
    alloc: Global,
    registry: &mut Registry<S>,
    requests: &[Request],
    answered: usize,
    output: &mut W,
) -> Result<(), Failure>
    requires { answered ≤ length requests.now }
    ensures through { (h : History) → HasAnsweredNone registry.old h (drop answered requests.now) → HasCleanDisk (state_of registry.new)
        → OnOk result (IsThrough registry.new h (drop answered requests.now) (output_of W.Sink output.old output.new)) }
    ensures stopped { (h : History) → HasAnsweredNone registry.old h (drop answered requests.now) → HasCleanDisk (state_of registry.new)
        → OnErr result (IsStoppedAt registry.new h (drop answered requests.now) (output_of W.Sink output.old output.new)) }
    ensures failure { IfErr result (λ failure. IsOfRun registry.old registry.new (λ h. HasAnsweredNone registry.old h (drop answered requests.now)) failure
        × IsOfReplies (output_of W.Sink output.old output.new) failure) }
    ensures when_poisoned { is_poisoned registry.old ≡ true → (result ≡ Err Failure.Poisoned) × (registry.new ≡ registry.old) × (W.contents output.new ≡ W.contents output.old) }
    ensures kept { OnOk result (W.failures output.new ≡ W.failures output.old) }
    ensures goes_on { OnOk result (is_poisoned registry.new ≡ false) }
    ensures notes { OnOk result (NotesForeign registry.old registry.new None) }
    ensures no_deed { (h : History) → Represents registry.old h → All (AddsNoDeed h) (drop answered requests.now) → HasCleanDisk (state_of registry.new) → CommitsNothing (state_of registry.old) (state_of registry.new) }
    ensures endures { Endures (state_of registry.old) (state_of registry.new) }
{
    let mut lines = ReplyLines { alloc, output };
    write_replies(registry, requests, answered, &mut lines)
}

/// Prints which line is not a request, and returns the exit status.
pub fn reject_line<E: Sink>(alloc: Global, errors: &mut E, bad: BadLine) -> ExitStatus
    ensures { ((result ≡ ExitStatus.Rejected) × Prints (output_of E.Sink errors.old errors.new) (bad_line_text bad))
        ⊎ ((result ≡ ExitStatus.Failed) × PrintsFailure IsOfMemory (output_of E.Sink errors.old errors.new)) }
{
    let Ok(text) = bad_line_text(alloc, bad) else {
        return fail(errors, Failure::Memory);
    };
    tell(errors, text.as_str());
    ExitStatus::Rejected
}

/// Acts on the requests after the first `answered` ones.
fn apply_requests<S: Alter, W: Sink, E: Sink>(
    alloc: Global,
    requests: &[Request],
    answered: u64,
    registry: &mut Registry<S>,
    output: &mut W,
    errors: &mut E,
) -> ExitStatus
    ensures { IsApplied IsOfMemory
        (effect registry.old registry.new (ends_of W.Sink E.Sink output.old output.new errors.old errors.new result)) (Ok requests.now) answered }
{
    if answered > requests.len() as u64 {
        tell(errors, "answered exceeds requests\n");
        return ExitStatus::Rejected;
    }
    match answer_from(alloc, registry, requests, answered as usize, output) {
        Ok(()) => ExitStatus::Success,
        Err(failure) => fail(errors, failure),
    }
}

/// Reads request lines and acts on them.
fn apply_bytes<S: Alter, W: Sink, E: Sink>(
    alloc: Global,
    bytes: &[u8],
    answered: u64,
    registry: &mut Registry<S>,
    output: &mut W,
    errors: &mut E,
) -> ExitStatus
    ensures { IsApplied IsOfMemory
        (effect registry.old registry.new (ends_of W.Sink E.Sink output.old output.new errors.old errors.new result)) (requests_in bytes.now) answered }
{
    match requests_in(alloc, bytes) {
        Ok(requests) => apply_requests(
            alloc,
            requests.as_slice(),
            answered,
            registry,
            output,
            errors,
        ),
        Err(Rejection::Refused(bad)) => reject_line(alloc, errors, bad),
        Err(Rejection::NoMemory) => fail(errors, Failure::Memory),
    }
}

/// Acts on the requests of all lines of a source, except for the first `answered` ones, which were
/// answered before. Reads all lines before it acts on the first request, and writes each reply line
/// before it acts on the next request.
///
/// The status is `Success` if all requests were acted on, refused ones too, and all reply lines are
/// written. It is `Rejected` if a line is not a request, or `answered` exceeds the number of
/// requests: then nothing is acted on, and the error output says why. It is `Failed` after a
/// failure of the source, the registry, the output, or memory, which the error output names. An
/// input of more than 4,294,967,295 bytes is such a failure, and nothing is acted on. A failure of
/// the error output is told nowhere.
pub fn apply_lines<R: Source, S: Alter, W: Sink, E: Sink>(
    alloc: Global,
    source: &mut R,
    answered: u64,
    registry: &mut Registry<S>,
    output: &mut W,
    errors: &mut E,
) -> ExitStatus
    ensures { (bytes : List ℕ) × MayGive (R.remaining source.old) bytes
        × IsApplied (IsOfInput (R.failures source.old) (R.failures source.new) bytes)
        (effect registry.old registry.new (ends_of W.Sink E.Sink output.old output.new errors.old errors.new result)) (requests_in bytes) answered
        × (IsTooLong bytes → (result ≡ ExitStatus.Failed) × IsUnread (IsOfInput (R.failures source.old) (R.failures source.new) bytes)
        (effect registry.old registry.new (ends_of W.Sink E.Sink output.old output.new errors.old errors.new result)))
        × TellsFailedReads (result ≡ ExitStatus.Failed) (output_of E.Sink errors.old errors.new) (R.failures source.old) (R.failures source.new) bytes }
{
    match read_all(alloc, source) {
        Ok(bytes) => apply_bytes(alloc, bytes.as_slice(), answered, registry, output, errors),
        Err(fault) => fail(errors, input_failure(fault)),
    }
}
