//! Prints why a replay ends before the end of its record.

ghost use Rattle.std.specs.Prelude.{◌≡◌, ◌⊎◌, ℕ, List, IfOk, Err, string_bytes};
ghost use Rattle.registry_commands.specs.Ends.{output_of};
ghost use Rattle.registry_commands.specs.Failures.{IsOfMemory, Prints, PrintsFailure};
ghost use Rattle.registry_commands.specs.Stops.{TellsStop, another_record_text, line_refusal_text, other_reply_text, refused_line_text};

use crate::entries::LineRefusal;
use crate::following::ReplayStop;
use crate::messages::{Failure, fail, refusal_line, reply_line, tell};
use crate::status::ExitStatus;
use byte_streams::Sink;
use registry_rules::Reply;
use std::alloc::Global;
use usbnum_core::NoMemory;

/// Returns why a line is refused, as a line.
fn line_refusal_text(alloc: Global, refusal: LineRefusal) -> Result<String, NoMemory>
    ensures { IfOk result (λ text. string_bytes text ≡ line_refusal_text refusal) }
{
    match refusal {
        LineRefusal::TooLong => Ok(String::from_str(alloc, "more than 4194304 bytes\n")?),
        LineRefusal::NoEntry(refusal) => refusal_line(alloc, refusal),
        LineRefusal::LateFounding => Ok(String::from_str(
            alloc,
            "a founding after the first line\n",
        )?),
        LineRefusal::OtherFounding => Ok(String::from_str(
            alloc,
            "the registry was founded otherwise\n",
        )?),
    }
}

/// Returns which line is refused, and why.
#[tactic(auto, unfolding(crate::specs::Stops::refused_line_text))]
fn refused_line_text(alloc: Global, number: u64, refusal: LineRefusal) -> Result<String, NoMemory>
    ensures { IfOk result (λ text. string_bytes text ≡ refused_line_text number refusal) }
{
    let why = line_refusal_text(alloc, refusal)?;
    Ok(format!(in alloc; "line {number}: {why}")?)
}

/// Returns which line got another reply, and that reply.
#[tactic(auto, unfolding(crate::specs::Stops::other_reply_text))]
fn other_reply_text(alloc: Global, number: u64, reply: &Reply) -> Result<String, NoMemory>
    ensures { IfOk result (λ text. string_bytes text ≡ other_reply_text number reply.now) }
{
    let line = reply_line(alloc, reply)?;
    Ok(format!(in alloc; "line {number}: another reply: {line}")?)
}

/// Returns which line is of another record.
#[tactic(auto, unfolding(crate::specs::Stops::another_record_text))]
fn another_record_text(alloc: Global, number: u64) -> Result<String, NoMemory>
    ensures { IfOk result (λ text. string_bytes text ≡ another_record_text number) }
{
    Ok(format!(in alloc; "line {number}: another record\n")?)
}

/// Prints a text, if there was memory for it, and returns the exit status.
fn reject_with<E: Sink>(errors: &mut E, text: Result<String, NoMemory>) -> ExitStatus
    ensures { (bytes : List ℕ) → IfOk text (λ text. string_bytes text ≡ bytes)
        → ((result ≡ ExitStatus.Rejected) × Prints (output_of E.Sink errors.old errors.new) bytes)
        ⊎ ((result ≡ ExitStatus.Failed) × PrintsFailure IsOfMemory (output_of E.Sink errors.old errors.new)) }
{
    let Ok(text) = text else {
        return fail(errors, Failure::Memory);
    };
    tell(errors, text.as_str());
    ExitStatus::Rejected
}

/// Prints why a replay ended early, and returns the exit status: `Rejected` if a line is refused, got
/// another reply, or is of another record, which the text names, and `Failed` after a failure, or if
/// memory runs out for that text.
pub fn tell_stop<E: Sink>(alloc: Global, errors: &mut E, stop: ReplayStop) -> ExitStatus
    ensures { TellsStop (Err stop) (output_of E.Sink errors.old errors.new) result }
{
    match stop {
        ReplayStop::Line(number, refusal) => {
            reject_with(errors, refused_line_text(alloc, number, refusal))
        }
        ReplayStop::Reply(number, reply) => {
            reject_with(errors, other_reply_text(alloc, number, &reply))
        }
        ReplayStop::Digest(number) => reject_with(errors, another_record_text(alloc, number)),
        ReplayStop::Failure(failure) => fail(errors, failure),
    }
}
