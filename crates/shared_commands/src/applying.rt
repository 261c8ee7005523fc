//! Acts on request lines over a log, one after another.

ghost use Rattle.std.specs.Prelude.{◌≡◌, ◌≤◌, ◌⊎◌, ℕ, List, true, length, drop, IfErr, IfOk, Ok, Err};
ghost use Rattle.byte_streams.specs.Streams.{MayGive};
ghost use Rattle.registry_commands.specs.Lines.{requests_in};
ghost use Rattle.registry_commands.specs.Ends.{output_of};
ghost use Rattle.registry_commands.specs.Failures.{IsOfInput, IsOfMemory, IsTooLong, TellsFailedReads};
ghost use Rattle.shared_commands.specs.Applied.{DidApply, DidRun, IsNoInput, did};

use crate::answering::{AnswerStop, answer_all};
use byte_streams::{Sink, Source};
use registry_commands::{
    ExitStatus, Failure, fail, input_failure, read_all, reject_line, requests_in, tell,
};
use registry_rules::{Rejection, Request};
use registry_store::Registry;
use shared_log::Log;
use shared_registry::{Cursor, ShareStop};
use sqlite::Alter;
use std::alloc::Global;

/// Returns the requests after the first ones.
fn after_first(requests: &[Request], answered: usize) -> &[Request]
    requires { answered ≤ length requests.now }
    ensures { result.now ≡ drop answered requests.now }
{
    &requests[answered..]
}

/// Answers requests, and prints what cut a reply line.
fn run_over<S: Alter, L: Log, W: Sink, E: Sink>(
    alloc: Global,
    requests: &[Request],
    registry: &mut Registry<S>,
    cursor: &mut Cursor<L>,
    output: &mut W,
    errors: &mut E,
) -> Result<ExitStatus, ShareStop>
    ensures { DidRun L.Log (did W.Sink E.Sink registry.old registry.new cursor.old cursor.new output.old output.new errors.old errors.new result) requests.now }
{
    match answer_all(alloc, registry, cursor, requests, output) {
        Ok(()) => Ok(ExitStatus::Success),
        Err(AnswerStop::Output(failure)) => Ok(fail(errors, failure)),
        Err(AnswerStop::Share(stop)) => Err(stop),
    }
}

/// Returns the requests in these bytes, if there are at least `answered`. Else prints what is wrong, and
/// returns the exit status.
fn requests_of<E: Sink>(
    alloc: Global,
    bytes: &[u8],
    answered: u64,
    errors: &mut E,
) -> Result<Vec<Request>, ExitStatus>
    ensures ok { IfOk result (λ requests. (requests_in bytes.now ≡ Ok requests.items) × (answered ≤ length requests.items) × (errors.new ≡ errors.old)) }
    ensures err { IfErr result (IsNoInput IsOfMemory (requests_in bytes.now) answered (output_of E.Sink errors.old errors.new)) }
{
    match requests_in(alloc, bytes) {
        Ok(requests) => {
            if answered > requests.len() as u64 {
                tell(errors, "answered exceeds requests\n");
                return Err(ExitStatus::Rejected);
            }
            Ok(requests)
        }
        Err(Rejection::Refused(bad)) => Err(reject_line(alloc, errors, bad)),
        Err(Rejection::NoMemory) => Err(fail(errors, Failure::Memory)),
    }
}

/// Reads the requests of all lines of a source, if there are at least `answered`. Else prints what is
/// wrong, and returns the exit status.
fn read_requests<R: Source, E: Sink>(
    alloc: Global,
    source: &mut R,
    answered: u64,
    errors: &mut E,
) -> Result<Vec<Request>, ExitStatus>
    ensures { (bytes : List ℕ) × MayGive (R.remaining source.old) bytes
        × IfOk result (λ requests. (requests_in bytes ≡ Ok requests.items) × (answered ≤ length requests.items) × (errors.new ≡ errors.old))
        × IfErr result (IsNoInput (IsOfInput (R.failures source.old) (R.failures source.new) bytes) (requests_in bytes) answered (output_of E.Sink errors.old errors.new))
        × (IsTooLong bytes → result ≡ Err ExitStatus.Failed)
        × TellsFailedReads (result ≡ Err ExitStatus.Failed) (output_of E.Sink errors.old errors.new) (R.failures source.old) (R.failures source.new) bytes }
{
    match read_all(alloc, source) {
        Ok(bytes) => requests_of(alloc, bytes.as_slice(), answered, errors),
        Err(fault) => Err(fail(errors, input_failure(fault))),
    }
}

/// Acts on the requests of all lines of a source over the log that the registry follows, except for the
/// first `answered` ones, which were answered before. Reads all lines before it acts on the first
/// request, and writes each reply line before it acts on the next request.
///
/// The status is `Success` if all requests were acted on, refused ones too, and all reply lines are
/// written. It is `Rejected` if a line is not a request, or `answered` exceeds the number of
/// requests: then nothing is acted on, no call of the log is made, and the error output says why. It is
/// `Failed` after a failure of the source, the output, or memory for the requests or a reply line, which
/// the error output names. An input of more than 4,294,967,295 bytes is such a failure, and nothing is
/// acted on.
///
/// # Errors
///
/// What stopped the registry or the log at a request, as [`act`](shared_registry::act) says. The
/// requests before it were acted on, and their reply lines are written. Nothing is printed.
pub fn apply_shared<R: Source, S: Alter, L: Log, W: Sink, E: Sink>(
    alloc: Global,
    source: &mut R,
    answered: u64,
    registry: &mut Registry<S>,
    cursor: &mut Cursor<L>,
    output: &mut W,
    errors: &mut E,
) -> Result<ExitStatus, ShareStop>
    ensures { (bytes : List ℕ) × MayGive (R.remaining source.old) bytes
        × DidApply L.Log (did W.Sink E.Sink registry.old registry.new cursor.old cursor.new output.old output.new errors.old errors.new result)
        (IsOfInput (R.failures source.old) (R.failures source.new) bytes) (requests_in bytes) answered
        × (IsTooLong bytes → result ≡ Ok ExitStatus.Failed)
        × TellsFailedReads (result ≡ Ok ExitStatus.Failed) (output_of E.Sink errors.old errors.new) (R.failures source.old) (R.failures source.new) bytes }
{
    match read_requests(alloc, source, answered, errors) {
        Ok(requests) => run_over(
            alloc,
            after_first(requests.as_slice(), answered as usize),
            registry,
            cursor,
            output,
            errors,
        ),
        Err(status) => Ok(status),
    }
}
