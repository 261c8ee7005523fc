//! Reads a founding file, and founds a registry on a connection.

ghost use Rattle.std.specs.Prelude.{◌≡◌, ◌⊎◌, ℕ, List, Err};
ghost use Rattle.byte_streams.specs.Streams.{MayGive};
ghost use Rattle.registry_wire.specs.Founding.{founding_listed};
ghost use Rattle.registry_commands.specs.Ends.{output_of};
ghost use Rattle.registry_commands.specs.Failures.{IsOfInput, IsOfMemory, IsTooLong, Prints, PrintsFailure, TellsFailedReads};
ghost use Rattle.registry_commands.specs.Messages.{refusal_line};
ghost use Rattle.registry_commands.specs.Found.{IsTriedOn, ReadsFounding, attempt};

use crate::input::read_all;
use crate::messages::{Failure, fail, failure_of, input_failure, refusal_line, tell};
use crate::status::ExitStatus;
use byte_streams::{Sink, Source};
use registry_rules::{Founding, Rejection};
use registry_store::Registry;
use registry_wire::{WireRefusal, founding_from_toml};
use sqlite::{Alter, Connection};
use std::alloc::Global;

/// Prints why bytes are not a founding file or not a list, and returns the exit status.
pub(crate) fn reject<E: Sink>(alloc: Global, errors: &mut E, refusal: WireRefusal) -> ExitStatus
    ensures { ((result ≡ ExitStatus.Rejected) × Prints (output_of E.Sink errors.old errors.new) (refusal_line refusal))
        ⊎ ((result ≡ ExitStatus.Failed) × PrintsFailure IsOfMemory (output_of E.Sink errors.old errors.new)) }
{
    let Ok(text) = refusal_line(alloc, refusal) else {
        return fail(errors, Failure::Memory);
    };
    tell(errors, text.as_str());
    ExitStatus::Rejected
}

/// Reads the founding that the bytes of a founding file list.
pub(crate) fn founding_in<E: Sink>(
    alloc: Global,
    bytes: &[u8],
    errors: &mut E,
) -> Result<Founding, ExitStatus>
    ensures { ReadsFounding IsOfMemory (founding_listed bytes.now) (output_of E.Sink errors.old errors.new) result }
{
    match founding_from_toml(alloc, bytes) {
        Ok(founding) => Ok(founding),
        Err(Rejection::Refused(refusal)) => Err(reject(alloc, errors, refusal)),
        Err(Rejection::NoMemory) => Err(fail(errors, Failure::Memory)),
    }
}

/// Reads the founding that the founding file lists that a source gives.
///
/// # Errors
///
/// The exit status, of which the error output says why. It is `Rejected` if the input is not
/// a founding file. It is `Failed` if the source failed, memory ran out, or the input has more than
/// 4,294,967,295 bytes.
pub fn read_founding<R: Source, E: Sink>(
    alloc: Global,
    source: &mut R,
    errors: &mut E,
) -> Result<Founding, ExitStatus>
    ensures { (bytes : List ℕ) × MayGive (R.remaining source.old) bytes
        × ReadsFounding (IsOfInput (R.failures source.old) (R.failures source.new) bytes) (founding_listed bytes) (output_of E.Sink errors.old errors.new) result
        × (IsTooLong bytes → (result ≡ Err ExitStatus.Failed) × PrintsFailure (IsOfInput (R.failures source.old) (R.failures source.new) bytes) (output_of E.Sink errors.old errors.new))
        × TellsFailedReads (result ≡ Err ExitStatus.Failed) (output_of E.Sink errors.old errors.new) (R.failures source.old) (R.failures source.new) bytes }
{
    match read_all(alloc, source) {
        Ok(bytes) => founding_in(alloc, bytes.as_slice(), errors),
        Err(fault) => Err(fail(errors, input_failure(fault))),
    }
}

/// Founds a registry on a connection, and returns the exit status and the connection.
///
/// At the status `Success` the registry is founded. Else it is `Failed`, the error output names the
/// failure, and the whole registry may be there or nothing of it. A store that already holds a
/// registry is such a failure, and nothing is changed: a registry is never replaced.
pub fn found_registry<S: Alter, E: Sink>(
    alloc: Global,
    conn: Connection<S>,
    founding: &Founding,
    errors: &mut E,
) -> (ExitStatus, Connection<S>)
    ensures { IsTriedOn S.Store (attempt conn result.1 (output_of E.Sink errors.old errors.new) result.0) founding.now }
{
    match Registry::found(alloc, conn, founding) {
        Ok(registry) => (ExitStatus::Success, registry.into_connection()),
        Err((fault, conn)) => (fail(errors, failure_of(fault)), conn),
    }
}
