//! Imports a list over a log.

ghost use Rattle.std.specs.Prelude.{◌≡◌, ◌≤◌, ◌⊎◌, ℕ, List, length, IfErr, IfOk, Ok, Err};
ghost use Rattle.byte_streams.specs.Streams.{MayGive, most_bytes};
ghost use Rattle.usbids_text.specs.Entries.{TopEntry};
ghost use Rattle.usbids_text.specs.Reading.{ReadsAs};
ghost use Rattle.registry_commands.specs.Ends.{output_of};
ghost use Rattle.registry_commands.specs.Failures.{IsOfInput, IsOfMemory, PrintsFailure, TellsFailedReads};
ghost use Rattle.registry_commands.specs.Imports.{request_of_import};
ghost use Rattle.registry_commands.specs.LookUp.{IsListRefused};
ghost use Rattle.shared_commands.specs.Applied.{did};
ghost use Rattle.shared_commands.specs.Imported.{DidImport, DidOne, IsNoList};

use crate::answering::{AnswerStop, answer};
use byte_streams::{Broken, Sink, Source};
use registry_commands::{ExitStatus, Failure, Import, fail, put_fault};
use registry_rules::Request;
use registry_store::Registry;
use registry_wire::import_request;
use shared_log::Log;
use shared_registry::{Cursor, ShareStop};
use sqlite::Alter;
use std::alloc::Global;
use usbids_text::{Document, ReadFault, Reader, feed_all};
use usbnum_core::{NoMemory, Vid};

/// Answers one request, and prints what cut its reply line.
fn run_one<S: Alter, L: Log, W: Sink, E: Sink>(
    alloc: Global,
    request: &Request,
    registry: &mut Registry<S>,
    cursor: &mut Cursor<L>,
    output: &mut W,
    errors: &mut E,
) -> Result<ExitStatus, ShareStop>
    ensures { DidOne L.Log (did W.Sink E.Sink registry.old registry.new cursor.old cursor.new output.old output.new errors.old errors.new result) request.now }
{
    match answer(alloc, registry, cursor, request, output) {
        Ok(status) => Ok(status),
        Err(AnswerStop::Output(failure)) => Ok(fail(errors, failure)),
        Err(AnswerStop::Share(stop)) => Err(stop),
    }
}

/// Returns the request that imports a list.
fn request_for<E: Sink>(
    alloc: Global,
    import: Import,
    founding: Vid,
    list: &Document,
    errors: &mut E,
) -> Result<Request, ExitStatus>
    ensures ok { IfOk result (λ request. (request ≡ request_of_import import founding list.now) × (errors.new ≡ errors.old)) }
    ensures err { IfErr result (λ status. (status ≡ ExitStatus.Failed) × PrintsFailure IsOfMemory (output_of E.Sink errors.old errors.new)) }
{
    let Import {
        caller,
        key,
        org,
        vendor,
    } = import;
    match import_request(alloc, caller, key, org, founding, vendor, list) {
        Ok(request) => Ok(request),
        Err(NoMemory) => Err(fail(errors, Failure::Memory)),
    }
}

/// Returns the request that imports what was read, or prints why that is not a list.
fn request_in<E: Sink>(
    alloc: Global,
    import: Import,
    founding: Vid,
    read: Result<Document, ReadFault>,
    errors: &mut E,
) -> Result<Request, ExitStatus>
    ensures ok { IfOk result (λ request. (doc : List TopEntry) × (read ≡ Ok doc) × (request ≡ request_of_import import founding doc) × (errors.new ≡ errors.old)) }
    ensures err { IfErr result (λ status. ((status ≡ ExitStatus.Failed) × PrintsFailure IsOfMemory (output_of E.Sink errors.old errors.new))
        ⊎ ((fault : _) × (read ≡ Err fault) × IsListRefused fault (output_of E.Sink errors.old errors.new) status)) }
{
    match read {
        Ok(list) => request_for(alloc, import, founding, &list, errors),
        Err(fault) => Err(put_fault(alloc, fault, errors)),
    }
}

/// Reads a list in pieces, and returns the request that imports it. Else prints what is wrong, and
/// returns the exit status.
fn read_import<R: Source, E: Sink>(
    alloc: Global,
    source: &mut R,
    import: Import,
    founding: Vid,
    errors: &mut E,
) -> Result<Request, ExitStatus>
    ensures { (bytes : List ℕ) × MayGive (R.remaining source.old) bytes
        × IfOk result (λ request. (doc : List TopEntry) × (length bytes ≤ most_bytes) × ReadsAs bytes (Ok doc) × (request ≡ request_of_import import founding doc) × (errors.new ≡ errors.old))
        × IfErr result (IsNoList (IsOfInput (R.failures source.old) (R.failures source.new) bytes) bytes (output_of E.Sink errors.old errors.new))
        × TellsFailedReads (result ≡ Err ExitStatus.Failed) (output_of E.Sink errors.old errors.new) (R.failures source.old) (R.failures source.new) bytes }
{
    let mut reader = Reader::new(alloc);
    let mut room = [0u8; 32768];
    match feed_all(source, &mut reader, &mut room) {
        Ok(()) => request_in(alloc, import, founding, reader.finish(), errors),
        Err(Broken) => Err(fail(errors, Failure::File)),
    }
}

/// Reads a list in pieces, and imports the numbers of one vendor for an organisation over the log that
/// the registry follows: of the named vendor, else of the founding vendor. Acts on one request, and
/// writes its reply as a line.
///
/// The status is `Success` if the import is done now, or was done under this key before. It is
/// `Rejected` if the request is refused, which its reply says, and if the input is not a list: then
/// nothing is acted on, no call of the log is made, and the error output says why. It is `Failed` after
/// a failure of the source, the output, or memory for the request or its reply line, which the error
/// output names. An input of more than 4,294,967,295 bytes is such a failure, and nothing is acted on.
///
/// # Errors
///
/// What stopped the registry or the log, as [`act`](shared_registry::act) says. Nothing is written or
/// printed.
pub fn import_shared<R: Source, S: Alter, L: Log, W: Sink, E: Sink>(
    alloc: Global,
    source: &mut R,
    import: Import,
    registry: &mut Registry<S>,
    cursor: &mut Cursor<L>,
    output: &mut W,
    errors: &mut E,
) -> Result<ExitStatus, ShareStop>
    ensures { (bytes : List ℕ) × MayGive (R.remaining source.old) bytes
        × DidImport L.Log (did W.Sink E.Sink registry.old registry.new cursor.old cursor.new output.old output.new errors.old errors.new result)
        (IsOfInput (R.failures source.old) (R.failures source.new) bytes) import bytes
        × TellsFailedReads (result ≡ Ok ExitStatus.Failed) (output_of E.Sink errors.old errors.new) (R.failures source.old) (R.failures source.new) bytes }
{
    let founding = registry.founding().vendor;
    match read_import(alloc, source, import, founding, errors) {
        Ok(request) => run_one(alloc, &request, registry, cursor, output, errors),
        Err(status) => Ok(status),
    }
}
