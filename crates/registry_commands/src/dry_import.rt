//! Says what an import would do, and imports nothing.

ghost use Rattle.std.specs.Prelude.{◌≡◌, ℕ, List, Ok};
ghost use Rattle.byte_streams.specs.Streams.{MayGive};
ghost use Rattle.registry_commands.specs.Ends.{effect, ends_of, output_of};
ghost use Rattle.registry_commands.specs.Failures.{IsOfInput, TellsFailedReads};
ghost use Rattle.registry_commands.specs.DryRuns.{IsDryRunOf, IsForetold, IsImportTried, IsTriedAs, imports_nothing};

use crate::importing::{Import, exit_status_of};
use crate::looking::put_fault;
use crate::messages::{Failure, fail, failure_of, put_reply, tell};
use crate::status::ExitStatus;
use byte_streams::{Broken, Sink, Source};
use registry_rules::{Reply, Request};
use registry_store::Registry;
use registry_wire::import_request;
use sqlite::Alter;
use std::alloc::Global;
use usbids_text::{Document, ReadFault, Reader, feed_all};
use usbnum_core::NoMemory;

/// Returns whether this is the reply to an import of which no number was free.
#[tactic(auto, unfolding(crate::specs::DryRuns::imports_nothing))]
fn imports_nothing(reply: &Reply) -> bool
    ensures { result ≡ imports_nothing reply.now }
{
    match reply {
        Reply::Done(text) => text.as_str().as_bytes().starts_with(b"imported fresh 0,"),
        Reply::Refused(_) => false,
    }
}

/// Writes the reply to an import as a line, says if it would import nothing, and returns the exit
/// status.
fn foretell<W: Sink, E: Sink>(
    alloc: Global,
    reply: &Reply,
    output: &mut W,
    errors: &mut E,
) -> ExitStatus
    ensures { IsForetold reply.now (ends_of W.Sink E.Sink output.old output.new errors.old errors.new result) }
{
    match put_reply(alloc, output, reply) {
        Ok(()) => {}
        Err(failure) => return fail(errors, failure),
    }
    if imports_nothing(reply) {
        tell(errors, "no fresh number\n");
        ExitStatus::Rejected
    } else {
        exit_status_of(reply)
    }
}

/// Writes the reply that a request would get, and returns the exit status.
fn try_request<S: Alter, W: Sink, E: Sink>(
    alloc: Global,
    request: &Request,
    registry: &mut Registry<S>,
    output: &mut W,
    errors: &mut E,
) -> ExitStatus
    ensures { IsDryRunOf (effect registry.old registry.new (ends_of W.Sink E.Sink output.old output.new errors.old errors.new result)) request.now }
{
    match registry.dry_run(request) {
        Ok(reply) => foretell(alloc, &reply, output, errors),
        Err(fault) => fail(errors, failure_of(fault)),
    }
}

/// Writes the reply that the import of a document would get.
fn try_document<S: Alter, W: Sink, E: Sink>(
    alloc: Global,
    import: Import,
    list: &Document,
    registry: &mut Registry<S>,
    output: &mut W,
    errors: &mut E,
) -> ExitStatus
    ensures { IsTriedAs (effect registry.old registry.new (ends_of W.Sink E.Sink output.old output.new errors.old errors.new result)) import (Ok list.now) }
{
    let Import {
        caller,
        key,
        org,
        vendor,
    } = import;
    let founding = registry.founding().vendor;
    match import_request(alloc, caller, key, org, founding, vendor, list) {
        Ok(request) => try_request(alloc, &request, registry, output, errors),
        Err(NoMemory) => fail(errors, Failure::Memory),
    }
}

/// The same of what was read, or prints why it is not a list.
fn try_read<S: Alter, W: Sink, E: Sink>(
    alloc: Global,
    import: Import,
    read: Result<Document, ReadFault>,
    registry: &mut Registry<S>,
    output: &mut W,
    errors: &mut E,
) -> ExitStatus
    ensures { IsTriedAs (effect registry.old registry.new (ends_of W.Sink E.Sink output.old output.new errors.old errors.new result)) import read }
{
    match read {
        Ok(list) => try_document(alloc, import, &list, registry, output, errors),
        Err(fault) => put_fault(alloc, fault, errors),
    }
}

/// Reads a list as `import_list` does, and writes the reply that its import would get now. Imports
/// nothing, and uses no key: the registry represents the same history, and nothing is committed.
///
/// The status is `Success` if the import would be done, and at least one number is fresh. It is
/// `Rejected` if the request would be refused, which the reply says; if no number is fresh, which
/// the reply and the error output say; and if the input is not a list, which the error output says.
/// It is `Failed` after a failure of the source, the registry, the output, or memory, which the
/// error output names. A request that was done before under this key would get the reply of then.
pub fn try_list<R: Source, S: Alter, W: Sink, E: Sink>(
    alloc: Global,
    source: &mut R,
    import: Import,
    registry: &mut Registry<S>,
    output: &mut W,
    errors: &mut E,
) -> ExitStatus
    ensures { (bytes : List ℕ) × MayGive (R.remaining source.old) bytes
        × IsImportTried (IsOfInput (R.failures source.old) (R.failures source.new) bytes)
        (effect registry.old registry.new (ends_of W.Sink E.Sink output.old output.new errors.old errors.new result)) import bytes
        × TellsFailedReads (result ≡ ExitStatus.Failed) (output_of E.Sink errors.old errors.new) (R.failures source.old) (R.failures source.new) bytes }
{
    let mut reader = Reader::new(alloc);
    let mut room = [0u8; 32768];
    match feed_all(source, &mut reader, &mut room) {
        Ok(()) => try_read(alloc, import, reader.finish(), registry, output, errors),
        Err(Broken) => fail(errors, Failure::File),
    }
}
