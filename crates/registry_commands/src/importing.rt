//! Imports a list.

ghost use Rattle.std.specs.Prelude.{◌≡◌, ◌⊎◌, ℕ, List, Ok, option_copied};
ghost use Rattle.byte_streams.specs.Streams.{MayGive};
ghost use Rattle.registry_commands.specs.Ends.{effect, ends_of, output_of};
ghost use Rattle.registry_commands.specs.Failures.{IsOfInput, IsOfOutput, TellsFailedReads};
ghost use Rattle.registry_commands.specs.Imports.{AsksFor, IsActedOn, IsImportOf, IsImported, IsReplied, exit_status_of};

use crate::arguments::BadArgument;
use crate::looking::put_fault;
use crate::messages::{Failure, fail, failure_of, put_reply};
use crate::status::ExitStatus;
use byte_streams::{Broken, Sink, Source};
use registry_rules::{Rejection, Reply, Request};
use registry_store::Registry;
use registry_wire::import_request;
use sqlite::Alter;
use std::alloc::Global;
use usbids_text::{Document, ReadFault, Reader, feed_all};
use usbnum_core::{Key, NoMemory, Slug, Vid, parse_vid};

/// What an import asks for, apart from its list.
#[derive(Debug, Drop)]
pub struct Import {
    /// The caller.
    pub caller: Slug,
    /// The key of the request.
    pub key: Key,
    /// The organisation that gets the numbers.
    pub org: Slug,
    /// The vendor, if one is named.
    pub vendor: Option<Vid>,
}

/// Returns the import that the arguments ask for, or the first invalid one, in the order caller,
/// key, organisation, vendor.
pub fn import_of_arguments(
    alloc: Global,
    caller: &str,
    key: &str,
    org: &str,
    vendor: Option<&str>,
) -> Result<Import, Rejection<BadArgument>>
    ensures { AsksFor caller.now key.now org.now (option_copied vendor.entry) result }
{
    let Some(caller) = Slug::new(alloc, caller.as_bytes())? else {
        return Err(Rejection::Refused(BadArgument::Caller));
    };
    let Some(key) = Key::new(alloc, key.as_bytes())? else {
        return Err(Rejection::Refused(BadArgument::Key));
    };
    let Some(org) = Slug::new(alloc, org.as_bytes())? else {
        return Err(Rejection::Refused(BadArgument::Org));
    };
    let vendor = match vendor {
        None => None,
        Some(text) => match parse_vid(text.as_bytes()) {
            Some(vid) => Some(vid),
            None => return Err(Rejection::Refused(BadArgument::Vendor)),
        },
    };
    Ok(Import {
        caller,
        key,
        org,
        vendor,
    })
}

/// Returns the exit status for a reply.
pub fn exit_status_of(reply: &Reply) -> ExitStatus
    ensures { result ≡ exit_status_of reply.now }
{
    match reply {
        Reply::Done(_) => ExitStatus::Success,
        Reply::Refused(_) => ExitStatus::Rejected,
    }
}

/// Writes a reply as a line, and returns the exit status.
fn put_status<W: Sink, E: Sink>(
    alloc: Global,
    reply: &Reply,
    output: &mut W,
    errors: &mut E,
) -> ExitStatus
    ensures { IsReplied (λ failure. ((failure ≡ Failure.Memory) ⊎ (failure ≡ Failure.File)) × IsOfOutput (W.failures output.old) (W.failures output.new) failure) reply.now
        (ends_of W.Sink E.Sink output.old output.new errors.old errors.new result) }
{
    match put_reply(alloc, output, reply) {
        Ok(()) => exit_status_of(reply),
        Err(failure) => fail(errors, failure),
    }
}

/// Acts on one request, writes its reply as a line, and returns the exit status.
fn answer_request<S: Alter, W: Sink, E: Sink>(
    alloc: Global,
    request: &Request,
    registry: &mut Registry<S>,
    output: &mut W,
    errors: &mut E,
) -> ExitStatus
    ensures { IsActedOn (effect registry.old registry.new (ends_of W.Sink E.Sink output.old output.new errors.old errors.new result)) request.now }
{
    match registry.act(request) {
        Ok(reply) => put_status(alloc, &reply, output, errors),
        Err(fault) => fail(errors, failure_of(fault)),
    }
}

/// Imports the document of a list.
fn import_document<S: Alter, W: Sink, E: Sink>(
    alloc: Global,
    import: Import,
    list: &Document,
    registry: &mut Registry<S>,
    output: &mut W,
    errors: &mut E,
) -> ExitStatus
    ensures { IsImportOf (effect registry.old registry.new (ends_of W.Sink E.Sink output.old output.new errors.old errors.new result)) import (Ok list.now) }
{
    let Import {
        caller,
        key,
        org,
        vendor,
    } = import;
    let founding = registry.founding().vendor;
    match import_request(alloc, caller, key, org, founding, vendor, list) {
        Ok(request) => answer_request(alloc, &request, registry, output, errors),
        Err(NoMemory) => fail(errors, Failure::Memory),
    }
}

/// Imports what was read, or prints why it is not a list.
fn import_read<S: Alter, W: Sink, E: Sink>(
    alloc: Global,
    import: Import,
    read: Result<Document, ReadFault>,
    registry: &mut Registry<S>,
    output: &mut W,
    errors: &mut E,
) -> ExitStatus
    ensures { IsImportOf (effect registry.old registry.new (ends_of W.Sink E.Sink output.old output.new errors.old errors.new result)) import read }
{
    match read {
        Ok(list) => import_document(alloc, import, &list, registry, output, errors),
        Err(fault) => put_fault(alloc, fault, errors),
    }
}

/// Reads a list in pieces, and imports the numbers of one vendor for an organisation: of the named
/// vendor, else of the founding vendor. Acts on one request, and writes its reply as a line.
///
/// The status is `Success` if the import is done now, or was done under this key before. It is
/// `Rejected` if the request is refused, which its reply says, and if the input is not a list: then
/// nothing is acted on, and the error output says why. It is `Failed` after a failure of the
/// source, the registry, the output, or memory, which the error output names. An input of more than
/// 4,294,967,295 bytes is such a failure, and nothing is acted on. After a failure of the registry
/// a crash leaves the history before the request or after it, and the same request gets the same
/// reply.
pub fn import_list<R: Source, S: Alter, W: Sink, E: Sink>(
    alloc: Global,
    source: &mut R,
    import: Import,
    registry: &mut Registry<S>,
    output: &mut W,
    errors: &mut E,
) -> ExitStatus
    ensures { (bytes : List ℕ) × MayGive (R.remaining source.old) bytes
        × IsImported (IsOfInput (R.failures source.old) (R.failures source.new) bytes)
        (effect registry.old registry.new (ends_of W.Sink E.Sink output.old output.new errors.old errors.new result)) import bytes
        × TellsFailedReads (result ≡ ExitStatus.Failed) (output_of E.Sink errors.old errors.new) (R.failures source.old) (R.failures source.new) bytes }
{
    let mut reader = Reader::new(alloc);
    let mut room = [0u8; 32768];
    match feed_all(source, &mut reader, &mut room) {
        Ok(()) => import_read(alloc, import, reader.finish(), registry, output, errors),
        Err(Broken) => fail(errors, Failure::File),
    }
}
