//! Exports the list of a registry's held numbers.

ghost use Rattle.usbids_text.specs.Documents.{IsTextOf};
ghost use Rattle.usbids_text.specs.Writing.{written};
ghost use Rattle.registry_commands.specs.Ends.{effect, ends_of};
ghost use Rattle.registry_commands.specs.Printed.{IsPrinted};
ghost use Rattle.registry_commands.specs.Shown.{IsExported};

use crate::messages::{Failure, fail, failure_of};
use crate::status::ExitStatus;
use byte_streams::Sink;
use registry_store::Registry;
use registry_views::document_of;
use sqlite::Alter;
use std::alloc::Global;
use usbids_text::{Document, Stamp, WriteFault, write};

/// Writes the document, and returns the exit status.
fn put_document<W: Sink, E: Sink>(
    document: &Document,
    stamp: Option<Stamp>,
    output: &mut W,
    errors: &mut E,
) -> ExitStatus
    ensures printed { IsPrinted (written document.now stamp) (ends_of W.Sink E.Sink output.old output.new errors.old errors.new result) }
    ensures is_text { IsTextOf (written document.now stamp) document.now }
{
    match write(document, stamp, output) {
        Ok(()) => ExitStatus::Success,
        Err(WriteFault) => fail(errors, Failure::File),
    }
}

/// Writes the list of the held numbers, under their vendors, with the titles of their cards, and
/// with a stamp if one is given. Changes nothing.
///
/// The status is `Success` if the whole list is written. It is `Failed` after a failure, which the
/// error output names. After a failure of the registry or of memory nothing is written; after a
/// failure of the output a prefix of the list is.
pub fn export<S: Alter, W: Sink, E: Sink>(
    alloc: Global,
    registry: &mut Registry<S>,
    stamp: Option<Stamp>,
    output: &mut W,
    errors: &mut E,
) -> ExitStatus
    ensures { IsExported (effect registry.old registry.new (ends_of W.Sink E.Sink output.old output.new errors.old errors.new result)) stamp }
{
    match document_of(alloc, registry) {
        Ok(document) => put_document(&document, stamp, output, errors),
        Err(fault) => fail(errors, failure_of(fault)),
    }
}
