//! Writes reports on a registry.

ghost use Rattle.registry_commands.specs.Ends.{effect, ends_of};
ghost use Rattle.registry_commands.specs.Reports.{IsReported};

use crate::messages::{fail, failure_of};
use crate::printing::print;
use crate::status::ExitStatus;
use byte_streams::Sink;
use registry_reports::ReportKind;
use registry_store::Registry;
use registry_views::report_of;
use sqlite::Alter;
use std::alloc::Global;

/// Writes a report on the registry. Changes nothing.
///
/// The status is `Success` if the whole report is written. It is `Failed` after a failure, which
/// the error output names. After a failure of the registry or of memory nothing is written; after a
/// failure of the output a prefix of the report is.
pub fn report<S: Alter, W: Sink, E: Sink>(
    alloc: Global,
    registry: &mut Registry<S>,
    name: ReportKind,
    output: &mut W,
    errors: &mut E,
) -> ExitStatus
    ensures { IsReported (effect registry.old registry.new (ends_of W.Sink E.Sink output.old output.new errors.old errors.new result)) name }
{
    match report_of(alloc, registry, name) {
        Ok(text) => print(output, errors, text.as_bytes()),
        Err(fault) => fail(errors, failure_of(fault)),
    }
}
