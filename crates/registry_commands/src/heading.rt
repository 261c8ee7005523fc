//! Writes where the record of a registry ends.

ghost use Rattle.std.specs.Prelude.{◌⊎◌};
ghost use Rattle.registry_commands.specs.Ends.{ends_of};
ghost use Rattle.registry_commands.specs.Failures.{IsOfMemory};
ghost use Rattle.registry_commands.specs.Heads.{IsHeadShown, head_line};
ghost use Rattle.registry_commands.specs.Printed.{IsPrinted, IsUnprinted};

use crate::messages::{Failure, fail, failure_of};
use crate::printing::print;
use crate::status::ExitStatus;
use byte_streams::Sink;
use registry_http::head_response;
use registry_store::Registry;
use registry_tables::Head;
use sqlite::Alter;
use std::alloc::Global;
use usbnum_core::NoMemory;

/// Writes the head as a line, and returns the exit status.
fn put_head<W: Sink, E: Sink>(
    alloc: Global,
    head: &Head,
    output: &mut W,
    errors: &mut E,
) -> ExitStatus
    ensures { IsPrinted (head_line head.now) (ends_of W.Sink E.Sink output.old output.new errors.old errors.new result)
        ⊎ IsUnprinted IsOfMemory (ends_of W.Sink E.Sink output.old output.new errors.old errors.new result) }
{
    match head_response(alloc, head.count, &head.digest, head.time.as_ref()) {
        Ok(response) => print(output, errors, response.body.as_slice()),
        Err(NoMemory) => fail(errors, Failure::Memory),
    }
}

/// Writes the head of the registry's record as a line of JSON, the text that `GET /head` answers: how
/// many requests were accepted, their digest, and the time of the last one, if it has one. Makes no
/// store call.
///
/// The status is `Success` if the whole line is written. It is `Failed` after a failure, which the
/// error output names: of memory, of the output, or of a poisoned registry. After a failure of the
/// output a prefix of the line is written, and after any other nothing.
pub fn head<S: Alter, W: Sink, E: Sink>(
    alloc: Global,
    registry: &Registry<S>,
    output: &mut W,
    errors: &mut E,
) -> ExitStatus
    ensures { IsHeadShown registry.now (ends_of W.Sink E.Sink output.old output.new errors.old errors.new result) }
{
    match registry.head() {
        Ok(head) => put_head(alloc, head, output, errors),
        Err(fault) => fail(errors, failure_of(fault)),
    }
}
