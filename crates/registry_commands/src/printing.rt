//! Writes texts to the output.

ghost use Rattle.registry_commands.specs.Ends.{ends_of};
ghost use Rattle.registry_commands.specs.Printed.{IsPrinted};

use crate::messages::{Failure, fail};
use crate::status::ExitStatus;
use byte_streams::{Broken, Sink, put_all};

/// Writes a text to the output, and returns the exit status: `Failed` if the output failed, which
/// the error output says.
pub(crate) fn print<W: Sink, E: Sink>(output: &mut W, errors: &mut E, text: &[u8]) -> ExitStatus
    ensures { IsPrinted text.now (ends_of W.Sink E.Sink output.old output.new errors.old errors.new result) }
{
    match put_all(output, text) {
        Ok(()) => ExitStatus::Success,
        Err(Broken) => fail(errors, Failure::File),
    }
}
