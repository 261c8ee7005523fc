//! The command that checks a store.

ghost use Rattle.registry_commands.specs.Ends.{ends_of};
ghost use Rattle.registry_program.specs.Checking.{ChecksStore};

use crate::host::Host;
use crate::stores::{close_registry, open_registry};
use byte_streams::Sink;
use registry_commands::{ExitStatus, check, fail};
use std::alloc::Global;

/// Compares the rows of the registry in a store with those that its record makes, and returns the
/// exit status.
pub fn run_check<H: Host, W: Sink, E: Sink>(
    alloc: Global,
    host: &mut H,
    store: &str,
    output: &mut W,
    errors: &mut E,
) -> ExitStatus
    ensures { ChecksStore H.Host H.File.Disk host.old host.new store.now (ends_of W.Sink E.Sink output.old output.new errors.old errors.new result) }
{
    let mut registry = match open_registry(alloc, host, store) {
        Ok(registry) => registry,
        Err(failure) => return fail(errors, failure),
    };
    let status = check(alloc, &mut registry, output, errors);
    close_registry(host, registry, errors, status)
}
