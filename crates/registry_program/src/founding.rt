//! The command that founds a registry.

ghost use Rattle.registry_commands.specs.Ends.{output_of};
ghost use Rattle.registry_program.specs.Commands.{FoundsIn, FoundsOn, ReadsFoundingAt};
ghost use Rattle.registry_program.specs.Outputs.{silent_ends};

use crate::host::{Host, MOST_INPUT};
use crate::stores::{close_connection, connect};
use byte_streams::Sink;
use registry_commands::{ExitStatus, fail, found_registry, read_founding};
use registry_rules::Founding;
use std::alloc::Global;

/// Reads the founding file at a path.
///
/// # Errors
///
/// The exit status, of which the error output says why.
fn founding_at<H: Host, E: Sink>(
    alloc: Global,
    host: &mut H,
    path: &str,
    errors: &mut E,
) -> Result<Founding, ExitStatus>
    ensures { ReadsFoundingAt H.Host H.Input.Source host.old host.new path.now (output_of E.Sink errors.old errors.new) result }
{
    match host.open_input(path, MOST_INPUT) {
        Ok(mut source) => read_founding(alloc, &mut source, errors),
        Err(failure) => Err(fail(errors, failure)),
    }
}

/// Founds a registry in a store, and returns the exit status.
fn found_on<H: Host, E: Sink>(
    alloc: Global,
    host: &mut H,
    store: &str,
    founding: &Founding,
    errors: &mut E,
) -> ExitStatus
    ensures { (out : _) → FoundsOn H.Host H.File.Disk founding.now host.old host.new store.now
        (silent_ends E.Sink out errors.old errors.new result) }
{
    let conn = match connect(alloc, host, store) {
        Ok(conn) => conn,
        Err(failure) => return fail(errors, failure),
    };
    let (status, conn) = found_registry(alloc, conn, founding, errors);
    close_connection(host, conn, errors, status)
}

/// Founds a registry in a store, by a founding file, and returns the exit status. Reads the founding
/// file first, so that a bad one leaves no store.
pub fn run_found<H: Host, E: Sink>(
    alloc: Global,
    host: &mut H,
    store: &str,
    founding: &str,
    errors: &mut E,
) -> ExitStatus
    ensures { (out : _) → FoundsIn H.Host H.File.Disk H.Input.Source host.old host.new store.now founding.now
        (silent_ends E.Sink out errors.old errors.new result) }
{
    match founding_at(alloc, host, founding, errors) {
        Ok(founding) => found_on(alloc, host, store, &founding, errors),
        Err(status) => status,
    }
}
