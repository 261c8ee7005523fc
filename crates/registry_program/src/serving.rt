//! The command that serves a registry over HTTP.

ghost use Rattle.std.specs.Prelude.{◌≡◌};
ghost use Rattle.registry_commands.specs.Ends.{output_of};
ghost use Rattle.registry_commands.specs.Failures.{Prints};
ghost use Rattle.registry_program.specs.Outputs.{silent_ends};
ghost use Rattle.registry_program.specs.Serving.{Serves, ServesOn, TellsEnd, limit_of, socket_line};

use crate::host::Host;
use crate::stores::{close_registry, open_registry};
use byte_streams::{Broken, Sink};
use registry_commands::{ExitStatus, fail, failure_of, tell};
use registry_desk::{Connections, ServerStop, serve_all};
use registry_store::Registry;
use sqlite::Alter;
use std::alloc::Global;

/// Returns the number of connections to serve: `count` if given, else as many as come.
pub(crate) fn limit_of(count: Option<u32>) -> u64
    ensures { result ≡ limit_of count }
{
    match count {
        Some(count) => u64::from(count),
        None => u64::MAX,
    }
}

/// Prints that the port failed, and returns the exit status.
pub(crate) fn fail_socket<E: Sink>(errors: &mut E) -> ExitStatus
    ensures status { result ≡ ExitStatus.Failed }
    ensures told { Prints (output_of E.Sink errors.old errors.new) socket_line }
{
    tell(errors, "fault: socket\n");
    ExitStatus::Failed
}

/// Prints why serving stopped before its last connection, if it did, and returns the exit status.
fn end_serving<E: Sink>(errors: &mut E, served: Result<(), ServerStop>) -> ExitStatus
    ensures { (out : _) → TellsEnd served (silent_ends E.Sink out errors.old errors.new result) }
{
    match served {
        Ok(()) => ExitStatus::Success,
        Err(ServerStop::Connections) => fail_socket(errors),
        Err(ServerStop::Registry(fault)) => fail(errors, failure_of(fault)),
    }
}

/// Serves the registry on a port, for `count` connections if given, and returns the exit status.
fn serve_port<H: Host + Connections, S: Alter, E: Sink>(
    alloc: Global,
    host: &mut H,
    port: u16,
    count: Option<u32>,
    registry: &mut Registry<S>,
    errors: &mut E,
) -> ExitStatus
    ensures { (out : _) → ServesOn H.Host H.Connections H.Reader.Source H.Writer.Sink port (limit_of count) host.old host.new registry.old registry.new
        (silent_ends E.Sink out errors.old errors.new result) }
{
    match host.listen(port) {
        Ok(()) => {
            let served = serve_all(alloc, host, registry, limit_of(count));
            end_serving(errors, served)
        }
        Err(Broken) => fail_socket(errors),
    }
}

/// Serves the registry in a store on a port, for `count` connections if given, and returns the exit
/// status.
pub fn run_serve<H: Host + Connections, E: Sink>(
    alloc: Global,
    host: &mut H,
    store: &str,
    port: u16,
    count: Option<u32>,
    errors: &mut E,
) -> ExitStatus
    ensures { (out : _) → Serves H.Host H.File.Disk H.Connections H.Reader.Source H.Writer.Sink host.old host.new store.now port (limit_of count)
        (silent_ends E.Sink out errors.old errors.new result) }
{
    let mut registry = match open_registry(alloc, host, store) {
        Ok(registry) => registry,
        Err(failure) => return fail(errors, failure),
    };
    let status = serve_port(alloc, host, port, count, &mut registry, errors);
    close_registry(host, registry, errors, status)
}
