//! The commands over a log that several machines share: one puts the record of a registry into it, and
//! one serves a registry that follows it.

ghost use Rattle.registry_program.specs.Outputs.{silent_ends};
ghost use Rattle.registry_program.specs.Serving.{limit_of};
ghost use Rattle.registry_program.specs.Sharing.{ServesJoined, ServesOver, ServesShared, Shares, SharesInto, TellsServed};

use crate::following::{fail_by, join_at, refuse_address};
use crate::host::Host;
use crate::logs::Logs;
use crate::serving::{fail_socket, limit_of};
use crate::stores::{close_registry, open_registry};
use byte_streams::{Broken, Sink};
use registry_commands::{ExitStatus, fail};
use registry_desk::Connections;
use registry_store::Registry;
use shared_desk::{SharedStop, serve_shared};
use shared_registry::{Cursor, share};
use sqlite::Alter;
use std::alloc::Global;

/// Puts the record of a registry into the log at an address, and returns the exit status.
fn share_into<H: Logs, S: Alter, E: Sink>(
    alloc: Global,
    host: &mut H,
    address: &str,
    registry: &mut Registry<S>,
    errors: &mut E,
) -> ExitStatus
    ensures { (out : _) → SharesInto H.Logs H.Log.Log address.now host.old host.new registry.old registry.new (silent_ends E.Sink out errors.old errors.new result) }
{
    let log = match host.log_at(address) {
        Ok(log) => log,
        Err(why) => return refuse_address(errors, why),
    };
    match share(alloc, registry, log) {
        Ok(cursor) => {
            host.close_log(cursor.into_log());
            ExitStatus::Success
        }
        Err((stop, log)) => {
            host.leave_log(log, stop);
            fail_by(errors, stop)
        }
    }
}

/// Puts the record of the registry in a store into the log at an address, and returns the exit status.
pub fn run_share<H: Host + Logs, E: Sink>(
    alloc: Global,
    host: &mut H,
    store: &str,
    address: &str,
    errors: &mut E,
) -> ExitStatus
    ensures { (out : _) → Shares H.Host H.File.Disk H.Logs H.Log.Log host.old host.new store.now address.now (silent_ends E.Sink out errors.old errors.new result) }
{
    let mut registry = match open_registry(alloc, host, store) {
        Ok(registry) => registry,
        Err(failure) => return fail(errors, failure),
    };
    let status = share_into(alloc, host, address, &mut registry, errors);
    close_registry(host, registry, errors, status)
}

/// Leaves the log after the server, prints why it stopped before its last connection, if it did, and
/// returns the exit status.
fn end_serving<H: Logs, E: Sink>(
    host: &mut H,
    log: H::Log,
    errors: &mut E,
    served: Result<(), SharedStop>,
) -> ExitStatus
    ensures { (out : _) → TellsServed H.Logs host.old host.new log served (silent_ends E.Sink out errors.old errors.new result) }
{
    match served {
        Ok(()) => {
            host.close_log(log);
            ExitStatus::Success
        }
        Err(SharedStop::Connections) => {
            host.close_log(log);
            fail_socket(errors)
        }
        Err(SharedStop::Share(stop)) => {
            host.leave_log(log, stop);
            fail_by(errors, stop)
        }
    }
}

/// Serves a registry that follows a log on a port, for `count` connections if given, and returns the
/// exit status.
fn serve_joined<H: Host + Connections + Logs, S: Alter, E: Sink>(
    alloc: Global,
    host: &mut H,
    port: u16,
    count: Option<u32>,
    registry: &mut Registry<S>,
    mut cursor: Cursor<H::Log>,
    errors: &mut E,
) -> ExitStatus
    ensures { (out : _) → ServesJoined H.Host H.Connections H.Reader.Source H.Writer.Sink H.Logs H.Log.Log port (limit_of count) host.old host.new registry.old registry.new cursor
        (silent_ends E.Sink out errors.old errors.new result) }
{
    match host.listen(port) {
        Ok(()) => {
            let served = serve_shared(alloc, host, registry, &mut cursor, limit_of(count));
            end_serving(host, cursor.into_log(), errors, served)
        }
        Err(Broken) => {
            host.close_log(cursor.into_log());
            fail_socket(errors)
        }
    }
}

/// Takes up the log at an address, and serves a registry that follows it.
fn serve_over<H: Host + Connections + Logs, S: Alter, E: Sink>(
    alloc: Global,
    host: &mut H,
    port: u16,
    count: Option<u32>,
    address: &str,
    registry: &mut Registry<S>,
    errors: &mut E,
) -> ExitStatus
    ensures { (out : _) → ServesOver H.Host H.Connections H.Reader.Source H.Writer.Sink H.Logs H.Log.Log port (limit_of count) address.now host.old host.new registry.old registry.new
        (silent_ends E.Sink out errors.old errors.new result) }
{
    match join_at(alloc, host, address, registry, errors) {
        Ok(cursor) => serve_joined(alloc, host, port, count, registry, cursor, errors),
        Err(status) => status,
    }
}

/// Serves the registry in a store on a port, for `count` connections if given, over the log at an
/// address, and returns the exit status.
pub fn run_serve_shared<H: Host + Connections + Logs, E: Sink>(
    alloc: Global,
    host: &mut H,
    store: &str,
    port: u16,
    count: Option<u32>,
    address: &str,
    errors: &mut E,
) -> ExitStatus
    ensures { (out : _) → ServesShared H.Host H.File.Disk H.Connections H.Reader.Source H.Writer.Sink H.Logs H.Log.Log host.old host.new store.now port (limit_of count) address.now
        (silent_ends E.Sink out errors.old errors.new result) }
{
    let mut registry = match open_registry(alloc, host, store) {
        Ok(registry) => registry,
        Err(failure) => return fail(errors, failure),
    };
    let status = serve_over(alloc, host, port, count, address, &mut registry, errors);
    close_registry(host, registry, errors, status)
}
