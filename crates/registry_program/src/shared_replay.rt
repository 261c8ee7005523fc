//! The command that replays the record in a log that several machines share.

ghost use Rattle.std.specs.Prelude.{◌≡◌, IfErr, IfOk};
ghost use Rattle.registry_program.specs.Outputs.{silent_ends};
ghost use Rattle.registry_program.specs.SharedReplay.{HasNoFoundingAt, IsFoundedAt, ReplaysJoined, ReplaysShared, ReplaysSharedTo};
ghost use Rattle.registry_program.specs.Sharing.{FollowsAt};

use crate::following::{fail_by, join_at, refuse_address};
use crate::host::Host;
use crate::logs::Logs;
use crate::stores::{close_connection, close_registry, connect};
use byte_streams::Sink;
use registry_commands::{ExitStatus, fail, found_or_open};
use registry_rules::Founding;
use registry_store::Registry;
use shared_registry::{Cursor, follow, read_founding};
use sqlite::Alter;
use std::alloc::Global;

/// Acts on the lines of the log that the registry follows, and ends the command.
fn replay_joined<H: Logs, S: Alter, E: Sink>(
    host: &mut H,
    registry: &mut Registry<S>,
    mut cursor: Cursor<H::Log>,
    errors: &mut E,
) -> ExitStatus
    ensures { (out : _) → ReplaysJoined H.Logs H.Log.Log host.old host.new registry.old registry.new cursor (silent_ends E.Sink out errors.old errors.new result) }
{
    let end = follow(registry, &mut cursor);
    let log = cursor.into_log();
    match end {
        Ok(()) => {
            host.close_log(log);
            ExitStatus::Success
        }
        Err(stop) => {
            host.leave_log(log, stop);
            fail_by(errors, stop)
        }
    }
}

/// Takes up the log at an address, and acts on its lines.
fn replay_at<H: Logs, S: Alter, E: Sink>(
    alloc: Global,
    host: &mut H,
    address: &str,
    registry: &mut Registry<S>,
    errors: &mut E,
) -> ExitStatus
    ensures { (out : _) → FollowsAt H.Logs H.Log.Log address.now (ReplaysJoined H.Logs H.Log.Log) host.old host.new registry.old registry.new (silent_ends E.Sink out errors.old errors.new result) }
{
    match join_at(alloc, host, address, registry, errors) {
        Ok(cursor) => replay_joined(host, registry, cursor, errors),
        Err(status) => status,
    }
}

/// Reads the founding with whose line the log at an address begins. If there is none, prints why and
/// returns the exit status; a log is then left.
fn read_founding_at<H: Logs, E: Sink>(
    alloc: Global,
    host: &mut H,
    address: &str,
    errors: &mut E,
) -> Result<Founding, ExitStatus>
    ensures ok { IfOk result (λ founding. IsFoundedAt H.Logs H.Log.Log address.now host.old host.new founding × (errors.new ≡ errors.old)) }
    ensures err { IfErr result (λ status. (out : _) → HasNoFoundingAt H.Logs H.Log.Log address.now host.old host.new (silent_ends E.Sink out errors.old errors.new status)) }
{
    let mut log = match host.log_at(address) {
        Ok(log) => log,
        Err(why) => return Err(refuse_address(errors, why)),
    };
    match read_founding(alloc, &mut log) {
        Ok(founding) => {
            host.close_log(log);
            Ok(founding)
        }
        Err(stop) => {
            host.leave_log(log, stop);
            Err(fail_by(errors, stop))
        }
    }
}

/// Acts on the lines of the log at an address over the registry in a store, which is founded if there
/// is none, and returns the exit status.
fn replay_to<H: Host + Logs, E: Sink>(
    alloc: Global,
    host: &mut H,
    store: &str,
    founding: &Founding,
    address: &str,
    errors: &mut E,
) -> ExitStatus
    ensures { (out : _) → ReplaysSharedTo H.Host H.File.Disk H.Logs H.Log.Log founding.now address.now host.old host.new store.now (silent_ends E.Sink out errors.old errors.new result) }
{
    let conn = match connect(alloc, host, store) {
        Ok(conn) => conn,
        Err(failure) => return fail(errors, failure),
    };
    match found_or_open(alloc, conn, founding) {
        Ok(mut registry) => {
            let status = replay_at(alloc, host, address, &mut registry, errors);
            close_registry(host, registry, errors, status)
        }
        Err((failure, conn)) => {
            let status = fail(errors, failure);
            close_connection(host, conn, errors, status)
        }
    }
}

/// Acts on the lines of the log at an address over the registry in a store, and returns the exit status.
/// A store that is not there is made from the log. Reads the founding in the log first, and the store is
/// opened once that is read.
pub fn run_replay_shared<H: Host + Logs, E: Sink>(
    alloc: Global,
    host: &mut H,
    store: &str,
    address: &str,
    errors: &mut E,
) -> ExitStatus
    ensures { (out : _) → ReplaysShared H.Host H.File.Disk H.Logs H.Log.Log host.old host.new store.now address.now (silent_ends E.Sink out errors.old errors.new result) }
{
    let founding = match read_founding_at(alloc, host, address, errors) {
        Ok(founding) => founding,
        Err(status) => return status,
    };
    replay_to(alloc, host, store, &founding, address, errors)
}
