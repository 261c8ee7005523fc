//! Takes up a log that several machines share, and says why a command over it ends.

ghost use Rattle.std.specs.Prelude.{◌≡◌, IfErr, IfOk, Ok};
ghost use Rattle.registry_commands.specs.Ends.{output_of};
ghost use Rattle.registry_commands.specs.Failures.{Prints};
ghost use Rattle.registry_program.specs.Outputs.{silent_ends};
ghost use Rattle.registry_program.specs.SharedActs.{TellsEndOverLog};
ghost use Rattle.registry_program.specs.Sharing.{IsNotFollowed, IsTakenUp, TellsNoLog, TellsShareStop, log_line};

use crate::logs::{Logs, NoLog};
use byte_streams::Sink;
use registry_commands::{ExitStatus, Failure, fail, failure_of, tell};
use registry_store::Registry;
use shared_log::LogFault;
use shared_registry::{Cursor, ShareStop, join};
use sqlite::Alter;
use std::alloc::Global;

/// Prints that the registry does not go on with its log, and returns the exit status.
fn fail_log<E: Sink>(errors: &mut E) -> ExitStatus
    ensures status { result ≡ ExitStatus.Failed }
    ensures told { Prints (output_of E.Sink errors.old errors.new) log_line }
{
    tell(errors, "fault: log\n");
    ExitStatus::Failed
}

/// Prints why there is no log, and returns the exit status.
pub(crate) fn refuse_address<E: Sink>(errors: &mut E, why: NoLog) -> ExitStatus
    ensures { (out : _) → TellsNoLog why (silent_ends E.Sink out errors.old errors.new result) }
{
    match why {
        NoLog::BadAddress => {
            tell(errors, "bad word: log\n");
            ExitStatus::Rejected
        }
        NoLog::NoMemory => fail(errors, Failure::Memory),
    }
}

/// Prints why the registry does not go on with its log, and returns the exit status.
pub(crate) fn fail_by<E: Sink>(errors: &mut E, stop: ShareStop) -> ExitStatus
    ensures { (out : _) → TellsShareStop stop (silent_ends E.Sink out errors.old errors.new result) }
{
    match stop {
        ShareStop::Registry(fault) => fail(errors, failure_of(fault)),
        ShareStop::NoMemory => fail(errors, Failure::Memory),
        ShareStop::Log(LogFault::NoMemory) => fail(errors, Failure::Memory),
        ShareStop::Log(LogFault::NoQuorum) => fail_log(errors),
        ShareStop::Log(LogFault::Unreachable) => fail_log(errors),
        ShareStop::Log(LogFault::Refused) => fail_log(errors),
        ShareStop::Log(LogFault::BadAnswer) => fail_log(errors),
        ShareStop::OtherRecord(_) => fail_log(errors),
        ShareStop::Ahead => fail_log(errors),
        ShareStop::Empty => fail_log(errors),
        ShareStop::Full => fail_log(errors),
    }
}

/// Takes up the log at an address. If there is none, or the registry does not go on with it, prints why
/// and returns the exit status; a log is then left.
pub(crate) fn join_at<H: Logs, S: Alter, E: Sink>(
    alloc: Global,
    host: &mut H,
    address: &str,
    registry: &mut Registry<S>,
    errors: &mut E,
) -> Result<Cursor<H::Log>, ExitStatus>
    ensures ok { IfOk result (λ cursor. IsTakenUp H.Logs H.Log.Log address.now host.old host.new registry.old registry.new (Ok cursor) × (errors.new ≡ errors.old)) }
    ensures err { IfErr result (λ status. (out : _) → IsNotFollowed H.Logs H.Log.Log address.now host.old host.new registry.old registry.new (silent_ends E.Sink out errors.old errors.new status)) }
{
    let log = match host.log_at(address) {
        Ok(log) => log,
        Err(why) => return Err(refuse_address(errors, why)),
    };
    match join(alloc, registry, log) {
        Ok(cursor) => Ok(cursor),
        Err((stop, log)) => {
            host.leave_log(log, stop);
            Err(fail_by(errors, stop))
        }
    }
}

/// Ends a command that acted over a log: leaves the log and prints why, if the registry did not go on
/// with it. Returns the exit status.
pub(crate) fn end_acting<H: Logs, E: Sink>(
    host: &mut H,
    log: H::Log,
    errors: &mut E,
    end: Result<ExitStatus, ShareStop>,
) -> ExitStatus
    ensures { (out : _) → TellsEndOverLog H.Logs host.old host.new log end (silent_ends E.Sink out errors.old errors.new result) }
{
    match end {
        Ok(status) => {
            host.close_log(log);
            status
        }
        Err(stop) => {
            host.leave_log(log, stop);
            fail_by(errors, stop)
        }
    }
}
