//! Does what a command asks for.

ghost use Rattle.std.specs.Prelude.{◌≡◌, ◌||◌};
ghost use Rattle.registry_arguments.specs.Commands.{texts};
ghost use Rattle.registry_commands.specs.Ends.{Sunk, code, ends_of, sunk};
ghost use Rattle.registry_program.specs.Explained.{IsExplained, is_check};
ghost use Rattle.registry_program.specs.Outputs.{earlier};
ghost use Rattle.registry_program.specs.Performing.{IsWhole, Performs};
ghost use Rattle.registry_program.specs.Statuses.{IsStatus};

use crate::applying::run_apply;
use crate::causes::{explain, remark};
use crate::checking::run_check;
use crate::dry_runs::{run_found_check, run_import_check};
use crate::founding::run_found;
use crate::host::Host;
use crate::importing::run_import;
use crate::last_line::LastLine;
use crate::logs::Logs;
use crate::replaying::run_replay;
use crate::serving::run_serve;
use crate::shared_acts::{run_apply_shared, run_import_shared};
use crate::shared_replay::run_replay_shared;
use crate::sharing::{run_serve_shared, run_share};
use crate::showing::{run_export, run_head, run_history, run_lookup, run_report};
use byte_streams::{Sink, Source};
use registry_arguments::Command;
use registry_commands::{ExitStatus, import_of_arguments, trial};
use registry_desk::Connections;
use std::alloc::Global;
use usbnum_core::Vid;

/// Does what the command asks for, and returns the exit status. Of an import, `sought` is then the
/// vendor whose devices are imported.
fn act_by<H: Host + Connections + Logs, R: Source, W: Sink, E: Sink>(
    alloc: Global,
    host: &mut H,
    command: Command<&str>,
    sought: &mut Option<Vid>,
    input: &mut R,
    output: &mut W,
    errors: &mut E,
) -> ExitStatus
    ensures { Performs H.Host H.File.Disk H.Input.Source H.Connections H.Reader.Source H.Writer.Sink R.Source H.Logs H.Log.Log (texts command.entry) host.old host.new input.old input.new
        (ends_of W.Sink E.Sink output.old output.new errors.old errors.new result) }
{
    match command {
        Command::Trial => trial(alloc, input, output, errors),
        Command::Found { store, founding } => run_found(alloc, host, store, founding, errors),
        Command::Apply {
            store,
            file,
            answered,
        } => run_apply(alloc, host, store, file, answered, input, output, errors),
        Command::Import {
            store,
            list,
            caller,
            key,
            org,
            vendor,
        } => {
            let asked = import_of_arguments(alloc, caller, key, org, vendor);
            run_import(
                alloc, host, store, list, asked, sought, input, output, errors,
            )
        }
        Command::ApplyShared {
            store,
            file,
            answered,
            log,
        } => run_apply_shared(
            alloc, host, store, file, answered, log, input, output, errors,
        ),
        Command::ImportShared {
            store,
            list,
            caller,
            key,
            org,
            vendor,
            log,
        } => {
            let asked = import_of_arguments(alloc, caller, key, org, vendor);
            run_import_shared(
                alloc, host, store, list, asked, log, sought, input, output, errors,
            )
        }
        Command::CheckFounding { founding } => run_found_check(alloc, host, founding, errors),
        Command::CheckImport {
            store,
            list,
            caller,
            key,
            org,
            vendor,
        } => {
            let asked = import_of_arguments(alloc, caller, key, org, vendor);
            run_import_check(
                alloc, host, store, list, asked, sought, input, output, errors,
            )
        }
        Command::Replay { store, record } => {
            run_replay(alloc, host, store, record, input, errors)
        }
        Command::ReplayShared { store, log } => run_replay_shared(alloc, host, store, log, errors),
        Command::Serve { store, port, count } => {
            run_serve(alloc, host, store, port, count, errors)
        }
        Command::ServeShared {
            store,
            port,
            count,
            log,
        } => run_serve_shared(alloc, host, store, port, count, log, errors),
        Command::Share { store, log } => run_share(alloc, host, store, log, errors),
        Command::Export { store, stamp } => run_export(alloc, host, store, stamp, output, errors),
        Command::Report { store, name } => run_report(alloc, host, store, name, output, errors),
        Command::History { store, after } => {
            run_history(alloc, host, store, after, output, errors)
        }
        Command::Head { store } => run_head(alloc, host, store, output, errors),
        Command::Check { store } => run_check(alloc, host, store, output, errors),
        Command::Lookup { list, vid, pid } => {
            run_lookup(alloc, host, list, vid, pid, output, errors)
        }
    }
}

/// Returns whether a command changes nothing, and is run for what it says.
fn is_check(command: Command<&str>) -> bool
    ensures { result ≡ is_check (texts command.entry) }
{
    match command {
        Command::CheckFounding { .. } => true,
        Command::CheckImport { .. } => true,
        _ => false,
    }
}

/// Returns whether causes are said of a command.
fn says_causes(verbose: bool, command: Command<&str>) -> bool
    ensures { result ≡ (verbose || is_check (texts command.entry)) }
{
    verbose || is_check(command)
}

/// Says why a command ended with this status, if causes are asked for or it is a check, and it did not
/// do what it was asked for. Of a founding, request lines or an import that did, says what it passed
/// over.
fn explain_if<H: Host, E: Sink + LastLine>(
    verbose: bool,
    alloc: Global,
    host: &H,
    command: Command<&str>,
    sought: Option<Vid>,
    status: ExitStatus,
    errors: &mut E,
)
    ensures { IsExplained verbose (texts command.entry) status (sunk E.Sink errors.old) (sunk E.Sink errors.new) }
{
    if !says_causes(verbose, command) {
        return;
    }
    match status {
        ExitStatus::Success => remark(alloc, host, command, sought, errors),
        ExitStatus::Failed => explain(alloc, host, command, sought, errors),
        ExitStatus::Rejected => explain(alloc, host, command, sought, errors),
    }
}

/// Does what the command asks for, over a machine and the standard streams, and returns the exit
/// status. The contract says of each command which files it opens, in which order, what it does
/// over them, and what the outputs gain. If the command fails or is refused, and `verbose` is true or
/// it is a check, the error output may then get one more line, for the cause. It may also get one after a founding,
/// for keys that are ignored, after a trial or an `apply`, for fields that are ignored, and after an
/// import, for a list that has nothing of the vendor. What these say is only tested.
pub fn perform<H: Host + Connections + Logs, R: Source, W: Sink, E: Sink + LastLine>(
    alloc: Global,
    host: &mut H,
    command: Command<&str>,
    verbose: bool,
    input: &mut R,
    output: &mut W,
    errors: &mut E,
) -> ExitStatus
    // What the error output had taken before the line with the cause, and what was done till then,
    // also from what the files of a store held to what they hold.
    ensures performs { (told : Sunk)
        × Performs H.Host H.File.Disk H.Input.Source H.Connections H.Reader.Source H.Writer.Sink R.Source H.Logs H.Log.Log (texts command.entry) host.old host.new input.old input.new
        (earlier (ends_of W.Sink E.Sink output.old output.new errors.old errors.new result) told result)
        × IsWhole H.Host H.File.Disk H.Input.Source H.Connections H.Reader.Source H.Writer.Sink R.Source H.Logs H.Log.Log (texts command.entry) host.old host.new input.old input.new
        (earlier (ends_of W.Sink E.Sink output.old output.new errors.old errors.new result) told result)
        × IsExplained verbose (texts command.entry) result told (sunk E.Sink errors.new) }
    ensures status { IsStatus (code result) }
{
    let mut sought = None;
    let status = act_by(alloc, host, command, &mut sought, input, output, errors);
    explain_if(verbose, alloc, host, command, sought, status, errors);
    status
}
