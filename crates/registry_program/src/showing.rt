//! The commands that only show something.

ghost use Rattle.std.specs.Prelude.{option_copied};
ghost use Rattle.usbnum_core.specs.Number.{code_of, number_of};
ghost use Rattle.registry_reports.specs.Kinds.{report_named};
ghost use Rattle.registry_commands.specs.Ends.{ends_of};
ghost use Rattle.registry_program.specs.Commands.{Exports, IsStampOf, LooksUp, PrintsHead, PrintsRecord, ReportsAs};

use crate::host::{Host, MOST_INPUT};
use crate::stores::{close_registry, open_registry};
use byte_streams::Sink;
use registry_commands::{
    BadArgument, ExitStatus, export, fail, head, history, look_up, reject_argument, report,
};
use registry_reports::report_named;
use registry_wire::stamp_from_text;
use std::alloc::Global;
use usbids_text::Stamp;
use usbnum_core::{parse_code, parse_vid};

/// Returns the stamp of a text, if given, or an error if the text is not a stamp.
fn stamp_of(text: Option<&str>) -> Result<Option<Stamp>, BadArgument>
    ensures { IsStampOf (option_copied text.entry) result }
{
    match text {
        None => Ok(None),
        Some(text) => match stamp_from_text(text.as_bytes()) {
            Some(stamp) => Ok(Some(stamp)),
            None => Err(BadArgument::Stamp),
        },
    }
}

/// Prints the list of the registry in a store, and returns the exit status: `Rejected` if the
/// stamp is invalid.
pub fn run_export<H: Host, W: Sink, E: Sink>(
    alloc: Global,
    host: &mut H,
    store: &str,
    stamp: Option<&str>,
    output: &mut W,
    errors: &mut E,
) -> ExitStatus
    ensures { Exports H.Host H.File.Disk H.Input.Source host.old host.new store.now (option_copied stamp.entry)
        (ends_of W.Sink E.Sink output.old output.new errors.old errors.new result) }
{
    let stamp = match stamp_of(stamp) {
        Ok(stamp) => stamp,
        Err(argument) => return reject_argument(errors, argument),
    };
    let mut registry = match open_registry(alloc, host, store) {
        Ok(registry) => registry,
        Err(failure) => return fail(errors, failure),
    };
    let status = export(alloc, &mut registry, stamp, output, errors);
    close_registry(host, registry, errors, status)
}

/// Prints a report on the registry in a store, and returns the exit status: `Rejected` if no
/// report has this name.
pub fn run_report<H: Host, W: Sink, E: Sink>(
    alloc: Global,
    host: &mut H,
    store: &str,
    name: &str,
    output: &mut W,
    errors: &mut E,
) -> ExitStatus
    ensures { ReportsAs H.Host H.File.Disk H.Input.Source host.old host.new store.now (report_named name.now)
        (ends_of W.Sink E.Sink output.old output.new errors.old errors.new result) }
{
    let Some(name) = report_named(name) else {
        return reject_argument(errors, BadArgument::Name);
    };
    let mut registry = match open_registry(alloc, host, store) {
        Ok(registry) => registry,
        Err(failure) => return fail(errors, failure),
    };
    let status = report(alloc, &mut registry, name, output, errors);
    close_registry(host, registry, errors, status)
}

/// Prints the record of the registry in a store, or only the requests after the first `after` ones,
/// and returns the exit status.
pub fn run_history<H: Host, W: Sink, E: Sink>(
    alloc: Global,
    host: &mut H,
    store: &str,
    after: Option<u64>,
    output: &mut W,
    errors: &mut E,
) -> ExitStatus
    ensures { PrintsRecord H.Host H.File.Disk host.old host.new store.now after
        (ends_of W.Sink E.Sink output.old output.new errors.old errors.new result) }
{
    let mut registry = match open_registry(alloc, host, store) {
        Ok(registry) => registry,
        Err(failure) => return fail(errors, failure),
    };
    let status = history(alloc, &mut registry, after, output, errors);
    close_registry(host, registry, errors, status)
}

/// Prints where the record of the registry in a store ends, and returns the exit status.
pub fn run_head<H: Host, W: Sink, E: Sink>(
    alloc: Global,
    host: &mut H,
    store: &str,
    output: &mut W,
    errors: &mut E,
) -> ExitStatus
    ensures { PrintsHead H.Host H.File.Disk host.old host.new store.now
        (ends_of W.Sink E.Sink output.old output.new errors.old errors.new result) }
{
    let registry = match open_registry(alloc, host, store) {
        Ok(registry) => registry,
        Err(failure) => return fail(errors, failure),
    };
    let status = head(alloc, &registry, output, errors);
    close_registry(host, registry, errors, status)
}

/// Prints the name of a device in the list in a file, and returns the exit status: `Rejected` if a
/// number is invalid, the input is not a list, or the list has no such device.
pub fn run_lookup<H: Host, W: Sink, E: Sink>(
    alloc: Global,
    host: &mut H,
    list: &str,
    vid: &str,
    pid: &str,
    output: &mut W,
    errors: &mut E,
) -> ExitStatus
    ensures { LooksUp H.Host H.File.Disk H.Input.Source host.old host.new list.now (number_of vid.now) (code_of pid.now)
        (ends_of W.Sink E.Sink output.old output.new errors.old errors.new result) }
{
    let Some(vendor) = parse_vid(vid.as_bytes()) else {
        return reject_argument(errors, BadArgument::Vid);
    };
    let Some(code) = parse_code(pid.as_bytes()) else {
        return reject_argument(errors, BadArgument::Pid);
    };
    match host.open_input(list, MOST_INPUT) {
        Ok(mut source) => look_up(alloc, &mut source, vendor, code, output, errors),
        Err(failure) => fail(errors, failure),
    }
}
