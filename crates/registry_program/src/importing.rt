//! The command that imports a list.

ghost use Rattle.registry_commands.specs.Ends.{ends_of};
ghost use Rattle.registry_program.specs.Commands.{ImportsAs, ImportsFile};

use crate::host::{Host, MOST_INPUT};
use crate::stores::{close_registry, open_registry};
use byte_streams::{Sink, Source};
use registry_commands::{
    BadArgument, ExitStatus, Failure, Import, fail, import_list, reject_argument,
};
use registry_rules::Rejection;
use registry_store::Registry;
use sqlite::Alter;
use std::alloc::Global;
use usbnum_core::Vid;

/// Imports the list in a file, or that of the standard input if its name is `-`, and returns the exit
/// status.
fn import_file<H: Host, S: Alter, R: Source, W: Sink, E: Sink>(
    alloc: Global,
    host: &mut H,
    list: &str,
    import: Import,
    registry: &mut Registry<S>,
    input: &mut R,
    output: &mut W,
    errors: &mut E,
) -> ExitStatus
    ensures { ImportsFile H.Host H.Input.Source R.Source list.now import input.old input.new host.old host.new registry.old registry.new
        (ends_of W.Sink E.Sink output.old output.new errors.old errors.new result) }
{
    if list == "-" {
        return import_list(alloc, input, import, registry, output, errors);
    }
    match host.open_input(list, MOST_INPUT) {
        Ok(mut source) => import_list(alloc, &mut source, import, registry, output, errors),
        Err(failure) => fail(errors, failure),
    }
}

/// Imports the list in a file, or that of the standard input if its name is `-`, into the registry in
/// a store, if the arguments are valid, and returns the exit status: `Rejected` if an argument is
/// invalid, and `Failed` when out of memory. Opens the store first. Once that is open, `sought` is the
/// vendor whose devices are imported; no clause says so.
pub fn run_import<H: Host, R: Source, W: Sink, E: Sink>(
    alloc: Global,
    host: &mut H,
    store: &str,
    list: &str,
    asked: Result<Import, Rejection<BadArgument>>,
    sought: &mut Option<Vid>,
    input: &mut R,
    output: &mut W,
    errors: &mut E,
) -> ExitStatus
    ensures { ImportsAs H.Host H.File.Disk H.Input.Source R.Source input.old input.new host.old host.new store.now list.now asked
        (ends_of W.Sink E.Sink output.old output.new errors.old errors.new result) }
{
    let import = match asked {
        Ok(import) => import,
        Err(Rejection::Refused(argument)) => return reject_argument(errors, argument),
        Err(Rejection::NoMemory) => return fail(errors, Failure::Memory),
    };
    let mut registry = match open_registry(alloc, host, store) {
        Ok(registry) => registry,
        Err(failure) => return fail(errors, failure),
    };
    *sought = Some(import.vendor.unwrap_or(registry.founding().vendor));
    let status = import_file(
        alloc,
        host,
        list,
        import,
        &mut registry,
        input,
        output,
        errors,
    );
    close_registry(host, registry, errors, status)
}
