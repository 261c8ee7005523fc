//! The commands that only say what a founding or an import would do.

ghost use Rattle.registry_commands.specs.Ends.{ends_of};
ghost use Rattle.registry_program.specs.DryRuns.{ChecksFounding, TriesFile, TriesImportAs};
ghost use Rattle.registry_program.specs.Outputs.{silent_ends};

use crate::host::{Host, MOST_INPUT};
use crate::stores::{close_registry, open_registry};
use byte_streams::{Sink, Source};
use registry_commands::{
    BadArgument, ExitStatus, Failure, Import, check_founding, fail, reject_argument, try_list,
};
use registry_rules::Rejection;
use registry_store::Registry;
use sqlite::Alter;
use std::alloc::Global;
use usbnum_core::Vid;

/// Checks the founding file at a path, and returns the exit status. Opens nothing else.
pub fn run_found_check<H: Host, E: Sink>(
    alloc: Global,
    host: &mut H,
    founding: &str,
    errors: &mut E,
) -> ExitStatus
    ensures { (out : _) → ChecksFounding H.Host H.Input.Source host.old host.new founding.now
        (silent_ends E.Sink out errors.old errors.new result) }
{
    match host.open_input(founding, MOST_INPUT) {
        Ok(mut source) => check_founding(alloc, &mut source, errors),
        Err(failure) => fail(errors, failure),
    }
}

/// Writes the reply that the import of the list in a file would get, or of that of the standard input
/// if its name is `-`, and returns the exit status.
fn try_file<H: Host, S: Alter, R: Source, W: Sink, E: Sink>(
    alloc: Global,
    host: &mut H,
    list: &str,
    import: Import,
    registry: &mut Registry<S>,
    input: &mut R,
    output: &mut W,
    errors: &mut E,
) -> ExitStatus
    ensures { TriesFile H.Host H.Input.Source R.Source list.now import input.old input.new host.old host.new registry.old registry.new
        (ends_of W.Sink E.Sink output.old output.new errors.old errors.new result) }
{
    if list == "-" {
        return try_list(alloc, input, import, registry, output, errors);
    }
    match host.open_input(list, MOST_INPUT) {
        Ok(mut source) => try_list(alloc, &mut source, import, registry, output, errors),
        Err(failure) => fail(errors, failure),
    }
}

/// Does what `run_import` does, but imports nothing: it writes the reply that the import would get,
/// and returns the exit status, which is `Rejected` also if nothing would be imported. The store holds
/// the same history, and the key is not used.
pub fn run_import_check<H: Host, R: Source, W: Sink, E: Sink>(
    alloc: Global,
    host: &mut H,
    store: &str,
    list: &str,
    asked: Result<Import, Rejection<BadArgument>>,
    sought: &mut Option<Vid>,
    input: &mut R,
    output: &mut W,
    errors: &mut E,
) -> ExitStatus
    ensures { TriesImportAs H.Host H.File.Disk H.Input.Source R.Source input.old input.new host.old host.new store.now list.now asked
        (ends_of W.Sink E.Sink output.old output.new errors.old errors.new result) }
{
    let import = match asked {
        Ok(import) => import,
        Err(Rejection::Refused(argument)) => return reject_argument(errors, argument),
        Err(Rejection::NoMemory) => return fail(errors, Failure::Memory),
    };
    let mut registry = match open_registry(alloc, host, store) {
        Ok(registry) => registry,
        Err(failure) => return fail(errors, failure),
    };
    *sought = Some(import.vendor.unwrap_or(registry.founding().vendor));
    let status = try_file(
        alloc,
        host,
        list,
        import,
        &mut registry,
        input,
        output,
        errors,
    );
    close_registry(host, registry, errors, status)
}
