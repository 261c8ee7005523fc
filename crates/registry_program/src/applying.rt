//! The command that acts on request lines.

ghost use Rattle.registry_commands.specs.Ends.{ends_of};
ghost use Rattle.registry_program.specs.Commands.{ActsOnFile, Applies};

use crate::host::{Host, MOST_INPUT};
use crate::stores::{close_registry, open_registry};
use byte_streams::{Sink, Source};
use registry_commands::{ExitStatus, apply_lines, fail};
use registry_store::Registry;
use sqlite::Alter;
use std::alloc::Global;

/// Acts on the request lines of a file, or of the standard input if its name is `-`, except for the
/// first `answered` requests, and returns the exit status.
fn apply_file<H: Host, S: Alter, R: Source, W: Sink, E: Sink>(
    alloc: Global,
    host: &mut H,
    file: &str,
    answered: u64,
    registry: &mut Registry<S>,
    input: &mut R,
    output: &mut W,
    errors: &mut E,
) -> ExitStatus
    ensures { ActsOnFile H.Host H.Input.Source R.Source file.now answered input.old input.new host.old host.new registry.old registry.new
        (ends_of W.Sink E.Sink output.old output.new errors.old errors.new result) }
{
    if file == "-" {
        return apply_lines(alloc, input, answered, registry, output, errors);
    }
    match host.open_input(file, MOST_INPUT) {
        Ok(mut source) => apply_lines(alloc, &mut source, answered, registry, output, errors),
        Err(failure) => fail(errors, failure),
    }
}

/// Runs the request lines of a file, or of the standard input if its name is `-`, except for the
/// first `answered` requests, over the registry in a store, and returns the exit status. Opens the
/// store first.
pub fn run_apply<H: Host, R: Source, W: Sink, E: Sink>(
    alloc: Global,
    host: &mut H,
    store: &str,
    file: &str,
    answered: u64,
    input: &mut R,
    output: &mut W,
    errors: &mut E,
) -> ExitStatus
    ensures { Applies H.Host H.File.Disk H.Input.Source R.Source input.old input.new host.old host.new store.now file.now answered
        (ends_of W.Sink E.Sink output.old output.new errors.old errors.new result) }
{
    let mut registry = match open_registry(alloc, host, store) {
        Ok(registry) => registry,
        Err(failure) => return fail(errors, failure),
    };
    let status = apply_file(
        alloc,
        host,
        file,
        answered,
        &mut registry,
        input,
        output,
        errors,
    );
    close_registry(host, registry, errors, status)
}
