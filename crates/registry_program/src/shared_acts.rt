//! The commands that act on requests over a log that several machines share.

ghost use Rattle.registry_commands.specs.Ends.{ends_of};
ghost use Rattle.shared_commands.specs.Applied.{did};
ghost use Rattle.registry_program.specs.SharedActs.{AnswersListOf, AnswersNamed, AppliesJoined, AppliesShared, FollowsReading, ImportsJoined, ImportsSharedAs};

use crate::following::{end_acting, join_at};
use crate::host::{Host, MOST_INPUT};
use crate::logs::Logs;
use crate::stores::{close_registry, open_registry};
use byte_streams::{Sink, Source};
use registry_commands::{BadArgument, ExitStatus, Failure, Import, fail, reject_argument};
use registry_rules::Rejection;
use registry_store::Registry;
use shared_commands::{apply_shared, import_shared};
use shared_log::Log;
use shared_registry::{Cursor, ShareStop};
use sqlite::Alter;
use std::alloc::Global;
use usbnum_core::Vid;

/// Answers the request lines of a file, or of the standard input if its name is `-`, over the log that
/// the registry follows, except for the first `answered` requests.
fn answer_lines<H: Host, S: Alter, L: Log, R: Source, W: Sink, E: Sink>(
    alloc: Global,
    host: &mut H,
    file: &str,
    answered: u64,
    registry: &mut Registry<S>,
    cursor: &mut Cursor<L>,
    input: &mut R,
    output: &mut W,
    errors: &mut E,
) -> Result<ExitStatus, ShareStop>
    ensures { AnswersNamed L.Log (did W.Sink E.Sink registry.old registry.new cursor.old cursor.new output.old output.new errors.old errors.new result)
        H.Host H.Input.Source R.Source file.now answered input.old input.new host.old host.new }
{
    if file == "-" {
        return apply_shared(alloc, input, answered, registry, cursor, output, errors);
    }
    match host.open_input(file, MOST_INPUT) {
        Ok(mut source) => apply_shared(
            alloc,
            &mut source,
            answered,
            registry,
            cursor,
            output,
            errors,
        ),
        Err(failure) => Ok(fail(errors, failure)),
    }
}

/// Imports the list in a file, or that of the standard input if its name is `-`, over the log that the
/// registry follows.
fn answer_list<H: Host, S: Alter, L: Log, R: Source, W: Sink, E: Sink>(
    alloc: Global,
    host: &mut H,
    list: &str,
    import: Import,
    registry: &mut Registry<S>,
    cursor: &mut Cursor<L>,
    input: &mut R,
    output: &mut W,
    errors: &mut E,
) -> Result<ExitStatus, ShareStop>
    ensures { AnswersListOf L.Log (did W.Sink E.Sink registry.old registry.new cursor.old cursor.new output.old output.new errors.old errors.new result)
        H.Host H.Input.Source R.Source list.now import input.old input.new host.old host.new }
{
    if list == "-" {
        return import_shared(alloc, input, import, registry, cursor, output, errors);
    }
    match host.open_input(list, MOST_INPUT) {
        Ok(mut source) => import_shared(
            alloc,
            &mut source,
            import,
            registry,
            cursor,
            output,
            errors,
        ),
        Err(failure) => Ok(fail(errors, failure)),
    }
}

/// Answers request lines over the log that the registry follows, and ends the command.
fn apply_joined<H: Host + Logs, S: Alter, R: Source, W: Sink, E: Sink>(
    alloc: Global,
    host: &mut H,
    file: &str,
    answered: u64,
    registry: &mut Registry<S>,
    mut cursor: Cursor<H::Log>,
    input: &mut R,
    output: &mut W,
    errors: &mut E,
) -> ExitStatus
    ensures { AppliesJoined H.Host H.File.Disk H.Input.Source R.Source H.Logs H.Log.Log file.now answered input.old input.new host.old host.new registry.old registry.new cursor
        (ends_of W.Sink E.Sink output.old output.new errors.old errors.new result) }
{
    let end = answer_lines(
        alloc,
        host,
        file,
        answered,
        registry,
        &mut cursor,
        input,
        output,
        errors,
    );
    end_acting(host, cursor.into_log(), errors, end)
}

/// Imports a list over the log that the registry follows, and ends the command.
fn import_joined<H: Host + Logs, S: Alter, R: Source, W: Sink, E: Sink>(
    alloc: Global,
    host: &mut H,
    list: &str,
    import: Import,
    registry: &mut Registry<S>,
    mut cursor: Cursor<H::Log>,
    input: &mut R,
    output: &mut W,
    errors: &mut E,
) -> ExitStatus
    ensures { ImportsJoined H.Host H.File.Disk H.Input.Source R.Source H.Logs H.Log.Log list.now import input.old input.new host.old host.new registry.old registry.new cursor
        (ends_of W.Sink E.Sink output.old output.new errors.old errors.new result) }
{
    let end = answer_list(
        alloc,
        host,
        list,
        import,
        registry,
        &mut cursor,
        input,
        output,
        errors,
    );
    end_acting(host, cursor.into_log(), errors, end)
}

/// Takes up the log at an address, and answers request lines over it.
fn apply_over<H: Host + Logs, S: Alter, R: Source, W: Sink, E: Sink>(
    alloc: Global,
    host: &mut H,
    file: &str,
    answered: u64,
    address: &str,
    registry: &mut Registry<S>,
    input: &mut R,
    output: &mut W,
    errors: &mut E,
) -> ExitStatus
    ensures { FollowsReading H.Host H.File.Disk H.Input.Source R.Source H.Logs H.Log.Log input.old input.new address.now
        (AppliesJoined H.Host H.File.Disk H.Input.Source R.Source H.Logs H.Log.Log file.now answered input.old input.new) host.old host.new registry.old registry.new
        (ends_of W.Sink E.Sink output.old output.new errors.old errors.new result) }
{
    match join_at(alloc, host, address, registry, errors) {
        Ok(cursor) => apply_joined(
            alloc, host, file, answered, registry, cursor, input, output, errors,
        ),
        Err(status) => status,
    }
}

/// Takes up the log at an address, and imports a list over it.
fn import_over<H: Host + Logs, S: Alter, R: Source, W: Sink, E: Sink>(
    alloc: Global,
    host: &mut H,
    list: &str,
    import: Import,
    address: &str,
    registry: &mut Registry<S>,
    input: &mut R,
    output: &mut W,
    errors: &mut E,
) -> ExitStatus
    ensures { FollowsReading H.Host H.File.Disk H.Input.Source R.Source H.Logs H.Log.Log input.old input.new address.now
        (ImportsJoined H.Host H.File.Disk H.Input.Source R.Source H.Logs H.Log.Log list.now import input.old input.new) host.old host.new registry.old registry.new
        (ends_of W.Sink E.Sink output.old output.new errors.old errors.new result) }
{
    match join_at(alloc, host, address, registry, errors) {
        Ok(cursor) => import_joined(
            alloc, host, list, import, registry, cursor, input, output, errors,
        ),
        Err(status) => status,
    }
}

/// Runs the request lines of a file, or of the standard input if its name is `-`, except for the
/// first `answered` requests, over the registry in a store and the log at an address, and returns the
/// exit status. Opens the store first, and the input once the registry follows the log.
pub fn run_apply_shared<H: Host + Logs, R: Source, W: Sink, E: Sink>(
    alloc: Global,
    host: &mut H,
    store: &str,
    file: &str,
    answered: u64,
    address: &str,
    input: &mut R,
    output: &mut W,
    errors: &mut E,
) -> ExitStatus
    ensures { AppliesShared H.Host H.File.Disk H.Input.Source R.Source H.Logs H.Log.Log input.old input.new host.old host.new store.now file.now answered address.now
        (ends_of W.Sink E.Sink output.old output.new errors.old errors.new result) }
{
    let mut registry = match open_registry(alloc, host, store) {
        Ok(registry) => registry,
        Err(failure) => return fail(errors, failure),
    };
    let status = apply_over(
        alloc,
        host,
        file,
        answered,
        address,
        &mut registry,
        input,
        output,
        errors,
    );
    close_registry(host, registry, errors, status)
}

/// Imports the list in a file, or that of the standard input if its name is `-`, into the registry in
/// a store over the log at an address, if the arguments are valid, and returns the exit status:
/// `Rejected` if an argument is invalid, and `Failed` when out of memory. Opens the store first, and the
/// list once the registry follows the log. Once the store is open, `sought` is the vendor whose devices
/// are imported; no clause says so.
pub fn run_import_shared<H: Host + Logs, R: Source, W: Sink, E: Sink>(
    alloc: Global,
    host: &mut H,
    store: &str,
    list: &str,
    asked: Result<Import, Rejection<BadArgument>>,
    address: &str,
    sought: &mut Option<Vid>,
    input: &mut R,
    output: &mut W,
    errors: &mut E,
) -> ExitStatus
    ensures { ImportsSharedAs H.Host H.File.Disk H.Input.Source R.Source H.Logs H.Log.Log input.old input.new host.old host.new store.now list.now asked address.now
        (ends_of W.Sink E.Sink output.old output.new errors.old errors.new result) }
{
    let import = match asked {
        Ok(import) => import,
        Err(Rejection::Refused(argument)) => return reject_argument(errors, argument),
        Err(Rejection::NoMemory) => return fail(errors, Failure::Memory),
    };
    let mut registry = match open_registry(alloc, host, store) {
        Ok(registry) => registry,
        Err(failure) => return fail(errors, failure),
    };
    *sought = Some(import.vendor.unwrap_or(registry.founding().vendor));
    let status = import_over(
        alloc,
        host,
        list,
        import,
        address,
        &mut registry,
        input,
        output,
        errors,
    );
    close_registry(host, registry, errors, status)
}
