//! Does what the arguments of the program ask for.

ghost use Rattle.std.specs.Prelude.{◌≡◌, ◌||◌, ◌&&◌, map, string_bytes};
ghost use Rattle.registry_arguments.specs.Commands.{is_verbose, texts};
ghost use Rattle.registry_commands.specs.Ends.{code, ends_of, output_of};
ghost use Rattle.registry_program.specs.Running.{IsUsage, IsObeyed, IsPrompted, IsRunBy, IsUsageTold};
ghost use Rattle.registry_program.specs.Statuses.{IsStatus};

use crate::host::Host;
use crate::last_line::LastLine;
use crate::logs::Logs;
use crate::performing::perform;
use byte_streams::{Broken, Sink, Source, put_all};
use clap::Error;
use registry_arguments::{Command, Invocation, Usage, invocation_of};
use registry_commands::{ExitStatus, Failure, fail, tell};
use registry_desk::Connections;
use std::alloc::Global;

/// Which of the standard streams are terminals.
#[derive(Clone, Copy, Debug, PartialEq, Eq)]
pub struct Terminals {
    pub input: bool,
    pub errors: bool,
}

/// Returns whether causes are said: with `--verbose`, and to a terminal.
fn says_causes(is_verbose: bool, terminals: Terminals) -> bool
    ensures { result ≡ (is_verbose || terminals.errors) }
{
    is_verbose || terminals.errors
}

/// Returns whether a trial reads a terminal, and its reader is told.
fn is_waited_for(says_causes: bool, terminals: Terminals) -> bool
    ensures { result ≡ (says_causes && terminals.input) }
{
    says_causes && terminals.input
}

/// Says that a trial reads request lines, if its reader is told.
fn prompt<E: Sink>(command: Command<&str>, is_waited_for: bool, errors: &mut E)
    ensures { IsPrompted is_waited_for (texts command.entry) (output_of E.Sink errors.old errors.new) }
{
    match command {
        Command::Trial => {
            if is_waited_for {
                tell(
                    errors,
                    "usbreg: request lines are read from the terminal; Ctrl-D ends them\n",
                );
            }
        }
        _ => {}
    }
}

/// Does what the arguments ask for, and returns the exit status.
fn obey<H: Host + Connections + Logs, R: Source, W: Sink, E: Sink + LastLine>(
    alloc: Global,
    host: &mut H,
    asked: Invocation<&str>,
    terminals: Terminals,
    input: &mut R,
    output: &mut W,
    errors: &mut E,
) -> ExitStatus
    ensures { IsObeyed H.Host H.File.Disk H.Input.Source H.Connections H.Reader.Source H.Writer.Sink R.Source H.Logs H.Log.Log (texts asked.entry.command)
        (asked.entry.verbose || terminals.errors) ((asked.entry.verbose || terminals.errors) && terminals.input) host.old host.new input.old input.new
        (ends_of W.Sink E.Sink output.old output.new errors.old errors.new result) }
{
    let verbose = says_causes(asked.verbose, terminals);
    prompt(asked.command, is_waited_for(verbose, terminals), errors);
    perform(alloc, host, asked.command, verbose, input, output, errors)
}

/// Returns a line that follows the text of `clap` where that misleads: these arguments are asked for
/// in another way.
fn hint_for(arguments: &[String]) -> &'static str {
    match arguments {
        [_, first, ..] if first.as_str() == "--verbose" => {
            "usbreg: --verbose follows a command, as in usbreg trial --verbose\n"
        }
        [_, first, second, ..]
            if first.as_str() == "help"
                && (second.as_str() == "--help" || second.as_str() == "-h") => {
            "usbreg: usbreg help COMMAND prints the help of a command, and usbreg --help that of the program\n"
        }
        _ => "",
    }
}

/// Prints the text of an error of `clap`, and returns the exit status. The help and the version go
/// to the output. After a refusal the line of a hint may follow.
fn show<W: Sink, E: Sink>(
    alloc: Global,
    error: &Error,
    arguments: &[String],
    output: &mut W,
    errors: &mut E,
) -> ExitStatus
    ensures { IsUsageTold error.now (ends_of W.Sink E.Sink output.old output.new errors.old errors.new result) }
{
    let hint = if error.use_stderr() {
        hint_for(arguments)
    } else {
        ""
    };
    let Ok(text) = format!(in alloc; "{error}{hint}") else {
        return fail(errors, Failure::Memory);
    };
    if error.use_stderr() {
        tell(errors, text.as_str());
        return ExitStatus::Rejected;
    }
    match put_all(output, text.as_bytes()) {
        Ok(()) => ExitStatus::Success,
        Err(Broken) => fail(errors, Failure::File),
    }
}

/// Prints why the arguments give no command, or the help or the version that they ask for, and
/// returns the exit status.
fn answer<W: Sink, E: Sink>(
    alloc: Global,
    usage: &Usage,
    arguments: &[String],
    output: &mut W,
    errors: &mut E,
) -> ExitStatus
    ensures { IsUsage usage.now (ends_of W.Sink E.Sink output.old output.new errors.old errors.new result) }
{
    match usage {
        Usage::Refused(error) => show(alloc, error, arguments, output, errors),
        Usage::NoMemory => fail(errors, Failure::Memory),
    }
}

/// Does what the arguments ask for, over a machine and the standard streams, and returns the exit
/// status. The first argument is the program's own name. If the arguments are a command, the
/// contract says of it what that of `perform` says, unless memory does not suffice for them. Causes
/// may be said with `--verbose`, or if the error output is a terminal.
pub fn run_over<H: Host + Connections + Logs, R: Source, W: Sink, E: Sink + LastLine>(
    alloc: Global,
    host: &mut H,
    arguments: &[String],
    terminals: Terminals,
    input: &mut R,
    output: &mut W,
    errors: &mut E,
) -> ExitStatus
    ensures runs { IsRunBy H.Host H.File.Disk H.Input.Source H.Connections H.Reader.Source H.Writer.Sink R.Source H.Logs H.Log.Log (map string_bytes arguments.now)
        (is_verbose (map string_bytes arguments.now) || terminals.errors) ((is_verbose (map string_bytes arguments.now) || terminals.errors) && terminals.input)
        host.old host.new input.old input.new (ends_of W.Sink E.Sink output.old output.new errors.old errors.new result) }
    ensures status { IsStatus (code result) }
{
    match invocation_of(alloc, arguments) {
        Ok(asked) => obey(alloc, host, asked, terminals, input, output, errors),
        Err(usage) => answer(alloc, &usage, arguments, output, errors),
    }
}
