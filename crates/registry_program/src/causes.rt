//! Says why a command failed, what a founding or a request line ignored, or that a list has nothing of the
//! vendor that was to be imported, in one more line of the error output.

ghost use Rattle.std.specs.Prelude.{◌≡◌, ◌⊎◌, IfOk};
ghost use Rattle.registry_arguments.specs.Commands.{texts};
ghost use Rattle.registry_commands.specs.Ends.{sunk};
ghost use Rattle.registry_program.specs.Explained.{HasRemarks, MayExplain, cause_line};

use crate::arguments::{argument_in, what_may_be};
use crate::field_remarks::remark_on_fields;
use crate::host::{About, Cause, Host};
use crate::last_line::LastLine;
use crate::line_remarks::{count_lines, remark_on_lines};
use crate::list_remarks::{remark_on_list, remark_on_vendor};
use crate::remarks::{remark_on_founding, remark_on_keys};
use byte_streams::Sink;
use registry_arguments::Command;
use registry_commands::{Failure, shown_bytes, tell_bytes};
use std::alloc::Global;
use usbnum_core::{NoMemory, Vid};

const FAILURES: [Failure; 6] = [
    Failure::Store,
    Failure::Memory,
    Failure::Foreign,
    Failure::Taken,
    Failure::Poisoned,
    Failure::File,
];

/// Returns whether a line, without its line feed, is this message, which has it.
pub(crate) fn is_message(line: &[u8], message: &str) -> bool {
    match message.as_bytes() {
        [text @ .., b'\n'] => text == line,
        _ => false,
    }
}

/// Returns the failure of which a line is the message.
fn failure_in(line: &[u8]) -> Option<Failure> {
    for failure in FAILURES {
        if is_message(line, failure.line()) {
            return Some(failure);
        }
    }
    None
}

/// Returns the path of the store that a command uses.
fn store_of<'a>(command: Command<&'a str>) -> Option<&'a str> {
    match command {
        Command::Trial => None,
        Command::Found { store, .. } => Some(store),
        Command::Apply { store, .. } => Some(store),
        Command::ApplyShared { store, .. } => Some(store),
        Command::Import { store, .. } => Some(store),
        Command::ImportShared { store, .. } => Some(store),
        Command::CheckFounding { .. } => None,
        Command::CheckImport { store, .. } => Some(store),
        Command::Replay { store, .. } => Some(store),
        Command::ReplayShared { store, .. } => Some(store),
        Command::Serve { store, .. } => Some(store),
        Command::ServeShared { store, .. } => Some(store),
        Command::Share { store, .. } => Some(store),
        Command::Export { store, .. } => Some(store),
        Command::Report { store, .. } => Some(store),
        Command::History { store, .. } => Some(store),
        Command::Head { store } => Some(store),
        Command::Check { store } => Some(store),
        Command::Lookup { .. } => None,
    }
}

/// Returns the name of an input, or the words for the standard input.
fn named<'a>(name: &'a str) -> &'a str {
    if name == "-" { "standard input" } else { name }
}

/// Returns the path of the file that a command reads, or the words for the standard input.
fn input_of<'a>(command: Command<&'a str>) -> &'a str {
    match command {
        Command::Found { founding, .. } | Command::CheckFounding { founding } => founding,
        Command::Apply { file, .. } | Command::ApplyShared { file, .. } => named(file),
        Command::Import { list, .. }
        | Command::ImportShared { list, .. }
        | Command::CheckImport { list, .. } => named(list),
        Command::Lookup { list, .. } => list,
        Command::Replay { record, .. } => named(record),
        _ => "standard input",
    }
}

/// Returns the address of the log that a command uses.
fn log_of<'a>(command: Command<&'a str>) -> &'a str {
    match command {
        Command::ApplyShared { log, .. }
        | Command::ImportShared { log, .. }
        | Command::ReplayShared { log, .. }
        | Command::ServeShared { log, .. }
        | Command::Share { log, .. } => log,
        _ => "the log",
    }
}

/// Returns the address of a log as it is shown: without the name and the password of a user, since what
/// a service says of a failure is kept in a journal.
fn shown_address(alloc: Global, address: &str) -> Result<String, NoMemory> {
    let (scheme, rest) = address.split_once("://").unwrap_or(("", address));
    let place = match rest.split_once('/') {
        Some((place, _)) => place,
        None => rest,
    };
    let Some((user, _)) = place.rsplit_once('@') else {
        return Ok(String::from_str(alloc, address)?);
    };
    let shown = rest.strip_prefix(user).unwrap_or(rest);
    Ok(format!(in alloc; "{scheme}://{}", shown.strip_prefix('@').unwrap_or(shown))?)
}

/// Returns a path as it is shown: an empty one in quotes.
fn shown_path<'a>(path: &'a str) -> &'a str {
    if path.is_empty() { "\"\"" } else { path }
}

/// Returns what a failure of a command is about: an argument or a stream.
fn subject_of(alloc: Global, command: Command<&str>, about: About) -> Result<String, NoMemory> {
    match about {
        About::Store => Ok(String::from_str(
            alloc,
            shown_path(store_of(command).unwrap_or("the store")),
        )?),
        About::Input => Ok(String::from_str(alloc, shown_path(input_of(command)))?),
        About::Output => Ok(String::from_str(alloc, "standard output")?),
        About::Log => shown_address(alloc, log_of(command)),
        About::Port => match command {
            Command::Serve { port, .. } | Command::ServeShared { port, .. } => Ok(format!(in alloc;
                "port {port}"
            )?),
            _ => Ok(String::from_str(alloc, "the port")?),
        },
    }
}

fn words_of(
    alloc: Global,
    command: Command<&str>,
    about: About,
    words: &str,
) -> Result<String, NoMemory> {
    let subject = subject_of(alloc, command, about)?;
    Ok(format!(in alloc; "{subject}: {words}")?)
}

/// Returns the words for what the machine knows, or else these.
fn words_or(
    alloc: Global,
    command: Command<&str>,
    cause: Option<Cause>,
    about: About,
    otherwise: &str,
) -> Result<String, NoMemory> {
    match cause {
        Some(cause) => words_of(alloc, command, cause.about, cause.words.as_str()),
        None => words_of(alloc, command, about, otherwise),
    }
}

/// Returns the words for a failure of the store.
fn why_store_failed<H: Host>(
    alloc: Global,
    host: &H,
    command: Command<&str>,
) -> Result<String, NoMemory> {
    let cause = host.cause(alloc, store_of(command));
    let otherwise = "no cause is known; look for errors of its disk, and compare it with a backup";
    let words = words_or(alloc, command, cause, About::Store, otherwise)?;
    match command {
        Command::Found { store, .. } if host.shows_registry(alloc, store) => Ok(format!(in alloc;
            "{words}; the registry is founded, and this failed when its store was closed"
        )?),
        _ => Ok(words),
    }
}

/// Returns the words for a failure.
fn why_failed<H: Host>(
    alloc: Global,
    host: &H,
    command: Command<&str>,
    failure: Failure,
) -> Result<String, NoMemory> {
    match failure {
        Failure::Memory => Ok(String::from_str(alloc, "out of memory")?),
        Failure::Store => why_store_failed(alloc, host, command),
        Failure::File => {
            let cause = host.cause(alloc, None);
            let otherwise = "no cause is known; it may have at most 4294967295 bytes";
            words_or(alloc, command, cause, About::Input, otherwise)
        }
        Failure::Foreign => {
            let cause = host.cause(alloc, store_of(command));
            let otherwise =
                "has the tables of a registry, as far as was seen; a value in them is none of a registry; restore a backup";
            words_or(alloc, command, cause, About::Store, otherwise)
        }
        Failure::Taken => words_of(alloc, command, About::Store, "holds a registry already"),
        Failure::Poisoned => {
            let words = "takes no request after a fault; run the command again";
            words_of(alloc, command, About::Store, words)
        }
    }
}

/// Returns the words for a line of the error output that refuses the input, if they are known.
fn words_for_input<H: Host>(
    alloc: Global,
    host: &H,
    command: Command<&str>,
    line: &[u8],
) -> Result<Option<String>, NoMemory> {
    let Some(bytes) = host.take_kept(alloc) else {
        return Ok(None);
    };
    let words = match command {
        Command::Found { .. } | Command::CheckFounding { .. } => {
            remark_on_founding(alloc, &bytes, line)?
        }
        Command::Import { .. }
        | Command::ImportShared { .. }
        | Command::CheckImport { .. }
        | Command::Lookup { .. } => remark_on_list(alloc, &bytes, line)?,
        Command::Apply { answered, .. } | Command::ApplyShared { answered, .. }
            if is_message(line, "answered exceeds requests\n") => {
            let count = count_lines(&bytes);
            Some(format!(in alloc; "it has {count} requests, and --answered is {answered}")?)
        }
        _ => remark_on_lines(alloc, &bytes, line)?,
    };
    match words {
        Some(words) => Ok(Some(words_of(alloc, command, About::Input, words.as_str())?)),
        None => Ok(None),
    }
}

/// Returns the words for a line of the error output, if they are known. The vendor is that of an import.
fn words_for<H: Host>(
    alloc: Global,
    host: &H,
    command: Command<&str>,
    vendor: Option<Vid>,
    line: &[u8],
) -> Result<Option<String>, NoMemory> {
    if let Some(failure) = failure_in(line) {
        return Ok(Some(why_failed(alloc, host, command, failure)?));
    }
    if let Some(argument) = argument_in(line) {
        return Ok(Some(String::from_str(alloc, what_may_be(argument))?));
    }
    if is_message(line, "fault: socket\n") {
        let cause = host.cause(alloc, None);
        let words = words_or(
            alloc,
            command,
            cause,
            About::Port,
            "no connection was accepted",
        )?;
        return Ok(Some(words));
    }
    if is_message(line, "fault: log\n") {
        let cause = host.cause(alloc, None);
        let words = words_or(alloc, command, cause, About::Log, "no cause is known")?;
        return Ok(Some(words));
    }
    if is_message(line, "bad word: log\n") {
        let words = "the address of a log is http://HOST:PORT/NAME, where NAME is a slug";
        return Ok(Some(String::from_str(alloc, words)?));
    }
    if is_message(line, "no fresh number\n") {
        return words_for_list(alloc, host, command, vendor);
    }
    if line.starts_with(b"unsound: ") {
        let words = "its rows are not those that its record makes; keep it, and restore a backup";
        return Ok(Some(words_of(alloc, command, About::Store, words)?));
    }
    words_for_input(alloc, host, command, line)
}

/// Returns the words for the keys of a founding, or the fields of request lines, that were ignored,
/// if there are any.
fn words_for_ignored<H: Host>(
    alloc: Global,
    host: &H,
    command: Command<&str>,
) -> Result<Option<String>, NoMemory> {
    let Some(bytes) = host.take_kept(alloc) else {
        return Ok(None);
    };
    let words = match command {
        Command::Found { .. } => remark_on_keys(alloc, &bytes)?,
        _ => remark_on_fields(alloc, &bytes)?,
    };
    match words {
        Some(words) => Ok(Some(words_of(alloc, command, About::Input, words.as_str())?)),
        None => Ok(None),
    }
}

/// Returns the words for what the list of an import has where it has nothing of the vendor.
fn words_for_list<H: Host>(
    alloc: Global,
    host: &H,
    command: Command<&str>,
    vendor: Option<Vid>,
) -> Result<Option<String>, NoMemory> {
    let Some(vendor) = vendor else {
        return Ok(None);
    };
    let Some(bytes) = host.take_kept(alloc) else {
        return Ok(None);
    };
    match remark_on_vendor(alloc, &bytes, vendor)? {
        Some(words) => Ok(Some(words_of(alloc, command, About::Input, words.as_str())?)),
        None => Ok(None),
    }
}

fn cause_line(alloc: Global, words: &str) -> Result<Vec<u8>, NoMemory>
    ensures { IfOk result (λ line. line.items ≡ cause_line words.now) }
{
    let words = shown_bytes(alloc, words.as_bytes())?;
    let mut line = Vec::new(alloc);
    line.extend_from_slice("usbreg: ".as_bytes())?;
    line.extend_from_slice(&words)?;
    line.extend_from_slice("\n".as_bytes())?;
    Ok(line)
}

/// Writes one line with these words. Without memory for it nothing is written.
fn say<E: Sink>(alloc: Global, errors: &mut E, words: &str)
    ensures { MayExplain (sunk E.Sink errors.old) (sunk E.Sink errors.new) }
{
    match cause_line(alloc, words) {
        Ok(line) => tell_bytes(errors, &line),
        Err(NoMemory) => {}
    }
}

/// Writes one line with these words, if there are any.
fn say_if<E: Sink>(alloc: Global, errors: &mut E, words: Result<Option<String>, NoMemory>)
    ensures { MayExplain (sunk E.Sink errors.old) (sunk E.Sink errors.new) }
{
    match words {
        Ok(Some(words)) => say(alloc, errors, words.as_str()),
        _ => {}
    }
}

/// Says why the command failed or was refused whose message is the last line, if that is known.
pub(crate) fn explain<H: Host, E: Sink + LastLine>(
    alloc: Global,
    host: &H,
    command: Command<&str>,
    vendor: Option<Vid>,
    errors: &mut E,
)
    ensures { MayExplain (sunk E.Sink errors.old) (sunk E.Sink errors.new) }
{
    let words = words_for(alloc, host, command, vendor, errors.last_line());
    say_if(alloc, errors, words)
}

/// Says what a command that did what it was asked for passed over: a founding, keys of its file; a
/// trial or an `apply`, fields of its lines; an import, a list that has nothing of the vendor.
pub(crate) fn remark<H: Host, E: Sink>(
    alloc: Global,
    host: &H,
    command: Command<&str>,
    vendor: Option<Vid>,
    errors: &mut E,
)
    ensures { (sunk E.Sink errors.new ≡ sunk E.Sink errors.old)
        ⊎ (HasRemarks (texts command.entry) × MayExplain (sunk E.Sink errors.old) (sunk E.Sink errors.new)) }
{
    match command {
        Command::Found { .. } => say_if(alloc, errors, words_for_ignored(alloc, host, command)),
        Command::Trial => say_if(alloc, errors, words_for_ignored(alloc, host, command)),
        Command::Apply { .. } => say_if(alloc, errors, words_for_ignored(alloc, host, command)),
        Command::ApplyShared { .. } => {
            say_if(alloc, errors, words_for_ignored(alloc, host, command))
        }
        Command::Import { .. } | Command::ImportShared { .. } => {
            say_if(alloc, errors, words_for_list(alloc, host, command, vendor))
        }
        _ => {}
    }
}
