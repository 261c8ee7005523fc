//! Reads the command of a subcommand from its values.

ghost use Rattle.std.specs.Prelude.{◌≡◌, ◌≤◌, IfSome, option_copied, option_map};
ghost use Rattle.clap.specs.Words.{first_of, found_of, rows_of};
ghost use Rattle.registry_arguments.specs.Commands.{apply_in, check_in, export_in, found_in, head_in, history_in, import_in, has_check, lookup_in, named, number_if_given, number_in, replay_in, report_in, serve_in, share_in, texts};

use crate::command::Command;
use crate::parts::{MOST_CONNECTIONS, MOST_PASSED, MOST_PORT};
use clap::ArgMatches;

/// Returns the value of a decimal text, if it is from `low` to `high`.
fn number_in(text: &str, low: u64, high: u64) -> Option<u64>
    ensures value { result ≡ number_in low high text.now }
    ensures within { IfSome result (λ n. n ≤ high) }
{
    match text.parse::<u64>() {
        Ok(number) => {
            if low <= number && number <= high {
                Some(number)
            } else {
                None
            }
        }
        Err(_) => None,
    }
}

/// Returns the value of an option's decimal text, if it is from `low` to `high`, or `Some(None)` if
/// the option is absent.
fn number_if_given(text: Option<&str>, low: u64, high: u64) -> Option<Option<u64>>
    ensures value { result ≡ number_if_given low high (option_copied text.entry) }
    ensures within { IfSome result (λ n. IfSome n (λ n. n ≤ high)) }
{
    match text {
        Some(text) => Some(Some(number_in(text, low, high)?)),
        None => Some(None),
    }
}

/// Returns the first value of an argument.
pub(crate) fn value_of<'a>(matches: &ArgMatches<'a>, id: &str) -> Option<&'a str>
    ensures { option_copied result ≡ first_of id.now (rows_of (found_of matches.now)) }
{
    matches.get_str(id)
}

/// Returns whether the flag `--check` is used.
fn is_check(matches: &ArgMatches<'_>) -> bool
    ensures { result ≡ has_check (rows_of (found_of matches.now)) }
{
    value_of(matches, "check").is_some()
}

fn found_in<'a>(matches: &ArgMatches<'a>) -> Option<Command<&'a str>>
    ensures { option_map texts result ≡ found_in (rows_of (found_of matches.now)) }
{
    let store = value_of(matches, "store")?;
    let founding = value_of(matches, "founding")?;
    if is_check(matches) {
        return Some(Command::CheckFounding { founding });
    }
    Some(Command::Found { store, founding })
}

fn apply_in<'a>(matches: &ArgMatches<'a>) -> Option<Command<&'a str>>
    ensures { option_map texts result ≡ apply_in (rows_of (found_of matches.now)) }
{
    let store = value_of(matches, "store")?;
    let file = value_of(matches, "file")?;
    let answered = number_if_given(value_of(matches, "answered"), 0, u64::MAX)?;
    let answered = answered.unwrap_or(0);
    match value_of(matches, "log") {
        Some(log) => Some(Command::ApplyShared {
            store,
            file,
            answered,
            log,
        }),
        None => Some(Command::Apply {
            store,
            file,
            answered,
        }),
    }
}

fn import_in<'a>(matches: &ArgMatches<'a>) -> Option<Command<&'a str>>
    ensures { option_map texts result ≡ import_in (rows_of (found_of matches.now)) }
{
    let store = value_of(matches, "store")?;
    let list = value_of(matches, "list")?;
    let caller = value_of(matches, "caller")?;
    let key = value_of(matches, "key")?;
    let org = value_of(matches, "org")?;
    let vendor = value_of(matches, "vendor");
    if is_check(matches) {
        return Some(Command::CheckImport {
            store,
            list,
            caller,
            key,
            org,
            vendor,
        });
    }
    match value_of(matches, "log") {
        Some(log) => Some(Command::ImportShared {
            store,
            list,
            caller,
            key,
            org,
            vendor,
            log,
        }),
        None => Some(Command::Import {
            store,
            list,
            caller,
            key,
            org,
            vendor,
        }),
    }
}

fn replay_in<'a>(matches: &ArgMatches<'a>) -> Option<Command<&'a str>>
    ensures { option_map texts result ≡ replay_in (rows_of (found_of matches.now)) }
{
    let store = value_of(matches, "store")?;
    match (value_of(matches, "record"), value_of(matches, "log")) {
        (Some(record), None) => Some(Command::Replay { store, record }),
        (None, Some(log)) => Some(Command::ReplayShared { store, log }),
        _ => None,
    }
}

fn serve_in<'a>(matches: &ArgMatches<'a>) -> Option<Command<&'a str>>
    ensures { option_map texts result ≡ serve_in (rows_of (found_of matches.now)) }
{
    let store = value_of(matches, "store")?;
    let text = value_of(matches, "port")?;
    let port = number_in(text, 1, MOST_PORT)?;
    let count = number_if_given(value_of(matches, "count"), 0, MOST_CONNECTIONS)?;
    let (port, count) = (port as u16, count.map(|count| count as u32));
    match value_of(matches, "log") {
        Some(log) => Some(Command::ServeShared {
            store,
            port,
            count,
            log,
        }),
        None => Some(Command::Serve { store, port, count }),
    }
}

fn share_in<'a>(matches: &ArgMatches<'a>) -> Option<Command<&'a str>>
    ensures { option_map texts result ≡ share_in (rows_of (found_of matches.now)) }
{
    let store = value_of(matches, "store")?;
    let log = value_of(matches, "log")?;
    Some(Command::Share { store, log })
}

fn export_in<'a>(matches: &ArgMatches<'a>) -> Option<Command<&'a str>>
    ensures { option_map texts result ≡ export_in (rows_of (found_of matches.now)) }
{
    let store = value_of(matches, "store")?;
    let stamp = value_of(matches, "stamp");
    Some(Command::Export { store, stamp })
}

fn report_in<'a>(matches: &ArgMatches<'a>) -> Option<Command<&'a str>>
    ensures { option_map texts result ≡ report_in (rows_of (found_of matches.now)) }
{
    let store = value_of(matches, "store")?;
    let name = value_of(matches, "name")?;
    Some(Command::Report { store, name })
}

fn history_in<'a>(matches: &ArgMatches<'a>) -> Option<Command<&'a str>>
    ensures { option_map texts result ≡ history_in (rows_of (found_of matches.now)) }
{
    let store = value_of(matches, "store")?;
    let after = number_if_given(value_of(matches, "after"), 0, MOST_PASSED)?;
    Some(Command::History { store, after })
}

fn head_in<'a>(matches: &ArgMatches<'a>) -> Option<Command<&'a str>>
    ensures { option_map texts result ≡ head_in (rows_of (found_of matches.now)) }
{
    let store = value_of(matches, "store")?;
    Some(Command::Head { store })
}

fn check_in<'a>(matches: &ArgMatches<'a>) -> Option<Command<&'a str>>
    ensures { option_map texts result ≡ check_in (rows_of (found_of matches.now)) }
{
    let store = value_of(matches, "store")?;
    Some(Command::Check { store })
}

fn lookup_in<'a>(matches: &ArgMatches<'a>) -> Option<Command<&'a str>>
    ensures { option_map texts result ≡ lookup_in (rows_of (found_of matches.now)) }
{
    let list = value_of(matches, "list")?;
    let vid = value_of(matches, "vid")?;
    let pid = value_of(matches, "pid")?;
    Some(Command::Lookup { list, vid, pid })
}

/// Returns the command of the subcommand with this name.
pub(crate) fn named<'a>(name: &str, matches: &ArgMatches<'a>) -> Option<Command<&'a str>>
    ensures { option_map texts result ≡ named name.now (rows_of (found_of matches.now)) }
{
    match name {
        "trial" => Some(Command::Trial),
        "found" => found_in(matches),
        "apply" => apply_in(matches),
        "import" => import_in(matches),
        "replay" => replay_in(matches),
        "share" => share_in(matches),
        "serve" => serve_in(matches),
        "export" => export_in(matches),
        "report" => report_in(matches),
        "history" => history_in(matches),
        "head" => head_in(matches),
        "check" => check_in(matches),
        "lookup" => lookup_in(matches),
        _ => None,
    }
}
