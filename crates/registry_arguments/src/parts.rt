//! The parts of which the command line is defined for `clap`: arguments, options, flags and subcommands.

ghost use Rattle.std.specs.Prelude.{◌≡◌, ◌∷◌, [], IfOk, Some, false, codes};
ghost use Rattle.clap.specs.Words.{app_of, items_of, rule_of, new_app, with_rule, with_subcommand};
ghost use Rattle.clap.specs.declared.builder.command.Command.TheViews.{out-Command};
ghost use Rattle.registry_arguments.specs.Commands.{named_flag, most_connections, needed_option, numeric, option, optional, positional};

use clap::builder::{ValueParser, ValueRange};
use clap::{Arg, ArgAction, Command};
use std::alloc::{AllocError, Global};

/// The greatest port.
pub(crate) const MOST_PORT: u64 = 65_535;

/// The most connections that `--count` may ask for.
pub(crate) const MOST_CONNECTIONS: u64 = 4_294_967_295;

/// The most requests that `--after` may leave out.
pub(crate) const MOST_PASSED: u64 = 4_294_967_295;

/// Returns a required positional argument.
pub(crate) fn positional<'a>(alloc: Global, name: &'a str, shown: &'a str, help: &'a str) -> Arg<'a>
    ensures rule { rule_of result ≡ positional name.entry.now }
    ensures local { result.global ≡ false }
    ensures texts { (result.help ≡ Some help.entry) × (items_of result.val_names ≡ shown.entry ∷ []) }
{
    Arg::new(alloc, name)
        .required(true)
        .value_name(shown)
        .help(help)
}

/// Returns a positional argument that may be left out.
pub(crate) fn optional<'a>(alloc: Global, name: &'a str, shown: &'a str, help: &'a str) -> Arg<'a>
    ensures rule { rule_of result ≡ optional name.entry.now }
    ensures local { result.global ≡ false }
    ensures texts { (result.help ≡ Some help.entry) × (items_of result.val_names ≡ shown.entry ∷ []) }
{
    Arg::new(alloc, name).value_name(shown).help(help)
}

/// Returns an optional `--name VALUE`.
pub(crate) fn option<'a>(alloc: Global, name: &'a str, shown: &'a str, help: &'a str) -> Arg<'a>
    ensures rule { rule_of result ≡ option name.entry.now }
    ensures local { result.global ≡ false }
    ensures texts { (result.help ≡ Some help.entry) × (items_of result.val_names ≡ shown.entry ∷ []) }
{
    Arg::new(alloc, name)
        .long(name)
        .value_name(shown)
        .help(help)
}

/// Returns a required `--name VALUE`.
pub(crate) fn needed_option<'a>(
    alloc: Global,
    name: &'a str,
    shown: &'a str,
    help: &'a str,
) -> Arg<'a>
    ensures rule { rule_of result ≡ needed_option name.entry.now }
    ensures local { result.global ≡ false }
    ensures texts { (result.help ≡ Some help.entry) × (items_of result.val_names ≡ shown.entry ∷ []) }
{
    option(alloc, name, shown, help).required(true)
}

/// Returns the argument with a decimal number from `low` to `high` as its value.
pub(crate) fn numeric<'a>(arg: Arg<'a>, low: u64, high: u64) -> Arg<'a>
    ensures rule { rule_of result ≡ numeric low high (rule_of arg.entry) }
    ensures others { result ≡ record arg.entry { value_parser = result.value_parser } }
    ensures local { result.global ≡ arg.entry.global }
{
    arg.value_parser(ValueParser::Unsigned(low, high))
}

/// Returns a flag `--name`. Its action is `Set`, without a default value, so that the matches have
/// a value of it only where it is used.
pub(crate) fn flag<'a>(alloc: Global, name: &'a str, help: &'a str) -> Arg<'a>
    ensures rule { rule_of result ≡ named_flag name.entry.now }
    ensures local { result.global ≡ false }
    ensures texts { result.help ≡ Some help.entry }
{
    Arg::new(alloc, name)
        .long(name)
        .action(ArgAction::Set)
        .num_args(ValueRange::EMPTY)
        .default_missing_value("true")
        .help(help)
}

/// Returns a subcommand with a description and an example.
pub(crate) fn subcommand<'a>(
    alloc: Global,
    name: &'a str,
    about: &'a str,
    example: &'a str,
) -> Command<'a>
    ensures app { app_of result ≡ new_app name.entry.now }
    ensures local { (out-Command result).has_globals ≡ false }
    ensures texts { ((out-Command result).about ≡ Some about.entry) × ((out-Command result).after_help ≡ Some example.entry) }
{
    Command::new(alloc, name).about(about).after_help(example)
}

/// Returns the subcommand with another usage than the one that `clap` makes of its arguments.
pub(crate) fn with_usage<'a>(command: Command<'a>, usage: &'a str) -> Command<'a>
    ensures app { app_of result ≡ app_of command.entry }
    ensures local { (out-Command result).has_globals ≡ (out-Command command.entry).has_globals }
    ensures text { (out-Command result).usage_str ≡ Some usage.entry }
{
    command.override_usage(usage)
}

pub(crate) fn with_arg<'a>(command: Command<'a>, arg: Arg<'a>) -> Result<Command<'a>, AllocError>
    requires { arg.global ≡ false }
    ensures app { IfOk result (λ c. app_of c ≡ with_rule (app_of command.entry) (rule_of arg.entry)) }
    ensures local { IfOk result (λ c. (out-Command c).has_globals ≡ (out-Command command.entry).has_globals) }
{
    command.arg(arg)
}

/// Adds `--check`, by which nothing is changed.
pub(crate) fn with_check<'a>(
    alloc: Global,
    command: Command<'a>,
    help: &'a str,
) -> Result<Command<'a>, AllocError>
    ensures app { IfOk result (λ c. app_of c ≡ with_rule (app_of command.entry) (named_flag (codes "check"))) }
    ensures local { IfOk result (λ c. (out-Command c).has_globals ≡ (out-Command command.entry).has_globals) }
{
    with_arg(command, flag(alloc, "check", help))
}

/// Adds the option for the vendor, and the flag for a dry run.
pub(crate) fn with_vendor<'a>(
    alloc: Global,
    command: Command<'a>,
) -> Result<Command<'a>, AllocError>
    ensures app { IfOk result (λ c. app_of c ≡ with_rule (with_rule (app_of command.entry) (option (codes "vendor"))) (named_flag (codes "check"))) }
    ensures local { IfOk result (λ c. (out-Command c).has_globals ≡ (out-Command command.entry).has_globals) }
{
    let vendor = option(alloc, "vendor", "V", "The vendor, if not the founding one");
    let command = with_arg(command, vendor)?;
    with_check(
        alloc,
        command,
        "Only print the reply, and import nothing; fails if nothing would be imported",
    )
}

/// Adds the options for the caller, the key and the organisation.
pub(crate) fn with_sender<'a>(
    alloc: Global,
    command: Command<'a>,
) -> Result<Command<'a>, AllocError>
    ensures app { IfOk result (λ c. app_of c ≡ with_rule (with_rule (with_rule (app_of command.entry)
        (needed_option (codes "caller"))) (needed_option (codes "key"))) (needed_option (codes "org"))) }
    ensures local { IfOk result (λ c. (out-Command c).has_globals ≡ (out-Command command.entry).has_globals) }
{
    let caller = needed_option(alloc, "caller", "C", "Who asks");
    let key = needed_option(alloc, "key", "K", "A key that this caller uses once");
    let org = needed_option(alloc, "org", "O", "The organisation that gets the numbers");
    let command = with_arg(command, caller)?;
    let command = with_arg(command, key)?;
    with_arg(command, org)
}

/// Adds the options for the port and for the number of connections.
pub(crate) fn with_port<'a>(alloc: Global, command: Command<'a>) -> Result<Command<'a>, AllocError>
    ensures app { IfOk result (λ c. app_of c ≡ with_rule (with_rule (app_of command.entry)
        (numeric 1 65535 (needed_option (codes "port")))) (numeric 0 most_connections (option (codes "count")))) }
    ensures local { IfOk result (λ c. (out-Command c).has_globals ≡ (out-Command command.entry).has_globals) }
{
    let port = needed_option(alloc, "port", "P", "The port, from 1 to 65535");
    let command = with_arg(command, numeric(port, 1, MOST_PORT))?;
    let count = option(alloc, "count", "N", "Stop after N connections");
    with_arg(command, numeric(count, 0, MOST_CONNECTIONS))
}

/// Adds the option for a log.
pub(crate) fn with_log<'a>(alloc: Global, command: Command<'a>) -> Result<Command<'a>, AllocError>
    ensures app { IfOk result (λ c. app_of c ≡ with_rule (app_of command.entry) (option (codes "log"))) }
    ensures local { IfOk result (λ c. (out-Command c).has_globals ≡ (out-Command command.entry).has_globals) }
{
    let log = option(
        alloc,
        "log",
        "URL",
        "The log in etcd that several machines share",
    );
    with_arg(command, log)
}

/// Adds `--verbose`, which each subcommand has.
pub(crate) fn with_verbose<'a>(
    alloc: Global,
    command: Command<'a>,
) -> Result<Command<'a>, AllocError>
    ensures app { IfOk result (λ c. app_of c ≡ with_rule (app_of command.entry) (named_flag (codes "verbose"))) }
    ensures local { IfOk result (λ c. (out-Command c).has_globals ≡ (out-Command command.entry).has_globals) }
{
    let verbose = flag(
        alloc,
        "verbose",
        "Say the cause of a failure in one more line",
    );
    with_arg(command, verbose)
}

pub(crate) fn with_command<'a>(
    command: Command<'a>,
    sub: Command<'a>,
) -> Result<Command<'a>, AllocError>
    requires { (out-Command sub).has_globals ≡ false }
    ensures app { IfOk result (λ c. app_of c ≡ with_subcommand (app_of command.entry) (app_of sub.entry).top) }
{
    command.subcommand(sub)
}
