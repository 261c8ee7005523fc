//! The subcommands that act on requests, for `clap`.

ghost use Rattle.std.specs.Prelude.{◌≡◌, IfOk, false};
ghost use Rattle.clap.specs.Words.{app_of, with_subcommand};
ghost use Rattle.clap.specs.declared.builder.command.Command.TheViews.{out-Command};
ghost use Rattle.registry_arguments.specs.Commands.{apply_app, found_app, import_app, replay_app, share_app, trial_app};

use crate::parts::{
    needed_option, numeric, option, optional, positional, subcommand, with_arg, with_check,
    with_command, with_log, with_sender, with_usage, with_vendor, with_verbose,
};
use clap::Command;
use std::alloc::{AllocError, Global};

#[tactic(auto, unfolding(crate::specs::Commands::trial_app))]
fn trial<'a>(alloc: Global) -> Result<Command<'a>, AllocError>
    ensures app { IfOk result (λ c. app_of c ≡ trial_app) }
    ensures local { IfOk result (λ c. (out-Command c).has_globals ≡ false) }
{
    let command = subcommand(
        alloc,
        "trial",
        "Run request lines over a temporary registry in memory",
        "Request lines come from standard input, one JSON object per line; a reply line is printed \
         for each.\n\nExample:\n  usbreg trial < examples/first.jsonl",
    );
    with_verbose(alloc, command)
}

#[tactic(auto, unfolding(crate::specs::Commands::found_app))]
fn found<'a>(alloc: Global) -> Result<Command<'a>, AllocError>
    ensures app { IfOk result (λ c. app_of c ≡ found_app) }
    ensures local { IfOk result (λ c. (out-Command c).has_globals ≡ false) }
{
    let command = subcommand(
        alloc,
        "found",
        "Create a registry in a new file",
        "FOUNDING names the vendor, its name, the curators, the licences that are allowed and the \
         numbers that stay reserved. A number that is not among them may be given away, so run it with \
         --check first.\n\nExample:\n  usbreg found numbers.db examples/founding.toml --check\n  usbreg found \
         numbers.db examples/founding.toml",
    );
    let command = with_arg(
        command,
        positional(alloc, "store", "STORE", "The registry's file"),
    )?;
    let command = with_arg(
        command,
        positional(
            alloc,
            "founding",
            "FOUNDING",
            "A TOML file with the founding",
        ),
    )?;
    let command = with_check(
        alloc,
        command,
        "Only check FOUNDING and its keys; STORE is not used",
    )?;
    with_verbose(alloc, command)
}

#[tactic(auto, unfolding(crate::specs::Commands::apply_app))]
fn apply<'a>(alloc: Global) -> Result<Command<'a>, AllocError>
    ensures app { IfOk result (λ c. app_of c ≡ apply_app) }
    ensures local { IfOk result (λ c. (out-Command c).has_globals ≡ false) }
{
    let command = subcommand(
        alloc,
        "apply",
        "Run the request lines of a file over a registry",
        "After an interrupted run, count the reply lines that were printed and run the same file \
         again with that count: no request takes effect twice.\n\nExample:\n  usbreg found numbers.db \
         examples/founding.toml\n  usbreg apply numbers.db examples/first.jsonl\n  usbreg apply \
         numbers.db examples/first.jsonl --answered 3",
    );
    let command = with_arg(
        command,
        positional(alloc, "store", "STORE", "The registry's file"),
    )?;
    let command = with_arg(
        command,
        positional(alloc, "file", "FILE", "One JSON object per line"),
    )?;
    let answered = option(
        alloc,
        "answered",
        "N",
        "How many requests were answered before",
    );
    let command = with_arg(command, numeric(answered, 0, u64::MAX))?;
    let command = with_log(alloc, command)?;
    with_verbose(alloc, command)
}

#[tactic(auto, unfolding(crate::specs::Commands::import_app))]
fn import<'a>(alloc: Global) -> Result<Command<'a>, AllocError>
    ensures app { IfOk result (λ c. app_of c ≡ import_app) }
    ensures local { IfOk result (λ c. (out-Command c).has_globals ≡ false) }
{
    let command = subcommand(
        alloc,
        "import",
        "Import the devices of a list that are still free, for an organisation",
        "Example:\n  usbreg found numbers.db examples/founding.toml\n  usbreg apply numbers.db \
         examples/first.jsonl\n  usbreg import numbers.db examples/devices.ids --caller cora --key \
         first-list --org acme --check\n  usbreg import numbers.db examples/devices.ids --caller cora --key \
         first-list --org acme",
    );
    let command = with_arg(
        command,
        positional(alloc, "store", "STORE", "The registry's file"),
    )?;
    let command = with_arg(
        command,
        positional(alloc, "list", "LIST", "A list as in usb.ids"),
    )?;
    let command = with_sender(alloc, command)?;
    let command = with_vendor(alloc, command)?;
    let command = with_log(alloc, command)?;
    with_verbose(alloc, command)
}

#[tactic(auto, unfolding(crate::specs::Commands::replay_app))]
pub(crate) fn replay<'a>(alloc: Global) -> Result<Command<'a>, AllocError>
    ensures app { IfOk result (λ c. app_of c ≡ replay_app) }
    ensures local { IfOk result (λ c. (out-Command c).has_globals ≡ false) }
{
    let command = subcommand(
        alloc,
        "replay",
        "Run the lines of a record over a registry, and compare the replies",
        "If the record begins with a founding, STORE may be a new file. Run again over a record that \
         has grown, it goes on. With --log the record is the one in a log in etcd, \
         http://HOST:PORT/NAME.\n\nExample:\n  usbreg found numbers.db examples/founding.toml\n  usbreg \
         apply numbers.db examples/first.jsonl\n  usbreg history numbers.db > record.jsonl\n  usbreg \
         replay copy.db record.jsonl\n  usbreg replay other.db --log http://127.0.0.1:2379/numbers",
    );
    let command = with_usage(
        command,
        "usbreg replay [OPTIONS] <STORE> <RECORD>\n       usbreg replay [OPTIONS] --log <URL> <STORE>",
    );
    let command = with_arg(
        command,
        positional(alloc, "store", "STORE", "The registry's file"),
    )?;
    let record = optional(
        alloc,
        "record",
        "RECORD",
        "A record as history prints it; - for standard input",
    );
    let command = with_arg(command, record)?;
    let command = with_log(alloc, command)?;
    with_verbose(alloc, command)
}

#[tactic(auto, unfolding(crate::specs::Commands::share_app))]
fn share<'a>(alloc: Global) -> Result<Command<'a>, AllocError>
    ensures app { IfOk result (λ c. app_of c ≡ share_app) }
    ensures local { IfOk result (λ c. (out-Command c).has_globals ≡ false) }
{
    let command = subcommand(
        alloc,
        "share",
        "Put the record of a registry into a log in etcd, which several machines share",
        "URL is http://HOST:PORT/NAME, with the name of the log. Lines that are there already are \
         compared, so a run that was stopped can be made again. Then serve with the same --log on each \
         machine.\n\nExample:\n  usbreg share numbers.db --log http://127.0.0.1:2379/numbers",
    );
    let command = with_arg(
        command,
        positional(alloc, "store", "STORE", "The registry's file"),
    )?;
    let log = needed_option(alloc, "log", "URL", "The log in etcd");
    let command = with_arg(command, log)?;
    with_verbose(alloc, command)
}

/// Adds `trial`, `found`, `apply`, `import`, `replay` and `share`.
pub(crate) fn with_requests<'a>(
    alloc: Global,
    program: Command<'a>,
) -> Result<Command<'a>, AllocError>
    ensures { IfOk result (λ c. app_of c ≡ with_subcommand (with_subcommand (with_subcommand (with_subcommand (with_subcommand (with_subcommand
        (app_of program.entry) trial_app.top) found_app.top) apply_app.top) import_app.top) replay_app.top) share_app.top) }
{
    let program = with_command(program, trial(alloc)?)?;
    let program = with_command(program, found(alloc)?)?;
    let program = with_command(program, apply(alloc)?)?;
    let program = with_command(program, import(alloc)?)?;
    let program = with_command(program, replay(alloc)?)?;
    with_command(program, share(alloc)?)
}
