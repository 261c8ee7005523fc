//! The subcommands that serve a registry or show it, and the one that looks into a list, for `clap`.

ghost use Rattle.std.specs.Prelude.{◌≡◌, IfOk, false};
ghost use Rattle.clap.specs.Words.{app_of, with_subcommand};
ghost use Rattle.clap.specs.declared.builder.command.Command.TheViews.{out-Command};
ghost use Rattle.registry_arguments.specs.Commands.{check_app, export_app, head_app, history_app, lookup_app, report_app, serve_app};

use crate::parts::{
    MOST_PASSED, numeric, option, positional, subcommand, with_arg, with_command, with_log,
    with_port, with_verbose,
};
use clap::Command;
use std::alloc::{AllocError, Global};

#[tactic(auto, unfolding(crate::specs::Commands::serve_app))]
fn serve<'a>(alloc: Global) -> Result<Command<'a>, AllocError>
    ensures app { IfOk result (λ c. app_of c ≡ serve_app) }
    ensures local { IfOk result (λ c. (out-Command c).has_globals ≡ false) }
{
    let command = subcommand(
        alloc,
        "serve",
        "Serve a registry over HTTP on 127.0.0.1, one connection after another",
        "Example:\n  usbreg found numbers.db examples/founding.toml\n  usbreg serve numbers.db --port 8080",
    );
    let command = with_arg(
        command,
        positional(alloc, "store", "STORE", "The registry's file"),
    )?;
    let command = with_port(alloc, command)?;
    let command = with_log(alloc, command)?;
    with_verbose(alloc, command)
}

#[tactic(auto, unfolding(crate::specs::Commands::export_app))]
fn export<'a>(alloc: Global) -> Result<Command<'a>, AllocError>
    ensures app { IfOk result (λ c. app_of c ≡ export_app) }
    ensures local { IfOk result (λ c. (out-Command c).has_globals ≡ false) }
{
    let command = subcommand(
        alloc,
        "export",
        "Print the held numbers as a list in the syntax of usb.ids",
        "Example:\n  usbreg found numbers.db examples/founding.toml\n  usbreg export numbers.db \
         --stamp '2024-01-30 20:34:13' > usb.ids",
    );
    let command = with_arg(
        command,
        positional(alloc, "store", "STORE", "The registry's file"),
    )?;
    let stamp = option(alloc, "stamp", "TEXT", "When the list was made");
    let command = with_arg(command, stamp)?;
    with_verbose(alloc, command)
}

#[tactic(auto, unfolding(crate::specs::Commands::report_app))]
fn report<'a>(alloc: Global) -> Result<Command<'a>, AllocError>
    ensures app { IfOk result (λ c. app_of c ≡ report_app) }
    ensures local { IfOk result (λ c. (out-Command c).has_globals ≡ false) }
{
    let command = subcommand(
        alloc,
        "report",
        "Print what is free and held, who holds it, the open petitions, all numbers or organisations",
        "Example:\n  usbreg found numbers.db examples/founding.toml\n  usbreg report numbers.db census",
    );
    let command = with_arg(
        command,
        positional(alloc, "store", "STORE", "The registry's file"),
    )?;
    let name = positional(
        alloc,
        "name",
        "NAME",
        "census, holders, petitions, numbers or organisations",
    );
    let command = with_arg(command, name)?;
    with_verbose(alloc, command)
}

#[tactic(auto, unfolding(crate::specs::Commands::history_app))]
fn history<'a>(alloc: Global) -> Result<Command<'a>, AllocError>
    ensures app { IfOk result (λ c. app_of c ≡ history_app) }
    ensures local { IfOk result (λ c. (out-Command c).has_globals ≡ false) }
{
    let command = subcommand(
        alloc,
        "history",
        "Print the record: the founding and the accepted requests with their replies",
        "One JSON object per line, in the order in which the requests were accepted.\n\nExample:\n  usbreg \
         found numbers.db examples/founding.toml\n  usbreg apply numbers.db examples/first.jsonl\n  \
         usbreg history numbers.db > record.jsonl\n  usbreg history numbers.db --after 2",
    );
    let command = with_arg(
        command,
        positional(alloc, "store", "STORE", "The registry's file"),
    )?;
    let after = option(
        alloc,
        "after",
        "N",
        "Print only the requests after the first N",
    );
    let command = with_arg(command, numeric(after, 0, MOST_PASSED))?;
    with_verbose(alloc, command)
}

#[tactic(auto, unfolding(crate::specs::Commands::head_app))]
fn head<'a>(alloc: Global) -> Result<Command<'a>, AllocError>
    ensures app { IfOk result (λ c. app_of c ≡ head_app) }
    ensures local { IfOk result (λ c. (out-Command c).has_globals ≡ false) }
{
    let command = subcommand(
        alloc,
        "head",
        "Print where the record ends: how many requests it has, and their digest",
        "One JSON object, with the time of the last request if it has one. Two records with the same head have \
         the same lines.\n\nExample:\n  usbreg found numbers.db examples/founding.toml\n  usbreg head \
         numbers.db",
    );
    let command = with_arg(
        command,
        positional(alloc, "store", "STORE", "The registry's file"),
    )?;
    with_verbose(alloc, command)
}

#[tactic(auto, unfolding(crate::specs::Commands::check_app))]
fn check<'a>(alloc: Global) -> Result<Command<'a>, AllocError>
    ensures app { IfOk result (λ c. app_of c ≡ check_app) }
    ensures local { IfOk result (λ c. (out-Command c).has_globals ≡ false) }
{
    let command = subcommand(
        alloc,
        "check",
        "Compare the rows of a registry with those that its record makes",
        "It runs the record over a registry in memory, and names the first reply or row that is \
         another.\n\nExample:\n  usbreg found numbers.db examples/founding.toml\n  usbreg apply numbers.db \
         examples/first.jsonl\n  usbreg check numbers.db",
    );
    let command = with_arg(
        command,
        positional(alloc, "store", "STORE", "The registry's file"),
    )?;
    with_verbose(alloc, command)
}

#[tactic(auto, unfolding(crate::specs::Commands::lookup_app))]
fn lookup<'a>(alloc: Global) -> Result<Command<'a>, AllocError>
    ensures app { IfOk result (λ c. app_of c ≡ lookup_app) }
    ensures local { IfOk result (λ c. (out-Command c).has_globals ≡ false) }
{
    let command = subcommand(
        alloc,
        "lookup",
        "Print the name of a device in a list",
        "Example:\n  usbreg lookup examples/devices.ids 1209 0011",
    );
    let command = with_arg(
        command,
        positional(alloc, "list", "LIST", "A list as in usb.ids"),
    )?;
    let command = with_arg(
        command,
        positional(alloc, "vid", "VID", "Four hexadecimal digits"),
    )?;
    let command = with_arg(
        command,
        positional(alloc, "pid", "PID", "Four hexadecimal digits"),
    )?;
    with_verbose(alloc, command)
}

/// Adds `serve`, `export`, `report`, `history`, `head`, `check` and `lookup`.
pub(crate) fn with_views<'a>(alloc: Global, program: Command<'a>) -> Result<Command<'a>, AllocError>
    ensures { IfOk result (λ c. app_of c ≡ with_subcommand (with_subcommand (with_subcommand (with_subcommand (with_subcommand (with_subcommand (with_subcommand
        (app_of program.entry) serve_app.top) export_app.top) report_app.top) history_app.top) head_app.top) check_app.top) lookup_app.top) }
{
    let program = with_command(program, serve(alloc)?)?;
    let program = with_command(program, export(alloc)?)?;
    let program = with_command(program, report(alloc)?)?;
    let program = with_command(program, history(alloc)?)?;
    let program = with_command(program, head(alloc)?)?;
    let program = with_command(program, check(alloc)?)?;
    with_command(program, lookup(alloc)?)
}
