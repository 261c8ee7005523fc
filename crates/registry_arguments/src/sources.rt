//! What `clap` is not told of `replay`: it reads a record or a log, and not both.

ghost use Rattle.std.specs.Prelude.{◌≡◌, ◌∷◌, [], IfOk, IfErr, OnOk, option_copied};
ghost use Rattle.clap.specs.Words.{subcommand_rows_of};
ghost use Rattle.registry_arguments.specs.Commands.{IsOfFaults, replay_faults, source_faults};

use crate::command::{Usage, usage_of};
use crate::reading::value_of;
use crate::requests::replay;
use clap::ArgMatches;
use clap::error::ErrorKind;
use std::alloc::{AllocError, Global};

/// Returns a refusal with this text and the usage of `replay`.
fn refusal(alloc: Global, kind: ErrorKind, text: &str) -> Result<Usage, AllocError>
    ensures { IfOk result (IsOfFaults (kind ∷ [])) }
{
    let mut command = replay(alloc)?;
    Ok(usage_of(command.error(kind, text)?))
}

/// Refuses a replay without a record or a log, and one with both, in the words of `clap`.
fn check_sources(alloc: Global, path: Option<&str>, log: Option<&str>) -> Result<(), Usage>
    ensures ok { OnOk result (source_faults (option_copied path.entry) (option_copied log.entry) ≡ []) }
    ensures why { IfErr result (IsOfFaults (source_faults (option_copied path.entry) (option_copied log.entry))) }
{
    match (path, log) {
        (None, None) => Err(refusal(
            alloc,
            ErrorKind::MissingRequiredArgument,
            "the following required arguments were not provided:\n  <RECORD|--log <URL>>",
        )?),
        (Some(_), Some(_)) => Err(refusal(
            alloc,
            ErrorKind::ArgumentConflict,
            "the argument '[RECORD]' cannot be used with '--log <URL>'",
        )?),
        _ => Ok(()),
    }
}

/// The same for the subcommand of these matches, if it is `replay`.
pub(crate) fn check_replay(alloc: Global, matches: &ArgMatches<'_>) -> Result<(), Usage>
    ensures ok { OnOk result (replay_faults (subcommand_rows_of matches.now) ≡ []) }
    ensures why { IfErr result (IsOfFaults (replay_faults (subcommand_rows_of matches.now))) }
{
    match matches.subcommand_matches("replay") {
        Some(inner) => check_sources(alloc, value_of(inner, "record"), value_of(inner, "log")),
        None => Ok(()),
    }
}
