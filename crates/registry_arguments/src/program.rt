//! The definition of the program's command line for `clap`.

ghost use Rattle.std.specs.Prelude.{◌≡◌, IfOk, Some, codes, option_copied};
ghost use Rattle.clap.specs.Words.{app_of, new_app};
ghost use Rattle.clap.specs.declared.builder.command.Command.TheViews.{out-Command};
ghost use Rattle.registry_arguments.specs.Commands.{usbreg_app, versioned};

use crate::requests::with_requests;
use crate::views::with_views;
use clap::Command;
use std::alloc::{AllocError, Global};

/// Returns the program without its version and its subcommands.
fn bare<'a>(alloc: Global) -> Command<'a>
    ensures { app_of result ≡ new_app (codes "usbreg") }
{
    Command::new(alloc, "usbreg")
        .about("A registry of shared USB product numbers that never loses or duplicates a grant")
        .after_help(
            "Without a command, `usbreg` runs `trial`. `found`, `apply`, `import`, `replay` and `serve` \
             change a registry. `export`, `report`, `history`, `head` and `check` only read one, but they need to \
             write its files too: they bring the store of an older version to the newest first. With `--check`, `found` \
             and `import` change no registry, and say what they would do.\n\nExit status: 0 on \
             success; 1 after a fault of the store, of memory, of a file or of a socket; 2 if arguments, an \
             input, a line of a record or an import are refused, or if no device is found.",
        )
}

/// Adds the version, with the logic of the kit that proves it. `package/release.sh` puts the commit in
/// the place of `checkout`. This comes last, as the contracts of `clap`'s other calls do not say that
/// they keep it.
fn with_version<'a>(program: Command<'a>) -> Command<'a>
    ensures app { app_of result ≡ versioned (app_of program.entry) }
    ensures version { option_copied (out-Command result).version ≡ Some (codes "0.1.0 (checkout, rattle logic dac8208d650f15bf)") }
{
    program.version("0.1.0 (checkout, rattle logic dac8208d650f15bf)")
}

/// Returns `usbreg` with all its subcommands.
#[tactic(auto, unfolding(crate::specs::Commands::bare_app))]
pub fn usbreg<'a>(alloc: Global) -> Result<Command<'a>, AllocError>
    ensures app { IfOk result (λ c. app_of c ≡ usbreg_app) }
    ensures version { IfOk result (λ c. option_copied (out-Command c).version ≡ Some (codes "0.1.0 (checkout, rattle logic dac8208d650f15bf)")) }
{
    let program = with_requests(alloc, bare(alloc))?;
    let program = with_views(alloc, program)?;
    Ok(with_version(program))
}
