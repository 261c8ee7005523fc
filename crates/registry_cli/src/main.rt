//! `usbreg`, a registry of shared USB product numbers: `main`, which passes the arguments and the
//! standard streams to `run_over`, and the machine that the program runs on.
//!
//! If the arguments cannot be read, the exit status is 2 if they are not UTF-8, and else 1
//! (`refuse`). The machine supposes nothing of a write that a crash cuts (`Machine::new`). It tells
//! a peer that gave up its connection before it was accepted from a failure of the port
//! (`is_of_peer`).
//!
//! No contract says what a real file, a port and a connection do: in the real machine each relation
//! of `Host`, `Connections`, `Arrival`, `Peer`, `ByteReader` and `ByteWriter` holds of every call,
//! and what a store holds is whatever the kit's `Start` yields. So we prove nothing of the
//! operating system, nor that `limited` opens a connection and `close` of `peer_streams` closes it,
//! nor that `main` passes the real streams and ends with the status of `run_over`.
#![tactic(auto)]

ghost use Rattle.std.specs.Prelude.{◌≡◌, ◌≢◌};
ghost use Rattle.std.specs.IoError.{error_kind};

mod blank;
mod cells;
mod connections;
mod database;
mod log_port;
mod look;
mod machine;
mod notes;

use byte_streams::{Inlet, Outlet};
use machine::Machine;
use notes::{Errors, Noted, Notes};
use registry_commands::ExitStatus;
use registry_program::{About, Heard, Terminals, run_over};
use sqlite::Wary;
use std::io;
use std::io::{ErrorKind, IsTerminal};
use std::process::ExitCode;

fn main(rt: HostRuntime) -> ExitCode {
    ExitCode::from(run(&rt).code())
}

/// Does what the arguments ask for on this machine, and returns the exit status.
fn run(rt: &HostRuntime) -> ExitStatus {
    let arguments = match arguments(rt) {
        Ok(arguments) => arguments,
        Err(error) => return refuse(rt, &error),
    };
    let terminals = Terminals {
        input: rt.stdin().is_terminal(),
        errors: rt.stderr().is_terminal(),
    };
    let notes = Notes::new(rt.alloc(), may_explain(arguments.as_slice(), terminals));
    run_over(
        rt.alloc(),
        &mut Machine::new(rt, &notes, Wary),
        arguments.as_slice(),
        terminals,
        &mut Inlet::new(Noted::new(rt.stdin(), About::Input, &notes)),
        &mut Outlet::new(Noted::new(rt.stdout(), About::Output, &notes)),
        &mut Heard::new(Outlet::new(Errors(rt.stderr()))),
    )
}

/// Returns whether the cause of a failure may be said, so that what is read of an input is kept.
fn may_explain(arguments: &[String], terminals: Terminals) -> bool {
    for argument in arguments {
        if argument.as_str() == "--verbose" || argument.as_str() == "--check" {
            return true;
        }
    }
    terminals.errors
}

fn arguments(rt: &HostRuntime) -> io::Result<Vec<String>> {
    Ok(std::env::args(rt)?.collect(rt.alloc())?)
}

/// Says why the arguments cannot be read, and returns the exit status.
fn refuse(rt: &HostRuntime, error: &io::Error) -> ExitStatus
    ensures rejected { error_kind error.now ≡ ErrorKind.InvalidData → result ≡ ExitStatus.Rejected }
    ensures failed { error_kind error.now ≢ ErrorKind.InvalidData → result ≡ ExitStatus.Failed }
{
    match error.kind() {
        ErrorKind::InvalidData => {
            let _ = rt.eprintln("error: invalid UTF-8 was detected in one or more arguments");
            ExitStatus::Rejected
        }
        _ => {
            let _ = rt.eprintln("fault: memory");
            ExitStatus::Failed
        }
    }
}
