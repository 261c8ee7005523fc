//! Reads the command line of `usbreg` as a command.
//!
//! `usbreg` returns the definition that `clap` gets, with its version. `invocation_of` returns the
//! command that the arguments ask for, and whether they have the flag `--verbose`, if and only if
//! that definition accepts them, and a replay has a record or a log, and not both (`source_faults`):
//! if so, only memory can fail. A refusal names one of the faults of the arguments (`IsOfFaults`).
//! They are accepted if and only if they have no fault.
#![tactic(auto)]

mod command;
mod parts;
mod program;
mod reading;
mod requests;
mod sources;
mod views;

pub use command::{Command, Invocation, Usage, invocation_of};
