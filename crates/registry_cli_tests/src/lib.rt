//! The program's commands and its server where no command line reaches: readers and writers that
//! fail at each byte, and files in memory that are opened again. Each test runs over one registry
//! and compares texts; `scripts/` tries what a command line can do.
#![tactic(auto)]

#[cfg(test)]
mod ends;
#[cfg(test)]
mod lines;
#[cfg(test)]
mod messages;
#[cfg(test)]
mod peers;
#[cfg(test)]
mod plain;
#[cfg(test)]
mod registries;
#[cfg(test)]
mod reopened;
#[cfg(test)]
mod server;
#[cfg(test)]
mod texts;
