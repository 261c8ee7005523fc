//! Tests of what the next opening finds: a registry that is closed and opened in each way, runs that
//! go on through stops, and a registry that runs out of memory.
#![tactic(auto)]

#[cfg(test)]
mod memory;
#[cfg(test)]
mod recovery;
#[cfg(test)]
mod ways;
