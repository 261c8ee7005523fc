//! Tests of registries that follow one log: of two machines, over calls that are lost, late and
//! repeated, and of logs with another record.
#![tactic(auto)]

#[cfg(test)]
mod fates;
#[cfg(test)]
mod machines;
#[cfg(test)]
mod other;
#[cfg(test)]
mod texts;
