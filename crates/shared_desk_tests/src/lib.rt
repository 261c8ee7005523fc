//! Tests of the server over a log that several machines share.
#![tactic(auto)]

#[cfg(test)]
mod machines;
#[cfg(test)]
mod meanwhile;
#[cfg(test)]
mod messages;
#[cfg(test)]
mod stops;
