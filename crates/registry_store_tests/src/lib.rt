//! Tests of a registry: over disks that stop at each call in turn, over stores of older schemas, and
//! its queries.
#![tactic(auto)]

#[cfg(test)]
mod lookups;
#[cfg(test)]
mod queries;
#[cfg(test)]
mod stopped;
#[cfg(test)]
mod stops;
#[cfg(test)]
mod whole;
#[cfg(test)]
mod witness;
