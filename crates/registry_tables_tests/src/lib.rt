//! Tests of the tables of a registry, over a store in memory and one of files: each call once with
//! ample memory, and the rows of spans. A case is a list of steps and the text that they give.
#![tactic(auto)]

#[cfg(test)]
mod foundings;
#[cfg(test)]
mod lists;
#[cfg(test)]
mod lookups;
#[cfg(test)]
mod migrations;
#[cfg(test)]
mod rows;
#[cfg(test)]
mod spans;
#[cfg(test)]
mod steps;
#[cfg(test)]
mod stores;
#[cfg(test)]
mod values;
