//! The examples of the docstrings, which have no tests of their own.
#![tactic(auto)]

#[cfg(test)]
mod examples;
