//! For tests: disks that stop at a call, and visits of the registry in them. A visit enters the
//! registry, acts on requests and leaves the files; what it sees is plain data.
#![tactic(auto)]

pub mod images;
pub mod listing;
pub mod older;
pub mod starts;
pub mod steps;
pub mod values;
pub mod visits;
