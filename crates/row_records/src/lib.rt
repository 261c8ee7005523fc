//! Rows of tests that name records, requests and refusals of a registry.
#![tactic(auto)]

mod lists;
mod records;
mod refusals;
mod requests;
mod values;

pub use lists::{numbers, orgs, petitions, reserved, vendors};
pub use records::{card, entry, org, petition, terms};
pub use refusals::{done, refusal_of};
pub use requests::{canonical, founding_of, request_of};
pub use values::{field, is_held, link, maybe_pid, maybe_vid, number, pid, slug, span, title, vid};
