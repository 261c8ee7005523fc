//! The rows of a registry's store as values, and each SQL statement as a change of them. (Those
//! that make a table are in `registry_schema`, and those that move rows of an older schema in
//! `registry_old_rows`.)
//!
//! `first_from` and [`all_from`] read the rows that a SELECT shows. Whatever these are, one that
//! stores no valid value is neither skipped nor taken for absent: the first row gives its value or
//! a fault (`DecodesFirst`), and a list has one value for each row, or is a fault (`DecodesAll`).
//! The contracts of the calls above these two speak of typed rows alone. Nothing is committed
//! before the commit (`CommitsNothing`).
#![tactic(auto)]

pub use columns::pid_at;
pub use decode::{FromRow, all_from};
pub use digests::{DigestRow, digests_after, find_digest, last_digest, put_digest};
pub use entries::{find_entries, find_entry, list_entries, put_entry, set_card, set_held};
pub use fixed::{list_fixed, put_fixed};
pub use kept::{KeptRow, find_kept, kept_after, kept_with_replies, put_kept};
pub use meta::{Meta, list_metas, put_meta};
pub use names::{list_curators, list_licences, put_curator, put_licence};
pub use orgs::{find_org, list_orgs, put_org};
pub use petitions::{
    find_petition, find_petitions, list_open_petitions, list_petitions, put_petition,
};
pub use reasons::{find_reason, put_reason};
pub use spans::{cut_spans, find_spans, list_spans, put_span};
pub use times::{find_closed, find_opened, put_closed, put_opened};
pub use vendors::{list_vendors, put_vendor};

mod columns;
mod decode;
mod digests;
mod entries;
mod fixed;
mod inserting;
mod kept;
mod meta;
mod names;
mod orgs;
mod petitions;
mod reasons;
mod spans;
mod times;
mod vendors;
