//! Makes the list of a registry's numbers, and reports on them, from the lists that a registry
//! gives; names the kinds of reports.
//!
//! [`list_document`], [`holders`], [`open_petitions`] and [`organisations`] return exactly the
//! document or text that the definition gives for the lists passed to them (`list_of`, `IsHolders`,
//! `petition_lines`, `org_lines`). [`census`] and [`taken_numbers`] do so if the numbers ascend, as
//! those of a registry do (`Ascends`, `census_lines`, `number_lines`). [`report_named`] knows the
//! five reports by their names.
//!
//! For the lists of a history the document names each held number under its vendor with the title
//! of its card, and no other, ascending (`IsListing`, the law [`lists_the_history`]). A history has
//! one list ([`has_one_list`]).
//!
//! A [`Page`] takes a line if it is the first, or if the page then has at most 1,000 lines and at
//! most 1,048,576 bytes (`MayFollow`). It wants 1 to 4 lines next, or none if none may follow
//! (`wanted_lines`).
#![tactic(auto)]

pub use counting::census;
pub use kinds::{ReportKind, report_named};
pub use laws::{has_one_list, lists_the_history};
pub use list::list_document;
pub use orgs::organisations;
pub use owners::holders;
pub use page::Page;
pub use petitions::open_petitions;
pub use taken::taken_numbers;

mod columns;
mod counting;
mod kinds;
mod laws;
mod list;
mod orgs;
mod owners;
mod page;
mod petitions;
mod taken;
mod tallies;
