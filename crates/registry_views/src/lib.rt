//! The list, the reports, the record and the lists of a registry. Reads it, and changes nothing.
//!
//! Each call is a query (`IsQuery`), and returns what the history has that the registry represents:
//!
//! - `document_of`: its list (`IsListing`);
//! - `report_of`: its report of a kind (`IsReport`);
//! - `record_page`: a page of its accepted requests with their replies, if these requests have
//!   valid fields (`IsRecordPage`): the longest beginning of their lines that fits on a page, or
//!   the first line alone if it is longer (`IsPage`);
//! - `lists_of`: its vendors, organisations, petitions and numbers (`AreLists`).
//!
//! Only tests show that they have the same fault for memory that runs out in the store and outside
//! of it.
#![tactic(auto)]

mod list;
mod lists;
mod record;
mod reports;

pub use list::document_of;
pub use lists::{Lists, lists_of};
pub use record::record_page;
pub use reports::report_of;
