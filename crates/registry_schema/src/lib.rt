//! The tables of a registry's store: their texts, the schemas that these make, and how they are
//! made.
//!
//! It has each CREATE statement, as one that adds its table to those of a schema (`WritesTables`,
//! `Adds`, `AddsTo`). Nothing is committed before the commit (`CommitsNothing`), and the catalog
//! determines which tables a database has (`HasTables`).
#![tactic(auto)]

pub use create::create_tables;
pub use fault::{TableFault, fault_of};
pub use later::{add_fifth, add_fourth_and_fifth, add_second, add_third_to_fifth};
pub use version::{has_meta, is_empty, version_of};

mod create;
mod fault;
mod first;
mod later;
mod version;
