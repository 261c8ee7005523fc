//! What each kind of SQL statement does to a table with any columns, as changes of the values that
//! its rows store. Definitions and lemmas only, no code.
//!
//! These are the lemmas behind the statements of `registry_schema`, `registry_rows` and
//! `registry_old_rows`.
#![tactic(auto)]
