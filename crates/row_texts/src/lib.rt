//! Rows of tests as lines of text: the bytes that a row has, and what is shown of a result.
#![tactic(auto)]

mod fault;
mod reading;
mod rows;
mod showing;

pub use fault::RowFault;
pub use reading::{bytes_of, cut, number_of};
pub use rows::{Kinds, show_rows};
pub use showing::{shown, text_of};
