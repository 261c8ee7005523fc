//! Reads the list of USB numbers, `usb.ids`, in pieces, looks devices up in it, and writes it.
//!
//! Each text is the text of exactly one document (`IsTextOf`) or has exactly one first fault
//! (`FaultAt`), and never both. These are the laws [`one_or_the_other`], [`never_both`],
//! [`one_document`] and [`one_fault`]. [`read_all`] returns this document, or this fault with its
//! line (`ReadsAs`). A [`Reader`] does the same for bytes that come in pieces: `Reader::feed` and
//! `finish` give the document or the fault of all bytes, however they were cut (`WasFed`).
//!
//! [`write`] writes the one written text of a document (`written`); or the sink took a prefix of
//! it, and its last call failed (`FailsOnce`). That text is a text of this document and of no other
//! ([`written_is_text`]).
//!
//! [`find`] returns the first match of a number under a vendor (`find_mid`). A [`Scan`] finds the
//! same in bytes that it is fed, and builds no document: it returns the name of the first match in
//! the document of all bytes, or their first fault (`Seeks`, `LooksUpAs`). [`feed_all`] feeds a
//! `Reader` or a `Scan` all bytes of a source; or the last read failed, or the source has more than
//! 4,294,967,295 bytes.
#![tactic(auto)]

mod builder;
mod document;
mod fault;
mod gather;
mod head;
mod intake;
mod kind;
mod laws;
mod line;
mod look_up;
mod name;
mod pieces;
mod reader;
mod scan;
mod seen;
mod short;
mod stamp;
mod tag;
mod taken;
mod words;
mod writing;

pub use document::{Document, Leaf, Mid, Top};
pub use fault::{LineFault, ReadFault};
pub use intake::{Intake, feed_all};
pub use kind::Kind;
pub use laws::{never_both, one_document, one_fault, one_or_the_other, written_is_text};
pub use line::Why;
pub use look_up::find;
pub use name::Name;
pub use reader::{Reader, read_all};
pub use scan::Scan;
pub use stamp::Stamp;
pub use tag::Tag;
pub use writing::{WriteFault, write};
