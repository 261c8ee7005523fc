//! Byte streams whose contents and failures a contract can name, and adapters that make them of
//! readers and writers, call by call.
//!
//! A [`Source`] gives bytes and a [`Sink`] takes them (`Takes`, `Puts`). Each counts the calls that
//! failed; at 2^64 - 1 the count stays, and says no more. [`put_all`] writes all bytes; or the sink
//! took a prefix of them, and one call failed (`Writes`, `FailsOnce`). Any call may fail, so none
//! follows that one.
//!
//! [`Inlet`] makes a source of a [`ByteReader`], and [`Outlet`] a sink of a [`ByteWriter`]. Each
//! makes one call of it for each of its own, with the same room or bytes, and gives what that call
//! gave, takes what it took, or fails as it did (`gives`, `takes`, `fails`). `&[u8]` is a
//! `ByteReader`, and `Vec<u8>` a `ByteWriter`.
#![tactic(auto)]

mod adapters;
mod calls;
mod memory;
mod streams;

pub use adapters::{Inlet, Outlet};
pub use calls::{ByteReader, ByteWriter};
pub use streams::{Broken, Sink, Source, put_all};
