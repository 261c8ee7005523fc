//! The stream of a connection to a peer: its time limits when it comes, and what is read of it
//! before it is closed, over any machine.
//!
//! An [`Arrival`] is the stream of a connection that has come. [`limited`] sets the limit of its
//! reads to ten seconds, then that of its writes, and only then makes the reader and the writer
//! that it returns (`IsLimited`). It fails only if one of these three calls does.
//!
//! A [`Peer`] is the stream of a connection whose response was written; it also has a clock.
//! [`close`] asks nothing of it if the peer failed. After a status other than 200 it ends the
//! response, and then reads what the peer still sends; after 200 it does so only if a byte is
//! there, which it looks for without waiting (`IsClosed`, `Looks`, `Drains`). Before each read it
//! looks at the clock, and lets the read wait for what is left of two seconds since its first look.
//! It stops only at the peer's end, at a call that fails, when no time is left, or after 16 MiB
//! (`IsAllowed`, `Stops`). It reads fewer bytes than 16 MiB and 16,384 (`Discards`).
//!
//! No contract says that a stream keeps its limits, or how long the calls take otherwise.
#![tactic(auto)]

mod arriving;
mod closing;
mod streams;

pub use arriving::limited;
pub use closing::close;
pub use streams::{Arrival, Peer};
