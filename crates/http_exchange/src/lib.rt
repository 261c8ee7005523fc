//! Sends one request in HTTP/1.1 over any connection that can be opened again, and reads its
//! answer.
//!
//! [`exchange`] sends the bytes of one request and reads its answer over a [`Connection`], which
//! can be opened again, closed, looked at, written to and read from. Its contract says which of
//! these calls the connection gets, in their order. One that is kept is looked at first, without
//! waiting; if it cannot be used, or none is kept, it is opened anew, with a limit of fifteen
//! seconds for the connecting and for each call from then on (`IsReady`). Then the request is
//! written whole, once (`IsSentWhole`), and bytes are read only while those before them await an
//! answer (`IsAwaited`) and are fewer than 32 MiB and 64 KiB (`HasRead`).
//!
//! They await one while they are the beginning of a head, of fewer than 16 KiB (`AwaitsHead`);
//! while some bytes can follow that make an answer of them (`MayAnswer`); and while the chunks of
//! the body are whole, and the fields behind these have begun, of fewer than 16 KiB
//! (`AwaitsFields`).
//!
//! An answer has a head of at most 16 KiB and 64 fields with a status of 200 or more, and a body
//! whose length is given or that comes in chunks, with at most 64 fields behind it (`IsAnswer`). It
//! is the one that the grammars of `httparse` and `http1` give the bytes that came, and
//! `says_one_thing` says that there is only one. The connection is kept only if HTTP/1.1 keeps it
//! open and no byte came behind the answer; otherwise, and after each fault, it is closed
//! (`IsExchange`, `ExchangeFails`).
//!
//! A request without an answer has one of these faults (`GetsNoAnswer`):
//!
//! - `Open`: the connection was not made;
//! - `Write`: a write failed or took no byte;
//! - `Read`: a read failed, where an answer was awaited;
//! - `Ended`: the connection ended where one was awaited;
//! - `BadMessage`: no bytes can follow that make an answer of them (`NeverAnswers`);
//! - `TooLong`: one is awaited, and they are at least 32 MiB and 64 KiB;
//! - `NoMemory`: memory ran out while they were read.
//!
//! So whatever the fault is, no byte of the request was written twice. No contract says that a
//! connection keeps its limits, nor which of its calls failed. A head that has begun may be read to
//! its end, or to 16 KiB, even where it can only become one that is refused, for its status, its
//! framing or the number of its fields; and so may the fields behind a body.
#![tactic(auto)]

mod connection;
mod exchanging;
mod fault;
pub mod laws;
mod reading;
mod sending;
mod start;

pub use connection::Connection;
pub use exchanging::exchange;
pub use fault::ExchangeFault;
pub use reading::Answer;
