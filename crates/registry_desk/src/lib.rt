//! Serves a registry over HTTP. `serve_one` reads one message from a source, acts on it and writes
//! the response to a sink; `serve_all` does so for one connection after another.
//!
//! # One message
//!
//! What `serve_one` writes is the response to all bytes that the reader would give, over the
//! history, and the registry then represents the history after the message (`IsAnswered`). Or it
//! writes refusal 30 or 31 (`IsGivenUp`): memory ran out, and the registry represents the history
//! before or after the message; or the registry had a fault. An order, also one that the rules
//! refuse, gets such a fault only from the registry that acted on it, which is then poisoned by
//! that fault, and a crash leaves the history before the order or after it (`IsLeftUnavailable`). A
//! query gets one only as refusal 30: memory that runs out for it is no fault of the registry
//! (`IsFaultFor`, `IsOfQuery`). If the reader failed, it failed before the message was complete,
//! nothing was written and nothing acted on. If the writer failed, a prefix was written.
//!
//! # One connection after another
//!
//! `serve_all` promises the same of each message, over the history after those before it that were
//! acted on (`Turns`). It reads no further than `read_message` does (`IsRead`). A crash at any
//! instant leaves the history after the messages of all connections that were acted on, or of all
//! but the last if the registry had a fault there (`IsLeftAfter`). The law `leaves_answered` draws
//! from this that it holds each message whose response was written whole with a status other than
//! 503. By the law `has_one_response` a history has one response to what a message says; to a query
//! for a petition, a page or the head of the record it does if the requests of the history have
//! valid fields (`IsDetermined`). The registry that `serve_and_crash` or `serve_and_open` of
//! `registry_reopening` opens next represents such a history (`IsReopenedAfterServing`).
//!
//! `serve_all` keeps the last list, the last report of each kind and the first line of the record,
//! and writes it again. A fault or a lack of memory drops all, an accepted order all but that line,
//! and a refused order nothing (`after_order`, `cache_after`). Each text that is kept is the
//! response to its query over the history (`AreTextsOf`), so the clauses above hold of it too. We
//! do not prove that a text is kept (`docs/contracts.md`). `serve_one` and `serve_next` keep none.
//!
//! # Queries alone
//!
//! [`answer_query`] returns the response to a query, for a server that follows a log before it
//! answers. Its contract is that of a query above: `answered` says whose response it is, and `kind`
//! which faults may come. [`Cache`] keeps the texts.
//!
//! # Rows of no history, and a poisoned registry
//!
//! Two promises hold whatever the store holds. If `act` or a query finds the rows of no history
//! (`Foreign`), and no call found them before, the message gets refusal 30 with status 503, and
//! `serve_all` ends with that fault (`notes`, `told`). No order gets 200 or a refusal by the rules
//! then, and no query a response of its own. After a result without a fault of the registry one
//! that was not poisoned is not poisoned (`goes_on`).
//!
//! A poisoned registry is not changed. An order or a query gets refusal 30, or refusal 31 if memory
//! runs out before it is read, and either ends `serve_all` (`IsTurnedAway`). A message that is
//! refused by itself gets its refusal, or 31 in its place, which ends `serve_all` too if memory ran
//! out before the message was read.
#![tactic(auto)]

mod acting;
mod cache;
mod fault;
mod laws;
mod queries;
mod serve;
mod server;

pub use acting::answer_query;
pub use cache::Cache;
pub use fault::{DeskFault, unavailable_of};
pub use laws::{has_one_response, leaves_answered};
pub use serve::{Served, serve_one};
pub use server::{Connections, ServerStop, serve_all, serve_next};
