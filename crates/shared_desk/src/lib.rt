//! Serves a registry over HTTP that follows a log which several machines share.
//!
//! `serve_shared` serves one connection after another, as `serve_all` of `registry_desk` does, but over
//! the whole log. Before it answers a query it acts on the lines that other machines have appended; at an
//! order it does as `act` of `shared_registry`.
//!
//! # One message
//!
//! The response is that of a history which was the whole log at some instant between the end of the
//! message before it and its own (`IsAnswerOver`). No clause says that this instant comes after the
//! message was read, since none orders the calls of a source and of a log: `serve_message` reads first.
//! When a message has ended, the log has each order that was answered, and the registry follows the log
//! with it. A message that is refused by itself is not asked of the log. No other line is appended than
//! that of an order which a connection brought, with its reply (`AppendsOrdersIn`).
//!
//! By the law [`is_no_older`] the history of an answer leads to that of each later one, whichever
//! machines gave the two.
//!
//! A message gets refusal 30 or 31 (`unavailable_for`) if the log gives no answer or memory runs out.
//! Then the registry still follows the log, and the server goes on (`may_pass`). The order may be in
//! the log, or come into it later; if it is sent again under its key, it gets its reply.
//!
//! # When the server ends
//!
//! `serve_shared` ends with the reason (`SharedStop`) if the registry has a fault, if the log has a
//! line with which the record does not go on, or fewer lines than it, if no more lines can be counted,
//! and if no connection can come. The last message then gets refusal 30 or 31 (`IsToldLast`). Whatever
//! the reason is, each history that a crash may leave begins the log (`IsUnserved`).
//!
//! # Texts
//!
//! The last list, reports and first founding are kept, as `serve_all` keeps them, until the registry
//! acts on a line.
//!
//! # Premises
//!
//! Those of `shared_registry`: the log keeps its lines (`KeepsLines`), and the registry follows it
//! (`Follows`).
#![tactic(auto)]

mod answering;
mod laws;
mod refusal;
mod serve;
mod server;

pub use laws::is_no_older;
pub use server::{SharedStop, serve_shared};
