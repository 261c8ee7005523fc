//! The commands that act on requests, over a log which several machines share.
//!
//! [`apply_shared`] acts on request lines, and [`import_shared`] on the request of a list, as
//! `apply_lines` and `import_list` of `registry_commands` do, but over a registry that follows a log.
//!
//! # Requests
//!
//! Each request is answered as `act` of `shared_registry` answers it: its reply is that of a history
//! which was the whole log at some instant of its call (`IsAnsweredBy`), and the log has the record of
//! the history after it. Its line is written before the next request is acted on (`AreAnswered`,
//! `HasAnsweredAll`). No other line is appended to the log than that of the request whose turn it is, with its
//! reply (`AppendsRequest`).
//!
//! # What stops a command
//!
//! A command that the registry or the log stops returns why (`ShareStop`), and has printed nothing of
//! it. `HasAnsweredSome` says which requests were answered before, and that each history that a crash
//! may leave begins the log. An output that fails, or a lack of memory for a reply line, is printed, and
//! its request was answered (`IsCutOverLog`): sent again under its key it gets the same reply.
//!
//! An input that is not a list of requests, or no list, is told as `apply_lines` and `import_list` tell
//! it. Then nothing was acted on, and no call of the log was made.
//!
//! # Premises
//!
//! Those of `shared_registry`: the log keeps its lines (`KeepsLines`), and the registry follows it
//! (`Follows`).
#![tactic(auto)]

mod answering;
mod applying;
mod importing;

pub use applying::apply_shared;
pub use importing::import_shared;
