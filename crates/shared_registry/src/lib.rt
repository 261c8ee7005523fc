//! A registry whose record is a log of lines that several machines share.
//!
//! Line 0 of the log is the line of the founding, and line n that of the n-th accepted request. The
//! store of each machine holds a beginning of the log. A registry *follows* a log (`Follows`) if it
//! represents a history whose record begins the log, and its [`Cursor`] is behind that record.
//! Whatever the calls below return, each history that a crash may leave in the store is such a
//! history, and goes on from the one before the call (`IsLeft`). After a fault of the registry there may be
//! two such histories (`LeavesOfMachine`). So the laws of `registry_laws` hold
//! of any two machines that share the log: one has the history of the other or goes on from it, and
//! a number that has an owner on both has the same one.
//!
//! # Following the log
//!
//! [`follow`] acts on the lines that the registry has not acted on. After it the registry has the
//! history of the whole log, as it was at some instant of the call (`HasFollowed`, `WasWhole`). A
//! line is acted on only if the record goes on with exactly these bytes: its request is new, and the
//! line that is made of it and its reply now is the same. Nothing is committed for any other line,
//! and it is named (`OtherRecord`) only if the record goes on with it in no way (`HasOther`).
//!
//! # Acting on requests
//!
//! [`act`] acts on one request over the history that the registry has. A new one is appended to the
//! log between its rows and its commit: that the log takes its line shows that it had no other behind
//! the record (`HasActed`). Any other request is answered once a read shows that. If there are other
//! lines, `act` acts on them and begins again. So it does with a line that has the same bytes as the
//! one just offered: an earlier append that seemed to fail has taken effect, and the request is then a
//! repeat. The reply is that of the history of the whole log at some instant of the call, and the
//! registry then follows the log with the request in it (`IsAnsweredOverLog`). So no answer is older than one
//! that any machine gave before the call, and an acknowledged request is in the log.
//!
//! After a call without an answer (`Log`) nothing is committed, and the registry goes on. The log may
//! have the line, or take it later; a later call then acts on it, and a repeat of the request gets
//! its reply. A fault of the registry poisons it, as `act` of `registry_store` says.
//!
//! # Taking up a log
//!
//! [`join`] compares the record of a registry with the log, line by line, and [`share`] puts it into
//! the log. After both the registry follows the log. If not, they say which is the first line at which
//! the log has another record (`IsApart`), that it ends before the record does, or which call failed
//! (`IsUnshared`). Neither commits anything (`IsUntouched`).
//!
//! A store that is not there yet is made from the log: [`read_founding`] returns the founding with whose
//! line the log begins.
//!
//! # What is appended
//!
//! [`act`] appends no other line (`IsLogAsked`) than that of its request, if it is new: behind the record, and
//! with the reply that the request gets (`AppendsRequest`). [`share`] appends those of the record, each under
//! its number. [`follow`], [`join`] and [`read_founding`] append nothing.
//!
//! # Premises
//!
//! Each clause has the premise that the log keeps its lines (`KeepsLines` of `shared_log`) and, of a
//! record that is taken up, that its fields are valid (`HasValidFields`). From then on they are:
//! [`has_valid_fields`] says so of each request, by its types. A call may always run out of memory
//! (`NoMemory`); no contract says when.
#![tactic(auto)]

mod acting;
mod cursor;
mod expecting;
mod following;
mod founded;
mod joining;
mod line;
mod record;
mod stop;
mod valid;

pub use acting::act;
pub use cursor::{AppendFault, Cursor};
pub use following::follow;
pub use founded::read_founding;
pub use joining::{join, share};
pub use stop::ShareStop;
pub use valid::has_valid_fields;
