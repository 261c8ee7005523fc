//! The registry over a store: what it acknowledges is never lost, doubled or torn.
//!
//! Half of the headline is the contract of `run_to` and `open`, as `docs/definitions.md` words it;
//! the other half stands in `registry_reopening`.
//!
//! # Acting on requests
//!
//! `act` acts on one request. Its reply is the history's, and at every return a crash leaves the
//! tables before the request or after it. It makes one commit; no clause counts commits. A repeat
//! and a refused request commit nothing (`no_deed`), and neither does a run of such requests alone;
//! `apply` and `import` say the same (`IsRun`, `IsActedOn`). After a fault a registry that was not
//! poisoned is poisoned by that fault, which it keeps (`poisoned_by`, `KeepsFault`).
//!
//! `run_to` is the one loop of a run: it hands each reply over before it acts on the next request,
//! and `apply_lines` runs it over its output. Its clauses are about the requests after the answered
//! ones, of whatever history the registry represents, or with the first of them acted on already.
//!
//! `act_before` acts on one request before a witness, which sees an accepted new request with its
//! reply before they are committed. At every return a crash leaves the tables before the request,
//! or those after it, and then the witness saw it with this reply (`witnessed`); and a new request
//! is acknowledged only if it was seen (`acknowledged`). The witness is asked about new requests
//! alone, once, and with the reply that is given (`asked`). If it missed the request, it was asked
//! (`missed`), nothing is committed, and the registry still represents its history, not poisoned
//! (`untouched`). Else all is as `act` promises; that is `act_before` with a witness that lets each
//! request pass. A fault may also come after the witness saw the request; then it may have taken
//! effect or not, as after a fault of the store.
//!
//! # Founding, opening and closing
//!
//! `found` returns `Taken` if the database has a table `meta` and no transaction is open, and then
//! changes nothing. What it commits is all or nothing, also after a crash, and it commits only in a
//! database without tables (`survives`, `empty`). `open` also opens a store of an older schema. For
//! a connection that either gives back beside another fault, the contracts say what a crash leaves,
//! and not what it shows. Neither leaves a transaction open (`idle`), and neither does anything in
//! one that was open before (`busy`). A registry that `found` or `open` returns has noted nothing,
//! and is not poisoned (`IsNew`).
//!
//! Without an error `close_files` copied the log, if the disks returned what was written
//! (`copied`). An error is one that a failing close may have (`IsUncopied`). We prove neither that
//! closing failed nor that the error names the cause: it may say that memory ran out once the log
//! is copied, and a command then prints `fault: memory` after its whole output. No call changes how
//! many steps a query may take (`Endures`, and `Survives` of the kit).
//!
//! # Queries
//!
//! The queries return the history's values, and lists ascend. The registry notes whether a query,
//! or `act`, found the rows of no history, so a caller's contract can say that it does not hide
//! this fault (`NotesForeign`).
//!
//! `numbers`, `petitions`, `open_petitions`, `orgs`, `vendors`, `entry`, `org`, `petition`,
//! `reason` and `petition_times` read the tables; after each, also after a fault, the registry
//! still represents its history, and nothing is committed (`IsQuery`). `dry_run` returns the reply
//! that `act` would give, and is such a query: the key of its request stays unused.
//! `first_founding` returns the founding with its first licences and, if the orders of the history
//! are valid (`AreValid`), `accepted_after` a part of the record and `digest_after` the digest
//! after its first requests (`digest_at`). We prove nothing of an invalid order in the store; the
//! code makes it a fault of the store.
//!
//! `reserved`, `is_reserved` and `has_vendor` read the totals in memory, and make no call of the
//! store; nor does `head`, which returns the number of accepted requests, the digest of the record
//! and the time of the last request, if the requests of the history are valid (`IsHead`). All
//! grants and imports of a listed number name its owner (`one_owner`), and the four states of a
//! vendor's numbers add up to 65,535 (`four_states`).
#![tactic(auto)]

mod attempt;
mod dry_run;
pub mod fault;
mod history;
pub mod leaving;
mod queries;
pub mod registry;
pub mod replies;
pub mod run;
pub mod witness;

pub use fault::Fault;
pub use leaving::{Closed, close_files, leave_store};
pub use registry::Registry;
pub use replies::{Replies, RunStop};
pub use witness::{ActStop, Nobody, Witness};
