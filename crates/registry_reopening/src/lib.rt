//! What the next opening of a store finds: the headline and its uses, as contracts of calls that
//! act on requests, lines or messages, let the registry go, and open it again. No command calls
//! them: they are there so that a contract can say what a user meets.
//!
//! # After a run, and after a crash
//!
//! [`run_from`] runs `run_to` over a list and returns the replies (`EndsRun`). [`run_and_recover`]
//! is about every state of the files that a crash may leave (`MayLeave`): the registry that is
//! opened there represents the history after the answered requests or after one more
//! (`RepresentsPrefix`). [`run_through`] is about any number of crashes, one after another, and
//! [`run_in_memory`] says `ended` of disks in memory, without a premise. [`run_and_crash`] is one
//! run and one crash, and [`run_and_crash_twice`] chains two of them: the second run is over a
//! history that the first one and its crash left (`LeadsThrough`), with a registry that is not
//! poisoned, whatever the store holds. If one of the two opens no registry, the files that come
//! back hold what the last of its runs left (`LeavesFilesAfterRun`, `LeavesFilesAfterSecond`).
//! [`crash_and_run_through`] says `clean` and `ended` of a store of any schema, and gives back
//! nothing of a run that does not finish.
//!
//! A registry that is closed, abandoned or crashed opens again, if it opens, at the history that it
//! represented; if it is poisoned, at the history before the failed request or after it
//! ([`close_and_open`], [`leave_and_open`], [`crash_and_open`]). [`crash_and_open_store`] does the
//! same for a connection whose registry could not be opened, and `open_through` and
//! [`crash_until_open`] allow further crashes while the registry is being opened.
//!
//! # What is opened
//!
//! A registry that one of these calls opens in files is not poisoned and has noted no rows of no
//! history (`IsNew`). `open_on` passes on what `open` of `registry_store` says. `open_files`, and
//! the calls that crash, leave or close a registry and open it once, say so of a connection to the
//! files that they find: which tables it had, what was committed, and that the steps of a query are
//! not limited (`OpensIn`). Where no registry is opened, the files come back (`Unopened`). They
//! hold what they held, as they read now and after any crash; or the engine failed to open or to
//! close the store, and they are what it leaves then (`StillHolds`). If the disks of an opened
//! registry are clean, so were those of the one before it, so that runs can be chained (`clean`,
//! `ComesAfter`).
//!
//! # After lines and messages
//!
//! After any exit status of [`apply_and_open`] and [`apply_and_crash`] the next opening finds the
//! first requests: every one whose reply line is written, and at most one more
//! (`IsReopenedAfterLines`). After [`serve_and_open`] and [`serve_and_crash`] it finds a history
//! that a crash may leave after the connections that `serve_all` served (`IsReopenedAfterServing`).
#![tactic(auto)]

mod applying;
mod chaining;
mod crashing;
mod opening;
mod recovery;
mod resuming;
mod runs;
mod serving;

pub use applying::{apply_and_crash, apply_and_open};
pub use chaining::{run_and_crash, run_and_crash_twice};
pub use crashing::{
    close_and_open, crash_and_open, crash_and_open_store, crash_until_open, leave_and_open,
    open_through,
};
pub use opening::{Unopened, abandon, leave, open_files, open_on};
pub use recovery::{Abandoned, run_and_recover};
pub use resuming::{crash_and_run_through, run_in_memory, run_through};
pub use runs::{RunEnd, run_from};
pub use serving::{serve_and_crash, serve_and_open};
