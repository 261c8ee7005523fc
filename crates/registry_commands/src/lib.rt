//! The commands of `usbreg`, over any store and any streams. Each writes to an output and an error
//! output, and returns the exit status.
//!
//! # Requests and imports
//!
//! The contract of [`apply_lines`] gives the exit status, what the output and the error output
//! gained, and which history the registry then represents, for every input, at a failure and at a
//! crash (`IsApplied`). It also says which failures may be printed when. That of [`trial`] says
//! what a trial writes, also if it fails (`IsTrialOf`).
//!
//! [`import_of_arguments`] returns the import that the arguments ask for, or the first invalid one
//! (`AsksFor`, `AreOfImport`, `IsFirstBad`). [`import_list`] acts on the one request of the list in
//! the input. Its contract gives the exit status and what the output and the error output gained at
//! each failure; a crash then leaves the history before the request or after it (`IsImported`).
//!
//! [`try_list`] reads a list as `import_list` does, and writes the reply that its request would get
//! (`IsImportTried`, `IsDryRunOf`). The registry still represents its history, and nothing is
//! committed (`IsUntouched`). The status is 0 only if the reply is no refusal and does not say
//! `imported fresh 0`, and 2 in these two cases (`dry_status_of`, `IsForetold`).
//!
//! # Foundings
//!
//! [`read_founding`] returns the founding that a founding file lists, or prints why there is none
//! (`ReadsFounding`). [`found_registry`] founds it, and never replaces a registry (`IsTriedOn`).
//! Neither `found_registry` nor `replay_on` leaves a transaction open, and neither does anything in
//! one that was open before.
//!
//! [`check_founding`] says of a founding file what `read_founding` says of a bad one, or has a line
//! for each key that no founding has (`key_lines`), and its status is 0 only if there is none
//! (`SaysKeys`, `IsFoundingChecked`).
//!
//! # What a registry shows
//!
//! [`export`] writes the list of the history that the registry represents (`IsExported`), and
//! [`report`] writes the report with a name on that history (`IsReported`); neither changes
//! anything. Over a poisoned registry both write nothing and say that it is poisoned. [`look_up`]
//! writes the name of the first match in the list that the input is the text of (`IsLookedUp`).
//!
//! [`history`] writes the record of the history that the registry represents, if its requests are
//! valid: the founding's line and a line for each accepted request, or those after the first n; at
//! a failure a prefix of them (`IsRecordWritten`). It changes nothing. At status 0 no call found the
//! rows of no history, if none had before (`HidesNoForeign`), whatever the store holds.
//!
//! [`head`] writes the line with the head of the history that the registry represents, if its
//! requests are valid: the body of the response to `GET /head` (`IsHeadShown`, `head_line_of`). It
//! makes no store call. Over a poisoned registry it writes nothing and says that it is poisoned.
//!
//! [`check`] acts on the record of the registry over one in memory, and compares the replies, the
//! rows and the last digest, but no reason or time of a petition and no digest before the last
//! (`IsCompared`). Over a registry that represents a history with valid requests, and a clean disk,
//! the line that it writes has the counts of that history (`IsCountOf`, `sound_text`), and it says
//! of none of these that a reply or a row is another (`StopsCheck`). It changes nothing, and a
//! poisoned registry is not read. What it says of a store that holds no history is only tested: no
//! clause refuses a body that reads nothing there, and calls it sound, with the counts of any
//! history. Nor does one say which difference is named, or that the rows are compared in order.
//!
//! # Replaying a record
//!
//! `take_founding` passes the founding in the first line that is not blank (`Begins`). No read is
//! made once that line is there: a read that fails is told, and then only blank lines and a part of
//! a line were read (`kept`, `waits`).
//!
//! `follow_lines` acts on the accepted requests of a record, line by line. Its contract says which
//! lines were acted on, that each got the reply that its line says, which history the registry then
//! represents, and what ended it (`IsReplayOf`):
//!
//! - the end;
//! - a line that is refused;
//! - a request that got another reply, which has taken effect if it was accepted;
//! - a request whose line has another digest than the history with it (`IsAnother`), which has
//!   taken effect;
//! - a failure, after which a crash leaves the history after these lines or after one more.
//!
//! The digest in each line that was followed is that of the history with its request, unless the
//! request was accepted before, or a request is invalid (`AreContinued`). If a read fails, all
//! whole lines that were read were acted on, and what was read after them is a part of a line
//! (`HasFollowedLines`); and no read failed if anything else ended it. `replay` says the same
//! (`ReadsLineByLine`), and prints what ended it, after it compared the founding with that of the
//! registry (`IsReplayed`, `IsChecked`). Unless that is `Foreign`, no call found the rows of no
//! history, if none had before, whatever the store holds (`notes`). Over a poisoned registry no
//! accepted request is passed, nothing is acted on (`ActsOnNone`), and a replay with a founding
//! says `fault: spent`.
//!
//! `replay_on` founds the registry on the connection if there is none, in a database without
//! tables, and never replaces one (`IsFoundOrOpen`). If it can neither found nor open one, it
//! prints that the store or memory failed or that it holds no registry, and never `fault: file`.
//! Then a crash of the connection that it returns leaves a history that the connection showed; no
//! contract says what that one shows itself. In a database that has tables nothing is committed
//! unless these have the names of an older schema (`IsLeftFound`).
//!
//! # Closing, and what is printed
//!
//! [`close_store`] returns the two files. Unless closing failed they hold what the store held, in
//! its schema or a later one, now and after any crash (`HoldEither`).
//!
//! A failure is printed as a whole line, or one write to the error output failed (`Prints`). If a
//! read of its input fails, a command prints `fault: file` and its exit status is 1
//! (`TellsFailedReads`; `replay` by `ReadsLineByLine`). If a write to its output fails, the status
//! is 1 too (`Receives`, and `kept` of `apply` and `history`). Except by `replay`, an input longer
//! than 4,294,967,295 bytes is not acted on (`IsTooLong`).
//!
//! `apply` and `import` print the fault that poisoned the registry, and `fault: memory` also for a
//! reply line that memory does not suffice for (`IsOfRun`). They write nothing of such a line:
//! before any failure but `fault: file`, `apply` and `trial` write whole reply lines alone
//! (`IsOfReplies`), and `import` writes nothing (`IsFailed`).
//!
//! `fault: file` is printed only if the last read of the input or the last write to the output
//! failed (`FailsOnce`), or the input is too long, in bytes or, of `replay`, in lines. Once an
//! output began these calls print nothing else for a list, a report or a name (`IsOfInput`,
//! `IsOfOutput`, `IsPrinted`). `found` prints `fault: taken` only if the database has a table
//! `meta` (`IsOfFounding`), and a failed close, also after a whole list or report, is printed as
//! the error of the store (`IsOfClosing`).
#![tactic(auto)]

mod apply;
mod arguments;
mod checking;
mod closing;
mod comparing;
mod dry_import;
mod entries;
mod exporting;
mod following;
mod found;
mod founding_check;
mod heading;
mod importing;
mod input;
mod lines;
mod looking;
mod messages;
mod printing;
mod record_lines;
mod recording;
mod replaying;
mod replies;
mod reporting;
mod status;
mod stops;
mod trials;
mod unread;

pub use apply::{apply_lines, reject_line};
pub use arguments::{BadArgument, reject_argument};
pub use checking::{CheckStop, Counts, check};
pub use closing::close_store;
pub use comparing::Difference;
pub use dry_import::try_list;
pub use entries::{Entry, LineRefusal};
pub use exporting::export;
pub use following::{ReplayStop, follow_lines};
pub use found::{found_registry, read_founding};
pub use founding_check::{check_founding, is_known_key};
pub use heading::head;
pub use importing::{Import, exit_status_of, import_list, import_of_arguments};
pub use input::{ReadAllFault, read_all};
pub use lines::{BadLine, requests_in};
pub use looking::{look_up, put_fault};
pub use messages::{
    Failure, fail, failure_of, input_failure, put_reply, shown_bytes, store_failure, tell,
    tell_bytes,
};
pub use record_lines::Found;
pub use recording::history;
pub use replaying::{found_or_open, replay, replay_on, take_founding};
pub use reporting::report;
pub use status::ExitStatus;
pub use stops::tell_stop;
pub use trials::{trial, trial_founding};
pub use unread::Unread;
