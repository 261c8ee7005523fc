//! The program over any machine: from its arguments to what its files hold and its outputs gain.
//!
//! # From the arguments
//!
//! `run_over` is the program, over any machine with files and ports (`Host`) and any standard
//! streams. If the arguments are a command, by the definition for `clap`, it does what `perform`
//! says of that command, to the exit status; before a trial that reads a terminal the error output
//! gets one line, if causes are said (`IsObeyed`, `IsPrompted`). If they are no command, the
//! machine and the input stay as they are. The help and the version go to the output, at status 0,
//! and the text of any other error to the error output, at status 2; if the output fails, or memory
//! runs out, the error output says so, at status 1 (`IsRunBy`, `IsUsage`). Only tests show what
//! these texts say, and that there is one. After the word `help` the kit's definition finds two
//! faults, the help and an unknown subcommand, and does not say which comes: so only tests show,
//! too, whether `usbreg help`, with a command behind it or alone, ends with status 0 or 2.
//!
//! # What a command does
//!
//! `perform` does what a command asks for. Its clause `performs` says of each command which files
//! are opened, in which order, what is done over them by the contracts of the crates below, what
//! the outputs gain, and the exit status (`Performs`). Each exit status is 0, 1 or 2 (`IsStatus`).
//!
//! A store is opened before an input, except that `replay` reads the first line of its record
//! first, and `found` the whole founding file: without a founding no store is opened or made
//! (`FoundsIn`). Only `found` and a `replay` of a whole record or of a log may make the files of one,
//! and these are closed last, as `close_store` leaves them (`Closes`). If the database file is empty,
//! the connection with which these two begin makes pages with checksums (`HasSumsIfNew`); only tests
//! show that the closed file has them. A server listens on the port that was given, before it takes
//! a connection (`ServesOn`); only tests show the line that says so.
//!
//! A command on a store begins with a registry that is not poisoned, and has not met the rows of no
//! history (`IsNew`, in `OpensFiles` and `IsFoundOrOpen`). Its opening commits nothing unless the
//! tables have the names of an older schema, and succeeds only if they have those of a schema, if
//! the disks returned what was written (`untouched`, `known`). A `replay` of a whole record or of
//! a log may also found a registry, in a database without tables (`IsFoundOrOpen`).
//!
//! The check of a founding opens the founding file, and nothing else (`ChecksFounding`). The dry
//! run of an import opens what an import opens (`TriesImport`).
//!
//! `apply`, `import` and `replay` read the standard input if their input is called `-`
//! (`is_standard`, `ReadsNamed`, `ReplaysRecord`), and otherwise leave it alone. `apply` and
//! `import` open the store first, and read nothing if that fails (`RunsReading`).
//!
//! `making_of` returns what is done before a store is opened that may be made, by what stands at
//! its name and at that of its log. A new store takes the place of nothing, or of a file without
//! bytes, and only where the log holds no commit (`IsReasonFor`, `IsBlankFile`, `HasNoCommit`).
//!
//! # Over a log
//!
//! With a log (`Logs`) `share`, `serve`, `apply` and `import` ask for the one at their address once the
//! store is open. `share` puts the record into it (`SharesInto`). `replay` reads the founding in the first
//! line of a log before it opens the store, which it founds if there is none (`ReplaysShared`), and then
//! takes the log up and acts on its lines (`ReplaysJoined`). The others take it up before they
//! listen or open an input, and end if the registry does not go on with it (`FollowsAt`); what they
//! then do is said by `ServesJoined`, `AppliesJoined` and `ImportsJoined`. A log with which the registry
//! does not go on is left, with the reason, which only a cause names beyond `fault: log` (`TellsShareStop`).
//! Over a log that keeps its lines the files then hold a history to which the one before leads, and the
//! log begins with its record (`LeadsFilesOver`); after a fault of the registry they may hold one of two
//! (`IsLeftOver`). So do the files that `replay` made, with a history to which that founding leads
//! (`AreMadeOver`).
//!
//! # The line with a cause
//!
//! Beyond what `performs` says the error output has at most one more line, only if causes are asked
//! for or the command is a check (`is_check`), and only if the status is not 0 or the command is
//! `found`, `trial`, `apply` or `import` (`HasRemarks`). It begins with `usbreg: ` and has no
//! control character of ASCII (`IsExplained`, `cause_line`). The line changes nothing else:
//! `performs` holds of the machine, the output and the exit status with it too.
//!
//! Only tests show
//!
//! - whether the line comes;
//! - what it says: the cause of a failure, what is wrong in an input, or after status 0 which keys
//!   of the founding file or fields of request lines are ignored, or that the list of an `import`
//!   has nothing of the vendor;
//! - what `Heard` keeps of the last line for it;
//! - that a command does the same without `--verbose`.
//!
//! # What the files then hold
//!
//! `performs` also goes from file to file (`IsWhole`). Before the command the store's files hold a
//! legal history, in any schema. If the store could be opened, and closing it did not fail after a
//! command that ended with status 0, and its closed files read back what was written, they then
//! hold, now and after any crash:
//!
//! - after `apply`, the history after the requests whose reply lines are written, or after one more
//!   (`IsAfterLines`);
//! - after `import`, the history before the list's request or after it; if that request was acted
//!   on, all of its reply's line is written unless the status is 1, and it is the history after it
//!   unless nothing is written at status 1 (`IsAfterImport`);
//! - after `import` with `--check`, the same history; unless the status is 1, the reply that the
//!   list's request would get over it is written, or the input is not a list (`IsForetoldOf`);
//! - after `serve`, a history that a crash may leave after the connections (`AreLeftAfter`);
//! - after `export`, `report`, `history` and `head`, the same history; at status 0 their texts are
//!   those of that history (`IsListed`, `IsReportedOn`, `IsRecordedOn`, `IsHeadOn`);
//! - after `replay`, the history after the requests of the first lines, each of which got the reply
//!   that its line says, or after that of one more line; at status 0 these are, by `performs`, all
//!   lines (`IsAfterRecord`);
//! - after `found` with status 0, the new history (`IsFoundedWholly`). The clause says nothing of
//!   another status of `found`: for the connection we prove that a registry stays, and that nothing
//!   is changed at `fault: taken` (`IsTriedOn`).
//!
//! If the registry cannot be opened, a history that the store held stays. Nothing is committed
//! unless its tables have the names of an older schema (`IsLeftUnread`). If `fault: foreign` says
//! why, and the closed files read back what was written, the store held no legal history in any
//! schema (`HeldNoneIfForeign`, `IsUnreplayed`). A `replay` of a whole record that can neither
//! found nor open a registry commits nothing in a store that has tables, unless these have the
//! names of an older schema (`performs`, by `IsLeftFound`).
#![tactic(auto)]

mod applying;
mod arguments;
mod causes;
mod checking;
mod dry_runs;
mod field_remarks;
mod following;
mod founding;
mod host;
mod importing;
mod last_line;
mod line_remarks;
mod list_remarks;
mod logs;
mod making;
mod opening;
mod performing;
mod remarks;
mod replaying;
mod running;
mod serving;
mod shared_acts;
mod shared_replay;
mod sharing;
mod showing;
mod stores;

pub use applying::run_apply;
pub use checking::run_check;
pub use dry_runs::{run_found_check, run_import_check};
pub use founding::run_found;
pub use host::{About, Cause, Host};
pub use importing::run_import;
pub use last_line::{Heard, LastLine};
pub use logs::{Logs, NoLog};
pub use making::{Making, Standing, is_blank, making_of};
pub use opening::{connect_to, open_files};
pub use performing::perform;
pub use replaying::run_replay;
pub use running::{Terminals, run_over};
pub use serving::run_serve;
pub use shared_acts::{run_apply_shared, run_import_shared};
pub use shared_replay::run_replay_shared;
pub use sharing::{run_serve_shared, run_share};
pub use showing::{run_export, run_head, run_history, run_lookup, run_report};
pub use stores::{close_connection, close_registry, connect, open_registry};
