//! A log of lines that several machines share: the trait [`Log`], what its answers mean, and a log
//! in memory for tests.
//!
//! A `Log` keeps one list of lines, which several machines read and append to. Calls of others may
//! come before, inside and after each of ours. `KeepsLines` says what each answer means of the lines
//! before and after the call (`AppendMeans`, `IsLogPage`, `IsLogHead`, `AtSomeInstant`), and is the
//! premise about a log on other machines: it keeps what it said that it has, and takes one line for
//! a number. A call without an answer says only that the log has not lost a line; an append may
//! have been taken, or may be taken later.
//!
//! [`MemoryLog`] keeps that, whatever becomes of its calls: each answer means what it says, and
//! after each call without an answer its lines are there, maybe with others behind them
//! (`decided_lines`). `set_fates` says what becomes of the next calls.
#![tactic(auto)]

mod answers;
mod deciding;
mod fault;
mod line;
mod log;
mod memory;

pub use answers::{AppendAnswer, HeadAnswer, PageAnswer};
pub use fault::LogFault;
pub use line::{Line, Lines};
pub use log::Log;
pub use memory::{Fate, MemoryLog};
