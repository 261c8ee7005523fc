//! What is asked of a log. A state of it is known by the calls that led to it, in their order.
ghost use Rattle.std.specs.Prelude.{ℕ, List, IfOk, OnErr};
ghost use Rattle.shared_log.specs.declared.answers.AppendAnswer.{AppendAnswer};
ghost use Rattle.shared_log.specs.declared.answers.HeadAnswer.{HeadAnswer};
ghost use Rattle.shared_log.specs.declared.answers.PageAnswer.{PageAnswer};

use crate::answers::{AppendAnswer, HeadAnswer, PageAnswer};
use crate::fault::LogFault;
use std::alloc::Global;

/// A log of lines that several machines share.
///
/// `KeepsLines` says what its answers mean, and is the premise about a log: it keeps what it said it
/// has, and takes one line for a number. No contract of a log on other machines can say so.
pub trait Log {
    /// One call was to append this line under this number, and got this answer.
    ghost appends: { Self → Self → ℕ → List ℕ → AppendAnswer → Type 0 };

    /// One call was to read lines from this number on, and got this answer.
    ghost reads: { Self → Self → ℕ → PageAnswer → Type 0 };

    /// One call was to read the head, and got this answer.
    ghost looks: { Self → Self → HeadAnswer → Type 0 };

    /// One call got no answer. What became of its request is not known.
    ghost fails: { Self → Self → Type 0 };

    /// Appends a line under a number, if the log has none under it and has the one before.
    ///
    /// # Errors
    ///
    /// If there is no answer. The log may have taken the line, or take it at any later time.
    fn append(&mut self, alloc: Global, n: u32, line: &[u8]) -> Result<AppendAnswer, LogFault>
        ensures appends { IfOk result (appends self.old self.new n line.now) }
        ensures failed { OnErr result (fails self.old self.new) };

    /// Reads lines from a number on.
    ///
    /// # Errors
    ///
    /// If there is no answer.
    fn page(&mut self, alloc: Global, n: u32) -> Result<PageAnswer, LogFault>
        ensures reads { IfOk result (reads self.old self.new n) }
        ensures failed { OnErr result (fails self.old self.new) };

    /// Reads the number of lines and the last one.
    ///
    /// # Errors
    ///
    /// If there is no answer.
    fn head(&mut self, alloc: Global) -> Result<HeadAnswer, LogFault>
        ensures looks { IfOk result (looks self.old self.new) }
        ensures failed { OnErr result (fails self.old self.new) };
}
