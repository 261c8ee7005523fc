//! A log that a registry follows, and the place in it.

ghost use Rattle.std.specs.Prelude.{◌≡◌};
ghost use Rattle.shared_registry.specs.Cursors.{HasLine, HasNoLine, HasNoNewLine, TookLine, WasOffered, WasShown, WasNotTaken, log_of};

use crate::line::line_of;
use registry_rules::{ReplyText, Request};
use registry_store::Witness;
use shared_log::{AppendAnswer, Log, LogFault};
use std::alloc::Global;
use usbnum_core::NoMemory;

/// A log that a registry follows, and the number of the first line that the registry has not acted
/// on.
pub struct Cursor<L: Log> {
    pub(crate) alloc: Global,
    pub(crate) log: L,
    pub(crate) next: u32,
}

/// Why a line was not appended, or it is not known that it was.
#[derive(Clone, Copy, Debug, PartialEq, Eq)]
pub enum AppendFault {
    /// The log has a line under its number.
    Taken,
    /// The log has no line under the number before.
    Behind,
    /// There are 2^32 - 1 lines before it.
    Full,
    /// Memory ran out.
    NoMemory,
    /// The call of the log got no answer, for this reason.
    Log(LogFault),
}

impl From<LogFault> for AppendFault {
    ghost use Rattle.std.specs.Prelude.{◌≡◌};
    ghost use Rattle.shared_registry.specs.declared.cursor.AppendFault.TheVariants.{Log as NoAnswer};

    ghost from_gives = { λ cause fault. fault ≡ NoAnswer cause };

    fn from(cause: LogFault) -> AppendFault {
        AppendFault::Log(cause)
    }
}

impl From<NoMemory> for AppendFault {
    ghost use Rattle.std.specs.Prelude.{◌≡◌};
    ghost use Rattle.shared_registry.specs.declared.cursor.AppendFault.TheVariants.{NoMemory as OutOfMemory};

    ghost from_gives = { λ _ fault. fault ≡ OutOfMemory };

    fn from(_error: NoMemory) -> AppendFault {
        AppendFault::NoMemory
    }
}

impl<L: Log> Cursor<L> {
    ghost use Rattle.std.specs.Prelude.{◌≡◌, ◌<◌, ◌^◌, OnOk, IfErr, IfOk};
    ghost use Rattle.shared_registry.specs.Cursors.{HasLine, HasNoLine, HasNoNewLine, TookLine, WasOffered, log_of, most_lines};

    /// Returns the log.
    pub fn into_log(self) -> L
        ensures { result ≡ log_of self }
    {
        let Cursor {
            alloc: _,
            log,
            next: _,
        } = self;
        log
    }

    /// Returns the number of the first line that the registry has not acted on.
    pub fn next(&self) -> u32
        ensures { result ≡ self.now.next }
    {
        self.next
    }

    /// Asks the log to have a line under the next number. Returns whether the log took it now: it may
    /// have this very line there.
    fn offer(&mut self, line: &[u8]) -> Result<bool, AppendFault>
        ensures ok { IfOk result (WasOffered L.Log self.old self.new line.now) }
        ensures err { IfErr result (HasNoLine L.Log self.old self.new line.now) }
        ensures small { OnOk result (self.new.next < most_lines) }
    {
        if self.next == u32::MAX {
            return Err(AppendFault::Full);
        }
        match self.log.append(self.alloc, self.next, line)? {
            AppendAnswer::Appended => Ok(true),
            AppendAnswer::Taken(other) => {
                if other.as_bytes() == line {
                    Ok(false)
                } else {
                    Err(AppendFault::Taken)
                }
            }
            AppendAnswer::Behind => Err(AppendFault::Behind),
        }
    }

    /// Appends a line under the next number, and passes it. A line that is there already is passed if
    /// it has the same bytes.
    pub(crate) fn append(&mut self, line: &[u8]) -> Result<(), AppendFault>
        ensures ok { OnOk result (HasLine L.Log self.old self.new line.now) }
        ensures err { IfErr result (HasNoLine L.Log self.old self.new line.now) }
        ensures small { OnOk result (self.new.next < 2 ^ 32) }
    {
        self.offer(line)?;
        self.next += 1;
        Ok(())
    }

    /// Appends a line under the next number, and passes it. A line that is there already is `Taken`,
    /// whatever it is.
    fn append_new(&mut self, line: &[u8]) -> Result<(), AppendFault>
        ensures ok { OnOk result (TookLine L.Log self.old self.new line.now) }
        ensures err { IfErr result (HasNoNewLine L.Log self.old self.new line.now) }
    {
        let is_new = self.offer(line)?;
        if !is_new {
            return Err(AppendFault::Taken);
        }
        self.next += 1;
        Ok(())
    }
}

/// Appends the line of the request and its reply to the log, and passes it. The line is not appended
/// if there is one under its number, even if it has the same bytes: then an earlier append that seemed
/// to fail has taken effect, and other lines may follow that one.
impl<L: Log> Witness for Cursor<L> {
    ghost use Rattle.shared_registry.specs.Cursors.{WasShown, WasNotTaken};

    type Why = AppendFault;

    ghost saw = { λ old new r text. WasShown L.Log old new r text };

    ghost missed = { λ old new r text why. WasNotTaken L.Log old new r text why };

    fn see(&mut self, request: &Request, reply: &ReplyText) -> Result<(), AppendFault> {
        let line = line_of(self.alloc, request, reply)?;
        self.append_new(line.as_str().as_bytes())
    }
}
