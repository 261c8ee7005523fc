//! Reads the founding of the registry whose record is a log.

ghost use Rattle.std.specs.Prelude.{◌≡◌, ◌≢◌, IfErr, IfNone, IfOk, IfSome};
ghost use Rattle.registry_wire.specs.Record.{founding_line};
ghost use Rattle.shared_log.specs.Calls.{AtSomeInstant, KeepsLines, LogLines};
ghost use Rattle.shared_registry.specs.Asks.{AppendsNothing, IsLogAsked};
ghost use Rattle.shared_registry.specs.Founded.{BeginsWithFounding, HasNoFounding, HasNoFoundingLine, IsOfNoFounding};

use crate::joining::line_at;
use crate::stop::ShareStop;
use registry_rules::{Founding, Rejection};
use registry_wire::{RecordLine, founding_line, record_line};
use shared_log::{Line, Log, LogFault};
use std::alloc::Global;
use usbnum_core::NoMemory;

/// Returns the founding, if this is its line.
fn if_line_of(alloc: Global, line: &Line, founding: Founding) -> Result<Option<Founding>, NoMemory>
    ensures some { IfOk result (λ it. IfSome it (λ found. (found ≡ founding) × (founding_line founding ≡ line.now))) }
    ensures none { IfOk result (λ it. IfNone it (founding_line founding ≢ line.now)) }
{
    let written = founding_line(alloc, &founding)?;
    if written.as_str().as_bytes() == line.as_bytes() {
        Ok(Some(founding))
    } else {
        Ok(None)
    }
}

/// Returns the founding whose line this is, if it is that of one.
fn founding_of(alloc: Global, line: &Line) -> Result<Option<Founding>, NoMemory>
    ensures some { IfOk result (λ it. IfSome it (λ founding. founding_line founding ≡ line.now)) }
    ensures none { IfOk result (λ it. IfNone it (IsOfNoFounding line.now)) }
{
    match record_line(alloc, line.as_bytes()) {
        Ok(RecordLine::Founding(founding)) => if_line_of(alloc, line, founding),
        Ok(RecordLine::Accepted(_, _)) => Ok(None),
        Err(Rejection::Refused(_)) => Ok(None),
        Err(Rejection::NoMemory) => Err(NoMemory),
    }
}

/// Returns the founding with whose line a page of a log begins. Its first line is that of the log.
fn founding_in_page(alloc: Global, page: &[Line], more: bool) -> Result<Founding, ShareStop>
    ensures ok { IfOk result (λ founding. BeginsWithFounding founding page.now) }
    ensures err { IfErr result (HasNoFoundingLine page.now more) }
{
    let Some(line) = line_at(page, 0) else {
        return Err(if more {
            ShareStop::Log(LogFault::BadAnswer)
        } else {
            ShareStop::Empty
        });
    };
    match founding_of(alloc, line)? {
        Some(founding) => Ok(founding),
        None => Err(ShareStop::OtherRecord(0)),
    }
}

/// Reads the founding of the registry whose record is a log: the first line of the log is exactly the
/// line of this founding. Appends nothing.
///
/// # Errors
///
/// `Empty` if the log has no line, and `OtherRecord` with the number 0 if the first is the line of no
/// founding. `Log` if the call of the log got no answer. `NoMemory` if out of memory.
pub fn read_founding<L: Log>(alloc: Global, log: &mut L) -> Result<Founding, ShareStop>
    ensures ok { (lines : L → LogLines) → KeepsLines L.Log lines → IfOk result (λ founding. AtSomeInstant (lines log.old) (lines log.new) (BeginsWithFounding founding)) }
    ensures err { (lines : L → LogLines) → KeepsLines L.Log lines → IfErr result (HasNoFounding L.Log lines log.old log.new) }
    ensures asks { IsLogAsked L.Log AppendsNothing log.old log.new }
{
    let page = log.page(alloc, 0)?;
    founding_in_page(alloc, page.lines.as_slice(), page.more)
}
