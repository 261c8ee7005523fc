//! Acts on the lines of the log that the registry has not acted on.

ghost use Rattle.std.specs.Prelude.{◌≡◌, ◌≤◌, ◌<◌, ◌+◌, ◌^◌, false, true, length, Err, IfErr, IfOk, OnErr, OnOk};
ghost use Rattle.sqlite.specs.State.{HasCleanDisk};
ghost use Rattle.registry_rules.specs.History.{History};
ghost use Rattle.registry_store.specs.Promise.{Endures, NotesForeign, Represents, is_poisoned, state_of};
ghost use Rattle.shared_log.specs.Calls.{KeepsLines, LogLines};
ghost use Rattle.shared_registry.specs.Asks.{AppendsNothing, IsLogAsked};
ghost use Rattle.shared_registry.specs.Lines.{IsStoppedIn, LeadsToLines, fault_in_call};
ghost use Rattle.shared_registry.specs.Follows.{Follows, HasFollowed, HasFollowedPage, IsLeft};

use crate::cursor::Cursor;
use crate::expecting::act_on_line;
use crate::stop::ShareStop;
use registry_store::{Fault, Registry};
use shared_log::{Line, Log, LogFault};
use sqlite::Alter;
use std::alloc::Global;

/// Acts on these lines of a log, the first of which has the number `next`, and passes those that it
/// acted on.
fn act_on_lines<S: Alter>(
    alloc: Global,
    registry: &mut Registry<S>,
    next: &mut u32,
    lines: &[Line],
) -> Result<(), ShareStop>
    ensures goes_on { (h : History) → Represents registry.old h → HasCleanDisk (state_of registry.new)
        → OnOk result (LeadsToLines registry.new h lines.now) }
    ensures passes { OnOk result (next.new ≡ next.old + length lines.now) }
    ensures small { next.new < 2 ^ 32 }
    ensures stopped { (h : History) → Represents registry.old h → HasCleanDisk (state_of registry.new) → IfErr result (IsStoppedIn registry.new h lines.now next.old next.new) }
    ensures notes { NotesForeign registry.old registry.new (fault_in_call result) }
    ensures endures { Endures (state_of registry.old) (state_of registry.new) }
{
    // (a number that is read is less than 2^32)
    let _first = *next;
    for line in lines {
        let Some(after) = next.checked_add(1) else {
            return Err(ShareStop::Full);
        };
        act_on_line(alloc, registry, *next, line)?;
        *next = after;
    }
    Ok(())
}

/// Reads a page of the log and acts on it. Returns whether there was more, and then has passed a line.
fn read_and_follow<S: Alter, L: Log>(
    registry: &mut Registry<S>,
    cursor: &mut Cursor<L>,
) -> Result<bool, ShareStop>
    ensures ok { (lines : L → LogLines) → KeepsLines L.Log lines → (h : History) → Follows L.Log lines registry.old cursor.old h → HasCleanDisk (state_of registry.new)
        → IfOk result (HasFollowedPage L.Log lines cursor.old registry.new cursor.new h) }
    ensures err { (lines : L → LogLines) → KeepsLines L.Log lines → (h : History) → Follows L.Log lines registry.old cursor.old h → HasCleanDisk (state_of registry.new)
        → IfErr result (IsLeft L.Log lines cursor.old registry.new cursor.new h) }
    ensures notes { NotesForeign registry.old registry.new (fault_in_call result) }
    ensures endures { Endures (state_of registry.old) (state_of registry.new) }
    ensures asks { IsLogAsked L.Log AppendsNothing cursor.old.log cursor.new.log }
    ensures passes { IfOk result (λ more. (cursor.old.next ≤ cursor.new.next) × (more ≡ true → cursor.old.next < cursor.new.next)) }
    ensures small { OnOk result (cursor.new.next < 2 ^ 32) }
{
    let page = cursor.log.page(cursor.alloc, cursor.next)?;
    if page.more && page.lines.is_empty() {
        return Err(ShareStop::Log(LogFault::BadAnswer));
    }
    act_on_lines(
        cursor.alloc,
        registry,
        &mut cursor.next,
        page.lines.as_slice(),
    )?;
    Ok(page.more)
}

/// Acts on all lines of the log that the registry has not acted on. After it, the registry has the
/// history of the whole log, as it was at some instant of the call. Appends nothing.
///
/// # Errors
///
/// `Log` if a call of the log got no answer. `OtherRecord` at the first line with which the record of
/// the registry does not go on, and nothing is committed for it. `Registry` after a fault of the
/// registry, which poisons it, or if it is poisoned, and then no call of the log is made. `Full` if
/// the log has more lines than are counted. `NoMemory` if out of memory. The lines before were acted
/// on. After an error other than `Registry` the registry still follows the log.
pub fn follow<S: Alter, L: Log>(
    registry: &mut Registry<S>,
    cursor: &mut Cursor<L>,
) -> Result<(), ShareStop>
    ensures when_poisoned { is_poisoned registry.old ≡ true → (result ≡ Err (ShareStop.Registry Fault.Poisoned)) × (registry.new ≡ registry.old) × (cursor.new ≡ cursor.old) }
    ensures ok { (lines : L → LogLines) → KeepsLines L.Log lines → (h : History) → Follows L.Log lines registry.old cursor.old h → HasCleanDisk (state_of registry.new)
        → OnOk result (HasFollowed L.Log lines cursor.old registry.new cursor.new h) }
    ensures err { (lines : L → LogLines) → KeepsLines L.Log lines → (h : History) → Follows L.Log lines registry.old cursor.old h → HasCleanDisk (state_of registry.new)
        → IfErr result (IsLeft L.Log lines cursor.old registry.new cursor.new h) }
    ensures asks { IsLogAsked L.Log AppendsNothing cursor.old.log cursor.new.log }
    ensures notes { NotesForeign registry.old registry.new (fault_in_call result) }
    ensures endures { Endures (state_of registry.old) (state_of registry.new) }
{
    if registry.is_poisoned() {
        return Err(ShareStop::Registry(Fault::Poisoned));
    }
    while read_and_follow(registry, cursor)? {}
    Ok(())
}
