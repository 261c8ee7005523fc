//! Takes up a log: compares the record of a registry with the lines of the log, or appends it.

ghost use Rattle.std.specs.Prelude.{◌≡◌, ◌≢◌, ◌⊎◌, ◌≤◌, ◌<◌, ◌+◌, ◌^◌, ◌++◌, ℕ, [], false, true, None, Err, IfErr, IfNone, IfOk, IfSome, OnOk, Some, drop, length, slice_get};
ghost use Rattle.sqlite.specs.State.{HasCleanDisk};
ghost use Rattle.registry_rules.specs.History.{History};
ghost use Rattle.registry_laws.specs.Machines.{HasValidFields};
ghost use Rattle.registry_laws.specs.Records.{record_of};
ghost use Rattle.registry_store.specs.Promise.{NotesForeign, Represents, is_poisoned, state_of};
ghost use Rattle.registry_store.specs.Queries.{IsUntouched};
ghost use Rattle.shared_log.specs.Calls.{Grows, KeepsLines, LogLines};
ghost use Rattle.shared_registry.specs.Asks.{AppendsLines, AppendsNothing, AppendsRecord, IsLogAsked, IsAskedFor};
ghost use Rattle.shared_registry.specs.Lines.{fault_in_call, fault_of_stop};
ghost use Rattle.shared_registry.specs.Cursors.{most_lines};
ghost use Rattle.shared_registry.specs.Follows.{Follows};
ghost use Rattle.shared_registry.specs.Records.{HasPassed, IsOtherPage, IsUnshared, Matches, stop_in};

use crate::cursor::{AppendFault, Cursor};
use crate::record::record_part;
use crate::stop::ShareStop;
use registry_store::{Fault, Registry};
use shared_log::{Line, Lines, Log, LogFault};
use sqlite::Alter;
use std::alloc::Global;

/// Returns whether two lines are the same.
fn are_same(a: &Line, b: &Line) -> bool
    ensures same { result ≡ true → a.now ≡ b.now }
    ensures other { result ≡ false → a.now ≢ b.now }
{
    a.as_bytes() == b.as_bytes()
}

/// Returns the line with this number, if there is one.
pub(crate) fn line_at(lines: &[Line], n: usize) -> Option<&Line>
    ensures there { IfSome result (λ line. slice_get lines.now n ≡ Some line.now) }
    ensures past { IfNone result (length lines.now ≤ n) }
{
    lines.get(n)
}

/// Returns whether this line has this number in the lines.
fn has_line(lines: &[Line], n: usize, line: &Line) -> bool
    ensures has { result ≡ true → slice_get lines.now n ≡ Some line.now }
    ensures hasnt { result ≡ false → slice_get lines.now n ≢ Some line.now }
{
    match line_at(lines, n) {
        Some(other) => are_same(other, line),
        None => false,
    }
}

/// Returns how many of the first lines are the same.
fn same_lines(ours: &[Line], theirs: &[Line]) -> usize
    ensures { Matches ours.now theirs.now result }
{
    let mut count = 0;
    for line in ours {
        if !has_line(theirs, count, line) {
            return count;
        }
        count += 1;
    }
    count
}

/// Returns the sum, if it is less than 2^32.
fn add(next: u32, count: usize) -> Option<u32>
    ensures some { IfSome result (λ sum. sum ≡ next + count) }
    ensures none { IfNone result (most_lines < next + count) }
{
    next.checked_add(u32::try_from(count).ok()?)
}

/// Compares a page of the log with the lines of the record that are to be there. Returns how many
/// are.
fn compare_page(ours: &Lines, theirs: &Lines, more: bool, next: u32) -> Result<u32, ShareStop>
    ensures ok { IfOk result (λ after. (count : ℕ) × (after ≡ next + count) × Matches ours.now theirs.now count × ((length ours.now ≡ count) ⊎ (length theirs.now ≡ count)) × (theirs.now ≢ [])) }
    ensures err { IfErr result (IsOtherPage ours.now theirs.now more next) }
{
    let count = same_lines(ours.as_slice(), theirs.as_slice());
    if theirs.is_empty() {
        return Err(if more {
            ShareStop::Log(LogFault::BadAnswer)
        } else {
            ShareStop::Ahead
        });
    }
    let Some(after) = add(next, count) else {
        return Err(ShareStop::Full);
    };
    if count < ours.len() && count < theirs.len() {
        return Err(ShareStop::OtherRecord(after));
    }
    Ok(after)
}

/// Compares the next part of the record with the log, and passes it. Returns whether there was one.
fn compare_part<S: Alter, L: Log>(
    registry: &mut Registry<S>,
    cursor: &mut Cursor<L>,
) -> Result<bool, ShareStop>
    ensures ok { (lines : L → LogLines) → KeepsLines L.Log lines → (h : History) → Represents registry.old h → HasValidFields h → HasPassed lines cursor.old h → HasCleanDisk (state_of registry.new)
        → IfOk result (λ more. HasPassed lines cursor.new h × Grows (lines cursor.old.log) (lines cursor.new.log) × (more ≡ false → cursor.new.next ≡ length (record_of h))) }
    ensures err { (lines : L → LogLines) → KeepsLines L.Log lines → (h : History) → Represents registry.old h → HasValidFields h → HasPassed lines cursor.old h → HasCleanDisk (state_of registry.new)
        → IfErr result (IsUnshared L.Log lines h cursor.old.log cursor.new.log) }
    ensures untouched { IsUntouched registry.old registry.new }
    ensures asks { IsLogAsked L.Log AppendsNothing cursor.old.log cursor.new.log }
    ensures when_poisoned { is_poisoned registry.old ≡ true → result ≡ Err (ShareStop.Registry Fault.Poisoned) }
    ensures notes { NotesForeign registry.old registry.new (fault_in_call result) }
    ensures passes { IfOk result (λ more. more ≡ true → cursor.old.next < cursor.new.next) }
    ensures small { OnOk result (cursor.new.next < 2 ^ 32) }
{
    let ours = record_part(cursor.alloc, registry, cursor.next)?;
    if ours.is_empty() {
        return Ok(false);
    }
    let page = cursor.log.page(cursor.alloc, cursor.next)?;
    cursor.next = compare_page(&ours, &page.lines, page.more, cursor.next)?;
    Ok(true)
}

/// Compares the record with the log, from the place of the cursor on.
fn compare<S: Alter, L: Log>(
    registry: &mut Registry<S>,
    cursor: &mut Cursor<L>,
) -> Result<(), ShareStop>
    ensures ok { (lines : L → LogLines) → KeepsLines L.Log lines → (h : History) → Represents registry.old h → HasValidFields h → HasPassed lines cursor.old h → HasCleanDisk (state_of registry.new)
        → OnOk result (HasPassed lines cursor.new h × (cursor.new.next ≡ length (record_of h))) }
    ensures err { (lines : L → LogLines) → KeepsLines L.Log lines → (h : History) → Represents registry.old h → HasValidFields h → HasPassed lines cursor.old h → HasCleanDisk (state_of registry.new)
        → IfErr result (IsUnshared L.Log lines h cursor.old.log cursor.new.log) }
    ensures untouched { IsUntouched registry.old registry.new }
    ensures asks { IsLogAsked L.Log AppendsNothing cursor.old.log cursor.new.log }
    ensures when_poisoned { is_poisoned registry.old ≡ true → result ≡ Err (ShareStop.Registry Fault.Poisoned) }
    ensures notes { NotesForeign registry.old registry.new (fault_in_call result) }
{
    while compare_part(registry, cursor)? {}
    Ok(())
}

/// Appends these lines, and passes them.
fn append_lines<L: Log>(cursor: &mut Cursor<L>, lines: &[Line]) -> Result<(), ShareStop>
    ensures ok { (log : L → LogLines) → KeepsLines L.Log log → (h : History) → (rest : LogLines) → drop cursor.old.next (record_of h) ≡ lines.now ++ rest → HasPassed log cursor.old h
        → OnOk result (HasPassed log cursor.new h × Grows (log cursor.old.log) (log cursor.new.log)) }
    ensures err { (log : L → LogLines) → KeepsLines L.Log log → (h : History) → (rest : LogLines) → drop cursor.old.next (record_of h) ≡ lines.now ++ rest → HasPassed log cursor.old h
        → IfErr result (IsUnshared L.Log log h cursor.old.log cursor.new.log) }
    ensures kind { IfErr result (λ stop. fault_of_stop stop ≡ None) }
    ensures asks { IsLogAsked L.Log (AppendsLines lines.now cursor.old.next) cursor.old.log cursor.new.log }
    ensures never_ahead { result ≢ Err ShareStop.Ahead }
    ensures passes { OnOk result (cursor.new.next ≡ cursor.old.next + length lines.now) }
    ensures small { OnOk result (cursor.new.next < 2 ^ 32) }
{
    // (a number that is read is less than 2^32)
    let _first = cursor.next;
    for line in lines {
        match cursor.append(line.as_bytes()) {
            Ok(()) => {}
            Err(AppendFault::Taken) => return Err(ShareStop::OtherRecord(cursor.next)),
            Err(AppendFault::Behind) => return Err(ShareStop::Log(LogFault::BadAnswer)),
            Err(AppendFault::Full) => return Err(ShareStop::Full),
            Err(AppendFault::NoMemory) => return Err(ShareStop::NoMemory),
            Err(AppendFault::Log(fault)) => return Err(ShareStop::Log(fault)),
        }
    }
    Ok(())
}

/// Appends the next part of the record to the log. Returns whether there was one.
fn append_part<S: Alter, L: Log>(
    registry: &mut Registry<S>,
    cursor: &mut Cursor<L>,
) -> Result<bool, ShareStop>
    ensures ok { (lines : L → LogLines) → KeepsLines L.Log lines → (h : History) → Represents registry.old h → HasValidFields h → HasPassed lines cursor.old h → HasCleanDisk (state_of registry.new)
        → IfOk result (λ more. HasPassed lines cursor.new h × Grows (lines cursor.old.log) (lines cursor.new.log) × (more ≡ false → cursor.new.next ≡ length (record_of h))) }
    ensures err { (lines : L → LogLines) → KeepsLines L.Log lines → (h : History) → Represents registry.old h → HasValidFields h → HasPassed lines cursor.old h → HasCleanDisk (state_of registry.new)
        → IfErr result (IsUnshared L.Log lines h cursor.old.log cursor.new.log) }
    ensures untouched { IsUntouched registry.old registry.new }
    ensures asks { (h : History) → Represents registry.old h → HasValidFields h → HasCleanDisk (state_of registry.new) → IsLogAsked L.Log (AppendsRecord h) cursor.old.log cursor.new.log }
    ensures when_poisoned { is_poisoned registry.old ≡ true → result ≡ Err (ShareStop.Registry Fault.Poisoned) }
    ensures notes { NotesForeign registry.old registry.new (fault_in_call result) }
    ensures never_ahead { result ≢ Err ShareStop.Ahead }
    ensures passes { IfOk result (λ more. more ≡ true → cursor.old.next < cursor.new.next) }
    ensures small { OnOk result (cursor.new.next < 2 ^ 32) }
{
    let ours = record_part(cursor.alloc, registry, cursor.next)?;
    if ours.is_empty() {
        return Ok(false);
    }
    append_lines(cursor, ours.as_slice())?;
    Ok(true)
}

/// Appends the record to the log, from the place of the cursor on.
fn append_record<S: Alter, L: Log>(
    registry: &mut Registry<S>,
    cursor: &mut Cursor<L>,
) -> Result<(), ShareStop>
    ensures ok { (lines : L → LogLines) → KeepsLines L.Log lines → (h : History) → Represents registry.old h → HasValidFields h → HasPassed lines cursor.old h → HasCleanDisk (state_of registry.new)
        → OnOk result (HasPassed lines cursor.new h × (cursor.new.next ≡ length (record_of h))) }
    ensures err { (lines : L → LogLines) → KeepsLines L.Log lines → (h : History) → Represents registry.old h → HasValidFields h → HasPassed lines cursor.old h → HasCleanDisk (state_of registry.new)
        → IfErr result (IsUnshared L.Log lines h cursor.old.log cursor.new.log) }
    ensures untouched { IsUntouched registry.old registry.new }
    ensures asks { (h : History) → Represents registry.old h → HasValidFields h → HasCleanDisk (state_of registry.new) → IsLogAsked L.Log (AppendsRecord h) cursor.old.log cursor.new.log }
    ensures when_poisoned { is_poisoned registry.old ≡ true → result ≡ Err (ShareStop.Registry Fault.Poisoned) }
    ensures notes { NotesForeign registry.old registry.new (fault_in_call result) }
    ensures never_ahead { result ≢ Err ShareStop.Ahead }
{
    while append_part(registry, cursor)? {}
    Ok(())
}

/// Takes up a log that begins with the record of the registry: compares them line by line. Nothing is
/// committed or appended. Returns the place behind the record.
///
/// # Errors
///
/// `OtherRecord` at the first line that differs, and `Ahead` if the log ends before the record does.
/// `Log` if a call of the log got no answer. `Registry` after a fault of the registry, or if it is
/// poisoned. `Full` if the record has more lines than are counted. `NoMemory` if out of memory.
pub fn join<S: Alter, L: Log>(
    alloc: Global,
    registry: &mut Registry<S>,
    log: L,
) -> Result<Cursor<L>, (ShareStop, L)>
    ensures ok { (lines : L → LogLines) → KeepsLines L.Log lines → (h : History) → Represents registry.old h → HasValidFields h → HasCleanDisk (state_of registry.new)
        → IfOk result (λ cursor. Follows L.Log lines registry.new cursor h) }
    ensures err { (lines : L → LogLines) → KeepsLines L.Log lines → (h : History) → Represents registry.old h → HasValidFields h → HasCleanDisk (state_of registry.new)
        → IfErr result (λ e. IsUnshared L.Log lines h log e.1 e.0) }
    ensures untouched { IsUntouched registry.old registry.new }
    ensures asks { IsAskedFor L.Log AppendsNothing log result }
    ensures when_poisoned { is_poisoned registry.old ≡ true → stop_in result ≡ Err (ShareStop.Registry Fault.Poisoned) }
    ensures notes { NotesForeign registry.old registry.new (fault_in_call (stop_in result)) }
{
    let mut cursor = Cursor {
        alloc,
        log,
        next: 0,
    };
    match compare(registry, &mut cursor) {
        Ok(()) => Ok(cursor),
        Err(stop) => Err((stop, cursor.into_log())),
    }
}

/// Puts the record of the registry into a log, line by line. Lines that are there already are compared.
/// So a call that was stopped can be made again. Nothing is committed. Returns the place
/// behind the record.
///
/// # Errors
///
/// As [`join`], but `Ahead` does not come: the log then gets the lines that it lacks.
pub fn share<S: Alter, L: Log>(
    alloc: Global,
    registry: &mut Registry<S>,
    log: L,
) -> Result<Cursor<L>, (ShareStop, L)>
    ensures ok { (lines : L → LogLines) → KeepsLines L.Log lines → (h : History) → Represents registry.old h → HasValidFields h → HasCleanDisk (state_of registry.new)
        → IfOk result (λ cursor. Follows L.Log lines registry.new cursor h) }
    ensures err { (lines : L → LogLines) → KeepsLines L.Log lines → (h : History) → Represents registry.old h → HasValidFields h → HasCleanDisk (state_of registry.new)
        → IfErr result (λ e. IsUnshared L.Log lines h log e.1 e.0) }
    ensures untouched { IsUntouched registry.old registry.new }
    // No other line is appended than those of the record, each under its number.
    ensures asks { (h : History) → Represents registry.old h → HasValidFields h → HasCleanDisk (state_of registry.new) → IsAskedFor L.Log (AppendsRecord h) log result }
    ensures when_poisoned { is_poisoned registry.old ≡ true → stop_in result ≡ Err (ShareStop.Registry Fault.Poisoned) }
    ensures notes { NotesForeign registry.old registry.new (fault_in_call (stop_in result)) }
    ensures never_ahead { IfErr result (λ e. e.0 ≢ ShareStop.Ahead) }
{
    let mut cursor = Cursor {
        alloc,
        log,
        next: 0,
    };
    match append_record(registry, &mut cursor) {
        Ok(()) => Ok(cursor),
        Err(stop) => Err((stop, cursor.into_log())),
    }
}
