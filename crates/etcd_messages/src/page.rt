//! Reads the answer to a read of lines.

ghost use Rattle.std.specs.Prelude.{◌≡◌, ◌<◌, OnOk};
ghost use Rattle.serde_json.specs.View.{view, items_view};
ghost use Rattle.etcd_messages.specs.Faults.{GivesReading, status_fault};
ghost use Rattle.etcd_messages.specs.Answers.{line_number_bound, numbered_line, lines_from, page_of, page_in, page_reading};

use crate::answer::{answer_with, flag_in};
use crate::fault::{AnswerFault, Member, Unread, status_fault};
use crate::key::key_text;
use crate::pairs::{line_in, pairs_in};
use serde_json::Value;
use shared_log::{Line, Lines, PageAnswer};
use std::alloc::Global;
use usbnum_core::Slug;

/// The greatest number of a line.
const GREATEST_LINE: u64 = 4_294_967_295;

// Returns the line of a pair, which has to be line n.
fn line_of(alloc: Global, name: &Slug, n: u64, pair: &Value) -> Result<Line, Unread>
    ensures reads { GivesReading result (numbered_line name.now n (view pair.now)) }
    ensures few { OnOk result (n < line_number_bound) }
{
    if n > GREATEST_LINE {
        return Err(Unread::Bad(AnswerFault::BadMember(Member::Key)));
    }
    let key = key_text(alloc, name, n)?;
    line_in(alloc, key.as_str(), pair)
}

// Returns the lines of these pairs, which have to be n and the numbers after it.
fn lines_from(alloc: Global, name: &Slug, n: u32, pairs: &[Value]) -> Result<Lines, Unread>
    ensures { GivesReading result (lines_from name.now n (items_view pairs.now)) }
{
    let mut lines = Lines::new(alloc);
    let mut next = u64::from(n);
    for pair in pairs {
        let line = line_of(alloc, name, next, pair)?;
        lines.push(line)?;
        next += 1;
    }
    Ok(lines)
}

#[tactic(auto, unfolding(crate::specs::Answers::page_of))]
fn page_of(lines: Lines, more: bool) -> Result<PageAnswer, Unread>
    ensures { GivesReading result (page_of lines more) }
{
    if more && lines.is_empty() {
        Err(Unread::Bad(AnswerFault::BadMember(Member::More)))
    } else {
        Ok(PageAnswer { lines, more })
    }
}

#[tactic(auto, unfolding(crate::specs::Answers::page_in))]
fn page_in(alloc: Global, name: &Slug, n: u32, value: &Value) -> Result<PageAnswer, Unread>
    ensures { GivesReading result (page_in name.now n (view value.now)) }
{
    let pairs = pairs_in(value)?;
    let lines = lines_from(alloc, name, n, pairs)?;
    let more = flag_in(Member::More, value)?;
    page_of(lines, more)
}

/// Reads the answer to a read of the lines from n on of the log with this name, from the status and
/// the body of a message. Returns the first fault if it is no such answer: the lines are n and the
/// numbers after it, without a gap, and there are more only after a line.
#[tactic(auto, unfolding(crate::specs::Answers::page_reading))]
pub fn read_page(
    alloc: Global,
    name: &Slug,
    n: u32,
    status: u16,
    body: &[u8],
) -> Result<PageAnswer, Unread>
    ensures { GivesReading result (page_reading name.now n status body.now) }
{
    let value = answer_with(alloc, status_fault(status), status, body)?;
    page_in(alloc, name, n, &value)
}
