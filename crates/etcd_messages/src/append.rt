//! Reads the answer to an append.

ghost use Rattle.std.specs.Prelude.{◌≡◌, codes, option_map, option_and_then};
ghost use Rattle.serde_json.specs.Find.{get, at};
ghost use Rattle.serde_json.specs.View.{view, items_view};
ghost use Rattle.etcd_messages.specs.Faults.{GivesReading, ShowsReading, member_name, status_fault};
ghost use Rattle.etcd_messages.specs.Answers.{response_in, refused_by, refused_in, append_in, append_reading};
ghost use Rattle.etcd_messages.specs.declared.fault.Member.TheVariants as members;

use crate::answer::{answer_with, flag_in, tree_in};
use crate::fault::{AnswerFault, Member, Unread, status_fault};
use crate::key::key_text;
use crate::pairs::{line_in, pairs_in};
use serde_json::Value;
use shared_log::AppendAnswer;
use std::alloc::Global;
use usbnum_core::Slug;

// Returns what the first step of a transaction gave.
fn first_response(value: &Value) -> Option<&Value>
    ensures { option_map (λ found. view found.now) result ≡ option_and_then (at 0) (get (member_name members.Responses) (view value.now)) }
{
    match value.get(Member::Responses.name()) {
        Some(found) => found.get(0usize),
        None => None,
    }
}

// Returns the response of this kind to the only step of a transaction.
#[tactic(auto, unfolding(crate::specs::Answers::response_in))]
fn response_in<'v>(kind: &str, value: &'v Value) -> Result<&'v Value, Unread>
    ensures { ShowsReading (λ found. view found.now) result (response_in kind.now (view value.now)) }
{
    match first_response(value) {
        Some(first) => match tree_in(kind, first) {
            Some(found) => Ok(found),
            None => Err(Unread::Bad(AnswerFault::BadMember(Member::Responses))),
        },
        None => Err(Unread::Bad(AnswerFault::BadMember(Member::Responses))),
    }
}

// Returns what the look-up of a line found whose append was refused.
#[tactic(auto, unfolding(crate::specs::Answers::refused_by))]
fn refused_by(alloc: Global, key: &str, pairs: &[Value]) -> Result<AppendAnswer, Unread>
    ensures { GivesReading result (refused_by key.now (items_view pairs.now)) }
{
    match pairs {
        [] => Ok(AppendAnswer::Behind),
        [pair] => Ok(AppendAnswer::Taken(line_in(alloc, key, pair)?)),
        _ => Err(Unread::Bad(AnswerFault::BadMember(Member::Kvs))),
    }
}

#[tactic(auto, unfolding(crate::specs::Answers::refused_in))]
fn refused_in(alloc: Global, key: &str, value: &Value) -> Result<AppendAnswer, Unread>
    ensures { GivesReading result (refused_in key.now (view value.now)) }
{
    let found = response_in("response_range", value)?;
    let pairs = pairs_in(found)?;
    refused_by(alloc, key, pairs)
}

#[tactic(auto, unfolding(crate::specs::Answers::append_in))]
fn append_in(alloc: Global, key: &str, value: &Value) -> Result<AppendAnswer, Unread>
    ensures { GivesReading result (append_in key.now (view value.now)) }
{
    if flag_in(Member::Succeeded, value)? {
        let _put = response_in("response_put", value)?;
        Ok(AppendAnswer::Appended)
    } else {
        refused_in(alloc, key, value)
    }
}

/// Reads the answer to the append of line n of the log with this name, from the status and the body
/// of a message. Returns the first fault if it is no such answer.
#[tactic(auto, unfolding(crate::specs::Answers::append_reading))]
pub fn read_append(
    alloc: Global,
    name: &Slug,
    n: u32,
    status: u16,
    body: &[u8],
) -> Result<AppendAnswer, Unread>
    ensures { GivesReading result (append_reading name.now n status body.now) }
{
    let value = answer_with(alloc, status_fault(status), status, body)?;
    let key = key_text(alloc, name, u64::from(n))?;
    append_in(alloc, key.as_str(), &value)
}
