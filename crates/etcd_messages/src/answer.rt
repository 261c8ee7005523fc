//! Reads the bytes of an answer, and its members.

ghost use Rattle.std.specs.Prelude.{◌≡◌, is_some, option_map, option_copied};
ghost use Rattle.serde_json.specs.View.{view};
ghost use Rattle.etcd_messages.specs.Faults.{GivesReading, ShowsReading, member_name};
ghost use Rattle.etcd_messages.specs.declared.fault.Member.TheVariants as members;
ghost use Rattle.etcd_messages.specs.Answers.{answer_object, if_headed, answer_in, answer_with, tree_in, member_text, flag_in};

use crate::fault::{AnswerFault, Member, Unread};
use serde_json::Value;
use std::alloc::Global;

/// The most bytes of an answer that is read: 32 MiB.
const MOST_ANSWER: usize = 33_554_432;

// Reads the bytes as a JSON object.
#[tactic(auto, unfolding(crate::specs::Answers::answer_object))]
pub(crate) fn object_of(alloc: Global, bytes: &[u8]) -> Result<Value, Unread>
    ensures { ShowsReading view result (answer_object bytes.now) }
{
    match Value::from_slice(alloc, bytes) {
        Ok(value) => {
            if value.is_object() {
                Ok(value)
            } else {
                Err(Unread::Bad(AnswerFault::BadJson))
            }
        }
        Err(error) => {
            if error.is_memory() {
                Err(Unread::NoMemory)
            } else {
                Err(Unread::Bad(AnswerFault::BadJson))
            }
        }
    }
}

// Returns the object that is a member of another one.
pub(crate) fn tree_in<'v>(name: &str, value: &'v Value) -> Option<&'v Value>
    ensures { option_map (λ found. view found.now) result ≡ tree_in name.now (view value.now) }
{
    match value.get(name) {
        Some(found) => { if found.is_object() { Some(found) } else { None } }
        None => None,
    }
}

fn has_header(value: &Value) -> bool
    ensures { result ≡ is_some (tree_in (member_name members.Header) (view value.now)) }
{
    match tree_in(Member::Header.name(), value) {
        Some(_) => true,
        None => false,
    }
}

fn if_headed(value: Value) -> Result<Value, Unread>
    ensures { ShowsReading view result (if_headed (view value)) }
{
    if has_header(&value) {
        Ok(value)
    } else {
        Err(Unread::Bad(AnswerFault::BadMember(Member::Header)))
    }
}

#[tactic(auto, unfolding(crate::specs::Answers::answer_in))]
fn answer_in(alloc: Global, bytes: &[u8]) -> Result<Value, Unread>
    ensures { ShowsReading view result (answer_in bytes.now) }
{
    if bytes.len() > MOST_ANSWER {
        return Err(Unread::Bad(AnswerFault::TooLong));
    }
    let value = object_of(alloc, bytes)?;
    if_headed(value)
}

// Returns the answer of a message with status 200, or the fault of any other one.
#[tactic(auto, unfolding(crate::specs::Answers::answer_with))]
pub(crate) fn answer_with(
    alloc: Global,
    fault: AnswerFault,
    status: u16,
    body: &[u8],
) -> Result<Value, Unread>
    ensures { ShowsReading view result (answer_with fault status body.now) }
{
    if status == 200 {
        answer_in(alloc, body)
    } else {
        Err(Unread::Bad(fault))
    }
}

// Returns the text at a member.
pub(crate) fn text_in(name: Member, value: &Value) -> Option<&str>
    ensures { option_copied result ≡ member_text name (view value.now) }
{
    match value.get(name.name()) {
        Some(found) => found.as_str(),
        None => None,
    }
}

// Returns the truth of a member, which is left out if it is false.
#[tactic(auto, unfolding(crate::specs::Answers::flag_in))]
pub(crate) fn flag_in(name: Member, value: &Value) -> Result<bool, Unread>
    ensures { GivesReading result (flag_in name (view value.now)) }
{
    match value.get(name.name()) {
        None => Ok(false),
        Some(found) => match found.as_bool() {
            Some(truth) => Ok(truth),
            None => Err(Unread::Bad(AnswerFault::BadMember(name))),
        },
    }
}
