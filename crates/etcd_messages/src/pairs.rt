//! Reads pairs of a key and a line.

ghost use Rattle.std.specs.Prelude.{◌≡◌};
ghost use Rattle.serde_json.specs.Find.{get};
ghost use Rattle.serde_json.specs.View.{view, items_view};
ghost use Rattle.etcd_messages.specs.Faults.{GivesReading, ShowsReading, member_name, value_or_fault};
ghost use Rattle.etcd_messages.specs.Answers.{pairs_in, value_of, is_text, keyed_line, member_text};
ghost use Rattle.etcd_messages.specs.declared.fault.AnswerFault.TheVariants.{BadMember};
ghost use Rattle.etcd_messages.specs.declared.fault.Member.TheVariants as members;

use crate::answer::text_in;
use crate::fault::{AnswerFault, Member, Unread};
use crate::key::from_base64;
use serde_json::Value;
use shared_log::Line;
use std::alloc::Global;

// Returns the pairs of an answer, which are left out if there is none.
pub(crate) fn pairs_in(value: &Value) -> Result<&[Value], Unread>
    ensures { ShowsReading (λ pairs. items_view pairs.now) result (pairs_in (view value.now)) }
{
    match value.get(Member::Kvs.name()) {
        None => Ok(&[]),
        Some(found) => match found.as_array() {
            Some(pairs) => Ok(pairs.as_slice()),
            None => Err(Unread::Bad(AnswerFault::BadMember(Member::Kvs))),
        },
    }
}

// Returns whether a pair has this key.
fn has_key(key: &str, pair: &Value) -> bool
    ensures { result ≡ is_text key.now (member_text members.Key (view pair.now)) }
{
    match text_in(Member::Key, pair) {
        Some(found) => found == key,
        None => false,
    }
}

// Returns the bytes of the value of a pair, which is left out if it is empty.
fn value_in(alloc: Global, pair: &Value) -> Result<Line, Unread>
    ensures { GivesReading result (value_or_fault (BadMember members.Value) (value_of (get (member_name members.Value) (view pair.now)))) }
{
    match pair.get(Member::Value.name()) {
        None => Ok(Line::new(Vec::new(alloc))),
        Some(found) => match found.as_str() {
            Some(text) => from_base64(alloc, text),
            None => Err(Unread::Bad(AnswerFault::BadMember(Member::Value))),
        },
    }
}

// Returns the line of a pair, whose key has to be this one.
#[tactic(auto, unfolding(crate::specs::Answers::keyed_line))]
pub(crate) fn line_in(alloc: Global, key: &str, pair: &Value) -> Result<Line, Unread>
    ensures { GivesReading result (keyed_line key.now (view pair.now)) }
{
    if has_key(key, pair) {
        value_in(alloc, pair)
    } else {
        Err(Unread::Bad(AnswerFault::BadMember(Member::Key)))
    }
}
