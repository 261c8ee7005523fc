//! Reads the answer to a read of the head.

ghost use Rattle.std.specs.Prelude.{◌≡◌, ◌≤◌, true, length};
ghost use Rattle.std.specs.List.{list_all};
ghost use Rattle.serde_json.specs.View.{view, items_view};
ghost use Rattle.serde_json.specs.Find.{get};
ghost use Rattle.etcd_messages.specs.Faults.{GivesReading, member_name, status_fault};
ghost use Rattle.etcd_messages.specs.Answers.{is_decimal_digit, digits_value_from, digits_value, if_few, line_count_of, log_head_of, log_head_in, log_head_reading};
ghost use Rattle.etcd_messages.specs.declared.fault.Member.TheVariants as members;

use crate::answer::answer_with;
use crate::fault::{AnswerFault, Member, Unread, status_fault};
use crate::key::key_text;
use crate::pairs::{line_in, pairs_in};
use serde_json::Value;
use shared_log::HeadAnswer;
use std::alloc::Global;
use usbnum_core::Slug;

/// The most digits of a number of lines.
const MOST_DIGITS: usize = 10;

fn is_digit(b: u8) -> bool
    ensures { result ≡ is_decimal_digit b }
{
    b.is_ascii_digit()
}

fn are_digits(bytes: &[u8]) -> bool
    ensures { result ≡ list_all is_decimal_digit bytes.now }
{
    bytes.iter().all(|b| is_digit(*b))
}

// Returns the value of at most `MOST_DIGITS` digits.
fn value_of_digits(digits: &[u8]) -> u64
    requires few { length digits.now ≤ MOST_DIGITS }
    requires digits { list_all is_decimal_digit digits.now ≡ true }
    ensures { result ≡ digits_value_from 0 digits.now }
{
    let mut number = 0;
    for b in digits {
        number = number * 10 + u64::from(*b - b'0');
    }
    number
}

// Returns the value of one to `MOST_DIGITS` digits, or None for any other text.
#[tactic(auto, unfolding(crate::specs::Answers::digits_value))]
fn digits_value(text: &[u8]) -> Option<u64>
    ensures { result ≡ digits_value text.now }
{
    if !text.is_empty() && text.len() <= MOST_DIGITS && are_digits(text) {
        Some(value_of_digits(text))
    } else {
        None
    }
}

fn if_few(n: u64) -> Option<u32>
    ensures { result ≡ if_few n }
{
    if n < 4_294_967_296 {
        Some(n as u32)
    } else {
        None
    }
}

// Returns the number of lines, which is left out if it is 0.
fn count_in(value: &Value) -> Option<u32>
    ensures { result ≡ line_count_of (get (member_name members.Count) (view value.now)) }
{
    match value.get(Member::Count.name()) {
        None => Some(0),
        Some(found) => if_few(digits_value(found.as_str()?.as_bytes())?),
    }
}

// Returns the head of a log of so many lines, the last of which is in these pairs.
#[tactic(auto, unfolding(crate::specs::Answers::log_head_of))]
fn last_of(alloc: Global, name: &Slug, count: u32, pairs: &[Value]) -> Result<HeadAnswer, Unread>
    ensures { GivesReading result (log_head_of name.now count (items_view pairs.now)) }
{
    match pairs {
        [] => {
            if count == 0 {
                Ok(HeadAnswer { count, last: None })
            } else {
                Err(Unread::Bad(AnswerFault::BadMember(Member::Kvs)))
            }
        }
        [pair] => {
            if count == 0 {
                return Err(Unread::Bad(AnswerFault::BadMember(Member::Count)));
            }
            let key = key_text(alloc, name, u64::from(count - 1))?;
            let last = Some(line_in(alloc, key.as_str(), pair)?);
            Ok(HeadAnswer { count, last })
        }
        _ => Err(Unread::Bad(AnswerFault::BadMember(Member::Kvs))),
    }
}

#[tactic(auto, unfolding(crate::specs::Answers::log_head_in))]
fn head_in(alloc: Global, name: &Slug, value: &Value) -> Result<HeadAnswer, Unread>
    ensures { GivesReading result (log_head_in name.now (view value.now)) }
{
    let Some(count) = count_in(value) else {
        return Err(Unread::Bad(AnswerFault::BadMember(Member::Count)));
    };
    let pairs = pairs_in(value)?;
    last_of(alloc, name, count, pairs)
}

/// Reads the answer to a read of the head of the log with this name, from the status and the body of
/// a message. Returns the first fault if it is no such answer: the line is the last of those that
/// are counted.
#[tactic(auto, unfolding(crate::specs::Answers::log_head_reading))]
pub fn read_head(alloc: Global, name: &Slug, status: u16, body: &[u8]) -> Result<HeadAnswer, Unread>
    ensures { GivesReading result (log_head_reading name.now status body.now) }
{
    let value = answer_with(alloc, status_fault(status), status, body)?;
    head_in(alloc, name, &value)
}
