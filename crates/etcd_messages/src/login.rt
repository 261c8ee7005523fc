//! Reads the answer to a login, and the reason of an error.

ghost use Rattle.std.specs.Prelude.{◌≡◌, IfOk, option_copied, option_map, string_bytes};
ghost use Rattle.std.specs.List.{list_all};
ghost use Rattle.serde_json.specs.View.{view};
ghost use Rattle.etcd_messages.specs.Faults.{GivesReading, login_fault};
ghost use Rattle.etcd_messages.specs.Visible.{is_visible};
ghost use Rattle.etcd_messages.specs.Answers.{answer_object, error_reason, token_in, login_reading};

use crate::answer::{answer_with, object_of, text_in};
use crate::fault::{AnswerFault, Member, Unread, login_fault};
use serde_json::Value;
use std::alloc::Global;
use std::marker::Model;
use usbnum_core::NoMemory;

/// The token of a login, of visible ASCII characters, which later requests have in their field
/// `authorization`. A contract sees its bytes.
#[derive(Debug, Drop)]
pub struct Token {
    text: String,
}

impl Model for Token {
    ghost use Rattle.std.specs.Prelude.{◌≡◌, true, List, ℕ};
    ghost use Rattle.std.specs.String.{string_bytes};
    ghost use Rattle.std.specs.List.{list_all};
    ghost use Rattle.etcd_messages.specs.Visible.{is_visible};

    ghost Value = { List ℕ };

    ghost view = { λ a. string_bytes a.text };

    ghost invariant = { λ a. list_all is_visible (string_bytes a.text) ≡ true };
}

impl Token {
    ghost use Rattle.std.specs.Prelude.{true};

    /// Returns the text.
    pub fn as_str(&self) -> &str
        ensures text { result.now ≡ self.now }
        ensures visible { list_all is_visible self.now ≡ true }
    {
        self.text.as_str()
    }
}

fn is_visible(b: u8) -> bool
    ensures { result ≡ is_visible b }
{
    matches!(b, b'!'..=b'~')
}

fn are_visible(text: &[u8]) -> bool
    ensures { result ≡ list_all is_visible text.now }
{
    text.iter().all(|b| is_visible(*b))
}

#[tactic(auto, unfolding(crate::specs::Answers::token_in))]
fn token_in(alloc: Global, value: &Value) -> Result<Token, Unread>
    ensures { GivesReading result (token_in (view value.now)) }
{
    let Some(text) = text_in(Member::Token, value) else {
        return Err(Unread::Bad(AnswerFault::BadMember(Member::Token)));
    };
    if !text.is_empty() && are_visible(text.as_bytes()) {
        let text = String::from_str(alloc, text)?;
        Ok(Token { text })
    } else {
        Err(Unread::Bad(AnswerFault::BadMember(Member::Token)))
    }
}

/// Reads the answer to a login, from the status and the body of a message. Returns the first fault
/// if it is no such answer.
#[tactic(auto, unfolding(crate::specs::Answers::login_reading))]
pub fn read_login(alloc: Global, status: u16, body: &[u8]) -> Result<Token, Unread>
    ensures { GivesReading result (login_reading status body.now) }
{
    let value = answer_with(alloc, login_fault(status), status, body)?;
    token_in(alloc, &value)
}

fn copied(alloc: Global, text: Option<&str>) -> Result<Option<String>, NoMemory>
    ensures { IfOk result (λ copy. option_map string_bytes copy ≡ option_copied text.entry) }
{
    match text {
        Some(text) => Ok(Some(String::from_str(alloc, text)?)),
        None => Ok(None),
    }
}

/// Returns what etcd says of an error in the body of a message, if it is JSON.
pub fn error_text(alloc: Global, body: &[u8]) -> Result<Option<String>, NoMemory>
    ensures { IfOk result (λ text. option_map string_bytes text ≡ error_reason (answer_object body.now)) }
{
    match object_of(alloc, body) {
        Ok(value) => copied(alloc, text_in(Member::Error, &value)),
        Err(Unread::Bad(_)) => Ok(None),
        Err(Unread::NoMemory) => Err(NoMemory),
    }
}
