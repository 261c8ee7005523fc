//! The name of an entry.
ghost use Rattle.std.specs.Prelude.{◌≡◌, ◌≤◌, IfOk, IsTrue, length, Some, None, if◌then◌else◌};
ghost use Rattle.std.specs.List.{list_all};
ghost use Rattle.usbids_text.specs.Words.{is_inner, begins_well, ends_well, is_name};
ghost use Rattle.usbids_text.specs.Heads.{text_of};

use crate::short::{MOST_SHORT, Short};
use crate::words::{is_separator, is_tail};
use std::alloc::Global;
use std::marker::Model;
use usbnum_core::NoMemory;

/// The bytes of a name: most names are short and need no allocation.
#[derive(Debug, Drop)]
pub enum Text {
    /// At most 35 bytes.
    Here(Short),
    /// Any number of bytes, in an allocation.
    There(Vec<u8>),
}

impl Text {
    /// Copies the bytes.
    pub fn of(alloc: Global, bytes: &[u8]) -> Result<Text, NoMemory>
        ensures { IfOk result (λ text. text_of text ≡ bytes.now) }
    {
        if bytes.len() <= MOST_SHORT {
            return Ok(Text::Here(Short::new(bytes)));
        }
        let mut text = Vec::with_capacity(alloc, bytes.len())?;
        text.extend_from_slice(bytes)?;
        Ok(Text::There(text))
    }
}

/// A name: at most 65,000 bytes without a line feed, not necessarily UTF-8. It does not start or
/// end with a space or a tab, and does not end with a carriage return. It may be empty.
#[derive(Debug, Drop)]
pub struct Name {
    text: Text,
}

impl Model for Name {
    ghost use Rattle.std.specs.Prelude.{List, ℕ, IsTrue};
    ghost use Rattle.usbids_text.specs.Words.{is_name};
    ghost use Rattle.usbids_text.specs.Heads.{text_of};

    ghost Value = { List ℕ };

    ghost view = { λ a. text_of a.text };

    ghost invariant = { λ a. IsTrue (is_name (text_of a.text)) };
}

fn is_inner(bytes: &[u8]) -> bool
    ensures { result ≡ list_all is_inner bytes.now }
{
    bytes.iter().all(|b| *b != b'\n')
}

fn begins_well(bytes: &[u8]) -> bool
    ensures { result ≡ begins_well bytes.now }
{
    match bytes {
        [] => true,
        [b, ..] => !is_separator(*b),
    }
}

fn ends_well(bytes: &[u8]) -> bool
    ensures { result ≡ ends_well bytes.now }
{
    match bytes {
        [] => true,
        [.., b] => !is_tail(*b),
    }
}

#[tactic(auto, unfolding(crate::specs::Words::is_name))]
fn is_name(bytes: &[u8]) -> bool
    ensures { result ≡ is_name bytes.now }
{
    bytes.len() <= 65000 && is_inner(bytes) && begins_well(bytes) && ends_well(bytes)
}

impl Name {
    /// Makes a name from the bytes, or returns None if they are not a name.
    pub fn new(alloc: Global, bytes: &[u8]) -> Result<Option<Name>, NoMemory>
        ensures { IfOk result (λ found. found ≡ (if is_name bytes.now then Some bytes.now else None)) }
    {
        if is_name(bytes) {
            Ok(Some(Name::of(alloc, bytes)?))
        } else {
            Ok(None)
        }
    }

    // Makes a name from bytes that are known to be one.
    pub(crate) fn of(alloc: Global, bytes: &[u8]) -> Result<Name, NoMemory>
        requires { IsTrue (is_name bytes.now) }
        ensures { IfOk result (λ name. name ≡ bytes.now) }
    {
        Ok(Name {
            text: Text::of(alloc, bytes)?,
        })
    }

    // Returns the text of the name.
    pub(crate) fn into_text(self) -> Text
        ensures value { text_of result ≡ self }
        ensures valid { IsTrue (is_name (text_of result)) }
    {
        let Name { text } = self;
        text
    }

    /// Returns the bytes of the name.
    pub fn as_bytes(&self) -> &[u8]
        ensures value { result.now ≡ self.now }
        ensures valid { IsTrue (is_name result.now) }
    {
        match &self.text {
            Text::Here(text) => text.as_bytes(),
            Text::There(text) => text,
        }
    }
}
