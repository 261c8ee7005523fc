//! The tag of a top that is not a vendor.
ghost use Rattle.std.specs.Prelude.{◌≡◌, ◌≤◌, length, Some, None, IsTrue, if◌then◌else◌};
ghost use Rattle.std.specs.List.{list_all};
ghost use Rattle.usbids_text.specs.Words.{is_upper, is_tag};

use crate::words::is_four;
use std::marker::Model;

/// One to eight letters A to Z that are not four hexadecimal digits.
#[derive(Debug, Drop)]
pub struct Tag {
    text: [u8; 8],
    len: u8,
}

impl Model for Tag {
    ghost use Rattle.std.specs.Prelude.{List, ℕ, ◌≤◌, take, IsTrue};
    ghost use Rattle.usbids_text.specs.Words.{is_tag};

    ghost Value = { List ℕ };

    ghost view = { λ a. take a.len a.text };

    ghost invariant = { λ a. (a.len ≤ 8) × IsTrue (is_tag (take a.len a.text)) };
}

fn is_upper(b: u8) -> bool
    ensures { result ≡ is_upper b }
{
    b'A' <= b && b <= b'Z'
}

fn all_upper(bytes: &[u8]) -> bool
    ensures { result ≡ list_all is_upper bytes.now }
{
    bytes.iter().all(|b| is_upper(*b))
}

#[tactic(auto, unfolding(crate::specs::Words::is_tag))]
fn is_tag(bytes: &[u8]) -> bool
    ensures value { result ≡ is_tag bytes.now }
    ensures short { IsTrue result → length bytes.now ≤ 8 }
{
    !bytes.is_empty() && bytes.len() <= 8 && all_upper(bytes) && !is_four(bytes)
}

impl Tag {
    /// Makes a tag from the bytes, or returns None if they are not a tag.
    pub fn new(bytes: &[u8]) -> Option<Tag>
        ensures { result ≡ (if is_tag bytes.now then Some bytes.now else None) }
    {
        if !is_tag(bytes) {
            return None;
        }
        let mut text = [0u8; 8];
        text[..bytes.len()].copy_from_slice(bytes);
        Some(Tag {
            text,
            len: bytes.len() as u8,
        })
    }

    /// Returns the letters of the tag.
    pub fn as_str(&self) -> &str
        ensures value { result.now ≡ self.now }
        ensures valid { IsTrue (is_tag result.now) }
    {
        match std::str::from_utf8(self.as_bytes()) {
            Ok(text) => text,
            Err(_) => unreachable!(),
        }
    }

    /// Returns the letters of the tag, as bytes.
    pub fn as_bytes(&self) -> &[u8]
        ensures value { result.now ≡ self.now }
        ensures valid { IsTrue (is_tag result.now) }
    {
        &self.text[..usize::from(self.len)]
    }
}
