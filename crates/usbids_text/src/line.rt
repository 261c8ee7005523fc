//! The class of a line: an entry, no entry, or a fault.
ghost use Rattle.std.specs.Prelude.{◌≡◌, ◌≤◌, ℕ, MatchResult, Ok, Err, Option, Some, length};
ghost use Rattle.usbids_text.specs.Faults.{why_number, why_text};
ghost use Rattle.usbids_text.specs.Words.{HasFour};
ghost use Rattle.usbids_text.specs.Lines.{entry_lines, short_enough, below, tagged, top, after_tab, by_tabs, is_comment, line_class, line_of};

use crate::kind::{Depth, Kind};
use crate::tag::Tag;
use crate::words::{after_word, code_in, four_at, past_four, past_separators, trimmed, word};
use std::fmt;

/// The fault of a line.
#[derive(Clone, Copy, Debug, PartialEq, Eq)]
pub enum Why {
    /// The line does not start with a tab, and its first word is neither four hexadecimal digits
    /// nor a tag.
    BadTop = 1,
    /// The code is not one to four hexadecimal digits, or is directly under a vendor and not four
    /// digits.
    BadCode = 2,
    /// An entry of depth one has no top before it, or an entry of depth two no mid.
    NoParent = 3,
    /// The line has more than 65,536 bytes, or its name more than 65,000.
    LineTooLong = 4,
}

impl Why {
    /// Returns the number of the fault.
    pub fn number(&self) -> u8
        ensures { result ≡ why_number self.now }
    {
        *self as u8
    }
}

impl fmt::Display for Why {
    ghost output = { λ why. Some (why_text why) };

    fn fmt<W: fmt::Write>(&self, f: &mut fmt::Formatter<W>) -> fmt::Result {
        f.write_str(match self {
            Why::BadTop => "BadTop",
            Why::BadCode => "BadCode",
            Why::NoParent => "NoParent",
            Why::LineTooLong => "LineTooLong",
        })
    }
}

/// An entry, which borrows its name from the line.
#[derive(Drop)]
pub struct Entry<'a> {
    /// The depth.
    pub depth: Depth,
    /// The code.
    pub code: u16,
    /// The number of digits of the code.
    pub digits: u8,
    /// The name.
    pub name: &'a [u8],
}

fn short_enough(entry: Entry<'_>) -> Result<Option<Entry<'_>>, Why>
    ensures { MatchResult result (λ o. short_enough (line_of entry.entry) ≡ Ok (entry_lines o)) (λ e. short_enough (line_of entry.entry) ≡ Err e) }
{
    if entry.name.len() > 65000 {
        return Err(Why::LineTooLong);
    }
    Ok(Some(entry))
}

// The class of a line whose code has four digits, as most codes have. Inlined, since a call passes
// the entry through memory.
#[inline(always)]
fn with_four(depth: Depth, code: u16, bytes: &[u8]) -> Result<Option<Entry<'_>>, Why>
    requires { HasFour bytes.now code }
    ensures { MatchResult result (λ o. below depth bytes.now ≡ Ok (entry_lines o)) (λ e. below depth bytes.now ≡ Err e) }
{
    short_enough(Entry {
        depth,
        code,
        digits: 4,
        name: past_separators(past_four(bytes)),
    })
}

#[inline(never)]
#[tactic(auto, unfolding(crate::specs::Lines::below))]
fn with_word(depth: Depth, bytes: &[u8]) -> Result<Option<Entry<'_>>, Why>
    ensures { MatchResult result (λ o. below depth bytes.now ≡ Ok (entry_lines o)) (λ e. below depth bytes.now ≡ Err e) }
{
    let digits = word(bytes);
    match code_in(digits) {
        Some(code) => short_enough(Entry {
            depth,
            code,
            digits: digits.len() as u8,
            name: after_word(bytes),
        }),
        None => Err(Why::BadCode),
    }
}

#[inline(always)]
fn below(depth: Depth, bytes: &[u8]) -> Result<Option<Entry<'_>>, Why>
    ensures { MatchResult result (λ o. below depth bytes.now ≡ Ok (entry_lines o)) (λ e. below depth bytes.now ≡ Err e) }
{
    match four_at(bytes) {
        Some(code) => with_four(depth, code, bytes),
        None => with_word(depth, bytes),
    }
}

#[tactic(auto, unfolding(crate::specs::Lines::tagged))]
fn tagged(bytes: &[u8]) -> Result<Option<Entry<'_>>, Why>
    ensures { MatchResult result (λ o. tagged bytes.now ≡ Ok (entry_lines o)) (λ e. tagged bytes.now ≡ Err e) }
{
    match Tag::new(word(bytes)) {
        Some(tag) => below(Depth::Zero(Kind::Tagged(tag)), after_word(bytes)),
        None => Err(Why::BadTop),
    }
}

#[tactic(auto, unfolding(crate::specs::Lines::top))]
fn top(bytes: &[u8]) -> Result<Option<Entry<'_>>, Why>
    ensures { MatchResult result (λ o. top bytes.now ≡ Ok (entry_lines o)) (λ e. top bytes.now ≡ Err e) }
{
    match four_at(bytes) {
        Some(code) => with_four(Depth::Zero(Kind::Vendor), code, bytes),
        None => tagged(bytes),
    }
}

fn after_tab(bytes: &[u8]) -> Result<Option<Entry<'_>>, Why>
    ensures { MatchResult result (λ o. after_tab bytes.now ≡ Ok (entry_lines o)) (λ e. after_tab bytes.now ≡ Err e) }
{
    match bytes {
        [b'\t', rest @ ..] => below(Depth::Two, rest),
        _ => below(Depth::One, bytes),
    }
}

fn by_tabs(bytes: &[u8]) -> Result<Option<Entry<'_>>, Why>
    ensures { MatchResult result (λ o. by_tabs bytes.now ≡ Ok (entry_lines o)) (λ e. by_tabs bytes.now ≡ Err e) }
{
    match bytes {
        [] => Ok(None),
        [b'\t', rest @ ..] => after_tab(rest),
        _ => top(bytes),
    }
}

fn is_comment(bytes: &[u8]) -> bool
    ensures { result ≡ is_comment bytes.now }
{
    match bytes {
        [] => true,
        [b, ..] => *b == b'#',
    }
}

/// Returns the entry of a line without its line feed, None for a comment or a blank line, or the
/// line's fault.
#[tactic(auto, unfolding(crate::specs::Lines::line_class))]
pub fn class_of(line: &[u8]) -> Result<Option<Entry<'_>>, Why>
    ensures { MatchResult result (λ o. line_class line.now ≡ Ok (entry_lines o)) (λ e. line_class line.now ≡ Err e) }
{
    if line.len() > 65536 {
        return Err(Why::LineTooLong);
    }
    let text = trimmed(line);
    if is_comment(past_separators(text)) {
        return Ok(None);
    }
    by_tabs(text)
}
