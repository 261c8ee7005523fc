//! The keys of lines, and bytes as base64.

ghost use Rattle.std.specs.Prelude.{◌≡◌, ◌<◌, IfOk, string_bytes};
ghost use Rattle.etcd_messages.specs.Keys.{digit_at_power, ten_digits, in_base64, from_base64, key_text, end_text};
ghost use Rattle.etcd_messages.specs.Faults.{GivesReading, value_or_fault};
ghost use Rattle.etcd_messages.specs.declared.fault.AnswerFault.TheVariants.{BadMember};
ghost use Rattle.etcd_messages.specs.declared.fault.Member.TheVariants as members;

use crate::fault::{AnswerFault, Member, Unread};
use base64::DecodeAllocError;
use base64::engine::general_purpose::STANDARD;
use shared_log::Line;
use std::alloc::Global;
use usbnum_core::{NoMemory, Slug};

// The digit of a number at a power of ten.
fn digit_at(power: u64, n: u64) -> u8
    requires { 0 < power }
    ensures { result ≡ digit_at_power power n }
{
    48 + (n / power % 10) as u8
}

#[tactic(auto, unfolding(crate::specs::Keys::ten_digits))]
fn ten_digits(n: u64) -> [u8; 10]
    ensures { result ≡ ten_digits n }
{
    [
        digit_at(1_000_000_000, n),
        digit_at(100_000_000, n),
        digit_at(10_000_000, n),
        digit_at(1_000_000, n),
        digit_at(100_000, n),
        digit_at(10_000, n),
        digit_at(1_000, n),
        digit_at(100, n),
        digit_at(10, n),
        digit_at(1, n),
    ]
}

// Returns the bytes as base64.
#[tactic(auto, unfolding(crate::specs::Keys::in_base64))]
pub(crate) fn in_base64(alloc: Global, bytes: &[u8]) -> Result<String, NoMemory>
    ensures { IfOk result (λ text. string_bytes text ≡ in_base64 bytes.now) }
{
    Ok(STANDARD.encode(alloc, bytes)?)
}

// Returns the bytes of a value in base64, or the fault that it is none.
#[tactic(auto, unfolding(crate::specs::Keys::from_base64, base64::specs::GeneralPurpose::decoded_of))]
pub(crate) fn from_base64(alloc: Global, text: &str) -> Result<Line, Unread>
    ensures { GivesReading result (value_or_fault (BadMember members.Value) (from_base64 text.now)) }
{
    match STANDARD.decode(alloc, text.as_bytes()) {
        Ok(bytes) => Ok(Line::new(bytes)),
        Err(DecodeAllocError::DecodeError(_)) => {
            Err(Unread::Bad(AnswerFault::BadMember(Member::Value)))
        }
        Err(DecodeAllocError::OutOfMemory) => Err(Unread::NoMemory),
    }
}

// Returns the key of a line as base64.
#[tactic(auto, unfolding(crate::specs::Keys::line_key))]
pub(crate) fn key_text(alloc: Global, name: &Slug, n: u64) -> Result<String, NoMemory>
    ensures { IfOk result (λ text. string_bytes text ≡ key_text name.now n) }
{
    let mut key = Vec::new(alloc);
    key.extend_from_slice(name.as_str().as_bytes())?;
    key.push(b'/')?;
    key.extend_from_slice(&ten_digits(n))?;
    in_base64(alloc, &key)
}

// Returns the first key behind those of all lines, as base64.
#[tactic(auto, unfolding(crate::specs::Keys::end_of))]
pub(crate) fn end_text(alloc: Global, name: &Slug) -> Result<String, NoMemory>
    ensures { IfOk result (λ text. string_bytes text ≡ end_text name.now) }
{
    let mut key = Vec::new(alloc);
    key.extend_from_slice(name.as_str().as_bytes())?;
    key.extend_from_slice(b"/:")?;
    in_base64(alloc, &key)
}
