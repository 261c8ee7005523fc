//! Times: a day and a time of day in UTC, to the second.

ghost use Rattle.std.specs.Prelude.{◌≡◌, ◌≤◌, ◌<◌, ◌+◌};
ghost use Rattle.usbnum_core.specs.Text.{IsTime, follows_byte, follows, digit_at, two_at};
ghost use Rattle.usbnum_core.specs.Utf8.{time_is_utf8};

use crate::{Text, TextRule};

/// A time, as a text of exactly the form `2026-11-28T20:34:13Z`.
pub type Time = Text<TimeRule>;

/// The rule of [`Time`].
#[derive(Drop)]
pub enum TimeRule {}

// Returns whether the byte may stand for this one of the form, in which 0 is any digit.
fn follows_byte(wanted: u8, byte: u8) -> bool
    ensures { result ≡ follows_byte wanted byte }
{
    if wanted == b'0' {
        b'0' <= byte && byte <= b'9'
    } else {
        byte == wanted
    }
}

fn follows(form: &[u8], bytes: &[u8]) -> bool
    ensures { result ≡ follows form.now bytes.now }
{
    let Some((wanted, form)) = form.split_first() else {
        return bytes.is_empty();
    };
    let Some((byte, bytes)) = bytes.split_first() else {
        return false;
    };
    follows_byte(*wanted, *byte) && follows(form, bytes)
}

fn digit_at(bytes: &[u8], at: usize) -> u16
    ensures value { result ≡ digit_at at bytes.now }
    ensures small { result < 256 }
{
    match bytes.get(at) {
        Some(byte) => u16::from(byte.saturating_sub(b'0')),
        None => 0,
    }
}

// The number that two digits write.
fn two_at(bytes: &[u8], at: usize) -> u16
    requires { at < 20 }
    ensures { result ≡ two_at at bytes.now }
{
    digit_at(bytes, at) * 10 + digit_at(bytes, at + 1)
}

impl TextRule for TimeRule {
    ghost IsValid = { IsTime };

    ghost valid_is_utf8 = { time_is_utf8 };

    fn accepts(bytes: &[u8]) -> bool {
        follows(b"0000-00-00T00:00:00Z", bytes)
            && matches!(two_at(bytes, 5), 1..=12)
            && matches!(two_at(bytes, 8), 1..=31)
            && two_at(bytes, 11) <= 23
            && two_at(bytes, 14) <= 59
            && two_at(bytes, 17) <= 59
    }
}
