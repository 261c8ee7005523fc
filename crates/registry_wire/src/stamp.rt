//! Reads the stamp of a list from `yyyy-mm-dd hh:mm:ss`.

ghost use Rattle.std.specs.Prelude.{◌≡◌, ◌≢◌, ◌<◌, true, IfSome, MatchOption};
ghost use Rattle.usbids_text.specs.Moments.{Moment, is_moment};
ghost use Rattle.registry_wire.specs.Stamps.{moment_text, digit_of, two_of, four_of, moment_at, moment_of};

use usbids_text::Stamp;

fn digit_of(byte: u8) -> Option<u8>
    ensures value { result ≡ digit_of byte }
    ensures small { IfSome result (λ digit. digit < 10) }
{
    match byte {
        b'0'..=b'9' => Some(byte - b'0'),
        _ => None,
    }
}

#[tactic(auto, unfolding(crate::specs::Stamps::two_of))]
fn two_of(a: u8, b: u8) -> Option<u8>
    ensures value { result ≡ two_of a b }
    ensures small { IfSome result (λ number. number < 100) }
{
    let tens = digit_of(a)?;
    let ones = digit_of(b)?;
    Some(tens * 10 + ones)
}

#[tactic(auto, unfolding(crate::specs::Stamps::four_of))]
fn four_of(a: u8, b: u8, c: u8, d: u8) -> Option<u16>
    ensures { result ≡ four_of a b c d }
{
    let high = two_of(a, b)?;
    let low = two_of(c, d)?;
    Some(u16::from(high) * 100 + u16::from(low))
}

// A stamp on this day, at the time in the bytes.
#[tactic(auto, unfolding(crate::specs::Stamps::moment_at))]
fn moment_at(year: u16, month: u8, day: u8, time: &[u8]) -> Option<Stamp>
    ensures { result ≡ moment_at year month day time.now }
{
    let [a, b, colon, c, d, other, e, f] = time else {
        return None;
    };
    if *colon != b':' || *other != b':' {
        return None;
    }
    let hour = two_of(*a, *b)?;
    let minute = two_of(*c, *d)?;
    let second = two_of(*e, *f)?;
    Stamp::new(year, month, day, hour, minute, second)
}

#[tactic(auto, unfolding(crate::specs::Stamps::moment_of))]
fn moment_of(text: &[u8]) -> Option<Stamp>
    ensures { result ≡ moment_of text.now }
{
    let [a, b, c, d, dash, e, f, other, g, h, space, time @ ..] = text else {
        return None;
    };
    if *dash != b'-' || *other != b'-' || *space != b' ' {
        return None;
    }
    let year = four_of(*a, *b, *c, *d)?;
    let month = two_of(*e, *f)?;
    let day = two_of(*g, *h)?;
    moment_at(year, month, day, time)
}

/// Reads a stamp from a text of exactly the form `yyyy-mm-dd hh:mm:ss`, in decimal digits. Returns
/// None for another form, or if a part is out of range.
pub fn stamp_from_text(text: &[u8]) -> Option<Stamp>
    ensures { MatchOption result ((m : Moment) → is_moment m ≡ true → moment_text m ≢ text.now) (λ m. moment_text m ≡ text.now) }
{
    moment_of(text)
}
