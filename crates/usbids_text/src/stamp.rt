//! The date and time of a list.
ghost use Rattle.std.specs.Prelude.{◌≡◌, ◌<◌, [], ◌∷◌, ◌++◌, Some, None, if◌then◌else◌};
ghost use Rattle.usbids_text.specs.Moments.{Moment, is_moment};
ghost use Rattle.usbids_text.specs.Writing.{date_text, time_text, two_digits, four_digits};

use std::marker::Model;

/// A date and a time of day for the head of a list. Every month has 31 days.
#[derive(Clone, Copy, Debug)]
pub struct Stamp {
    year: u16,
    month: u8,
    day: u8,
    hour: u8,
    minute: u8,
    second: u8,
}

impl Model for Stamp {
    ghost use Rattle.std.specs.Prelude.{IsTrue};
    ghost use Rattle.usbids_text.specs.Moments.{Moment, is_moment};

    ghost Value = { Moment };

    ghost view = { λ a. record { year = a.year; month = a.month; day = a.day; hour = a.hour; minute = a.minute; second = a.second } };

    ghost invariant = { λ a. IsTrue (is_moment (record { year = a.year; month = a.month; day = a.day; hour = a.hour; minute = a.minute; second = a.second })) };

    ghost inverse = { λ m. record { year = m.year; month = m.month; day = m.day; hour = m.hour; minute = m.minute; second = m.second } };
}

impl Stamp {
    /// Makes a stamp, or returns None if a part is out of its range: years 0 to 9999, months 1 to
    /// 12, days 1 to 31, hours 0 to 23, minutes and seconds 0 to 59.
    pub fn new(year: u16, month: u8, day: u8, hour: u8, minute: u8, second: u8) -> Option<Stamp>
        ensures { let m : Moment = record { year = year; month = month; day = day; hour = hour; minute = minute; second = second } in result ≡ (if is_moment m then Some m else None) }
    {
        if year <= 9999
            && (1 <= month && month <= 12)
            && (1 <= day && day <= 31)
            && hour <= 23
            && minute <= 59
            && second <= 59
        {
            Some(Stamp {
                year,
                month,
                day,
                hour,
                minute,
                second,
            })
        } else {
            None
        }
    }

    // Year, month and day with this byte between them.
    pub(crate) fn date(&self, between: u8) -> [u8; 10]
        ensures { result ≡ date_text between self.now }
    {
        let [a, b, c, d] = four_digits(self.year);
        let [e, f] = two_digits(self.month);
        let [g, h] = two_digits(self.day);
        [a, b, c, d, between, e, f, between, g, h]
    }

    // A space, hour, minute and second, and a line feed.
    pub(crate) fn time(&self) -> [u8; 10]
        ensures { result ≡ 32 ∷ (time_text self.now ++ 10 ∷ []) }
    {
        let [a, b] = two_digits(self.hour);
        let [c, d] = two_digits(self.minute);
        let [e, f] = two_digits(self.second);
        [b' ', a, b, b':', c, d, b':', e, f, b'\n']
    }
}

fn two_digits(n: u8) -> [u8; 2]
    requires { n < 100 }
    ensures { result ≡ two_digits n }
{
    [b'0' + n / 10, b'0' + n % 10]
}

fn four_digits(n: u16) -> [u8; 4]
    requires { n < 10000 }
    ensures { result ≡ four_digits n }
{
    [
        b'0' + (n / 1000) as u8,
        b'0' + (n / 100 % 10) as u8,
        b'0' + (n / 10 % 10) as u8,
        b'0' + (n % 10) as u8,
    ]
}
