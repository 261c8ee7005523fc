//! Vendor IDs.

ghost use Rattle.std.specs.Prelude.{◌≡◌, ℕ, Some};
ghost use Rattle.std.specs.Option.{SomeIff};
ghost use Rattle.usbnum_core.specs.Number.{IsId, number_of, digits_of};

use crate::code::{ascii_text, four_digits, parse_code};
use std::fmt;
use std::marker::Model;

/// A vendor ID, from 1 to 65,535.
#[derive(Clone, Copy, Debug, PartialEq, Eq, PartialOrd, Ord, Hash)]
pub struct Vid {
    number: u16,
}

impl Model for Vid {
    ghost Value = { ℕ };

    ghost view = { λ a. a.number };

    ghost invariant = { λ a. IsId a.number };

    ghost inverse = { λ n. record { number = n } };
}

/// Returns the vendor ID of exactly four hexadecimal digits of either case, or None for `0000` and
/// any other text.
pub fn parse_vid(text: &[u8]) -> Option<Vid>
    ensures { result ≡ number_of text.now }
{
    Vid::new(parse_code(text)?)
}

impl Vid {
    /// Makes a vendor ID from a number, or returns None for 0.
    pub fn new(number: u16) -> Option<Vid>
        ensures { SomeIff result (IsId number) number }
    {
        if number == 0 {
            None
        } else {
            Some(Vid { number })
        }
    }

    /// Returns the number, from 1 to 65,535.
    pub fn get(&self) -> u16
        ensures number { result ≡ self.now }
        ensures valid { IsId result }
    {
        self.number
    }

    /// Returns four lower-case hexadecimal digits, which `parse_vid` reads back.
    pub fn digits(&self) -> [u8; 4]
        ensures digits { result ≡ digits_of self.now }
        ensures reads_back { number_of result ≡ Some self.now }
    {
        four_digits(self.get())
    }
}

/// Writes four lower-case hexadecimal digits, for example `1209`.
impl fmt::Display for Vid {
    ghost output = { λ number. Some (digits_of number) };

    fn fmt<W: fmt::Write>(&self, f: &mut fmt::Formatter<W>) -> fmt::Result {
        f.write_str(ascii_text(&self.digits()))
    }
}
