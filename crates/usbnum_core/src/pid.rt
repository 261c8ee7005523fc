//! Product IDs.

ghost use Rattle.std.specs.Prelude.{◌≡◌, ◌+◌, ◌<◌, ℕ, Some};
ghost use Rattle.std.specs.Option.{SomeIff};
ghost use Rattle.usbnum_core.specs.Number.{IsId, number_of, digits_of};

use crate::code::{ascii_text, four_digits, parse_code};
use std::fmt;
use std::marker::Model;

/// A product ID, from 1 to 65,535. Each vendor has its own.
#[derive(Clone, Copy, Debug, PartialEq, Eq, PartialOrd, Ord, Hash)]
pub struct Pid {
    number: u16,
}

impl Model for Pid {
    ghost Value = { ℕ };

    ghost view = { λ a. a.number };

    ghost invariant = { λ a. IsId a.number };

    ghost inverse = { λ n. record { number = n } };
}

/// Returns the product ID of exactly four hexadecimal digits of either case, or None for `0000` and
/// any other text.
pub fn parse_pid(text: &[u8]) -> Option<Pid>
    ensures { result ≡ number_of text.now }
{
    Pid::new(parse_code(text)?)
}

impl Pid {
    /// Makes a product ID from a number, or returns None for 0.
    pub fn new(number: u16) -> Option<Pid>
        ensures { SomeIff result (IsId number) number }
    {
        if number == 0 {
            None
        } else {
            Some(Pid { number })
        }
    }

    /// Returns the number, from 1 to 65,535.
    pub fn get(&self) -> u16
        ensures number { result ≡ self.now }
        ensures valid { IsId result }
    {
        self.number
    }

    /// Returns four lower-case hexadecimal digits, which `parse_pid` reads back.
    pub fn digits(&self) -> [u8; 4]
        ensures digits { result ≡ digits_of self.now }
        ensures reads_back { number_of result ≡ Some self.now }
    {
        four_digits(self.get())
    }

    // The number before this one.
    pub(crate) fn before(self) -> Pid
        requires { 1 < self }
        ensures { result + 1 ≡ self }
    {
        Pid {
            number: self.get() - 1,
        }
    }

    // The number after this one.
    pub(crate) fn after(self) -> Pid
        requires { self < 65535 }
        ensures { result ≡ self + 1 }
    {
        Pid {
            number: self.get() + 1,
        }
    }
}

/// Writes four lower-case hexadecimal digits, for example `00ff`.
impl fmt::Display for Pid {
    ghost output = { λ number. Some (digits_of number) };

    fn fmt<W: fmt::Write>(&self, f: &mut fmt::Formatter<W>) -> fmt::Result {
        f.write_str(ascii_text(&self.digits()))
    }
}
